//! The reasons for which a step is stuck.

ghost use Rattle.std.specs.Prelude.{Some};
ghost use Rattle.semantics.specs.Reasons.{reason_text};

use std::error::Error;
use std::fmt;

/// The reason for which a step is stuck, or a program is refused. Each prints its code.
#[derive(Clone, Copy, Debug, PartialEq, Eq)]
pub enum Reason {
    /// A jump to its own slot or an earlier one.
    JumpBackward,
    /// A jump to a slot outside the program.
    JumpOutside,
    /// A jump to the second slot of an instruction.
    JumpIntoWide,
    /// A step past the last instruction.
    FallsOffEnd,
    /// A read of a register that is uninitialised.
    UninitRegister,
    /// A read of a stack byte that was never written.
    UninitStack,
    /// A write to `r10`.
    WritesFramePointer,
    /// An access outside the stack.
    StackBounds,
    /// An access to the context that is not the read of one of its fields.
    ContextAccess,
    /// An access outside headroom, datagram and tailroom.
    DatagramBounds,
    /// Arithmetic on a pointer that is not allowed, or that leads too far.
    PointerArithmetic,
    /// A comparison of a pointer that is not allowed.
    PointerCompare,
    /// A store of a pointer.
    PointerStored,
    /// A call of a helper that does not exist.
    UnknownHelper,
    /// A helper's argument, counted from 1, of the wrong kind or outside the stack.
    HelperArgument(u8),
    /// An exit where `r0` holds no number.
    ExitNotScalar,
    /// An access through a number.
    NotAPointer,
    /// A read of bytes of a pointer that the stack keeps.
    PointerBytes,
}

impl fmt::Display for Reason {
    ghost output = { λ r. Some (reason_text r) };

    fn fmt<W: fmt::Write>(&self, f: &mut fmt::Formatter<W>) -> fmt::Result {
        f.write_str(match self {
            Reason::JumpBackward => "V1",
            Reason::JumpOutside => "V2",
            Reason::JumpIntoWide => "V3",
            Reason::FallsOffEnd => "V4",
            Reason::UninitRegister => "V5",
            Reason::UninitStack => "V6",
            Reason::WritesFramePointer => "V7",
            Reason::StackBounds => "V8",
            Reason::ContextAccess => "V9",
            Reason::DatagramBounds => "V10",
            Reason::PointerArithmetic => "V11",
            Reason::PointerCompare => "V12",
            Reason::PointerStored => "V13",
            Reason::UnknownHelper => "V14",
            Reason::HelperArgument(n) => return write!(f, "V15 argument {n}"),
            Reason::ExitNotScalar => "V16",
            Reason::NotAPointer => "V18",
            Reason::PointerBytes => "V20",
        })
    }
}

impl Error for Reason {}
