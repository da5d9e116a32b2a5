//! The distances of jumps (RFC 9669, section 4.3).

ghost use Rattle.std.specs.Prelude.{◌≡◌};
ghost use Rattle.insn.specs.Encoding.{Fits};
ghost use Rattle.insn.specs.Jumps.{with_distance};

use crate::instruction::Insn;

impl Insn {
    /// Returns the instruction, with this distance in place of its own if it is a jump.
    pub fn with_distance(self, distance: i16) -> Insn
        ensures value { result ≡ with_distance self distance }
        ensures fits { Fits self → Fits result }
    {
        match self {
            Insn::Jump { .. } => Insn::Jump { offset: distance },
            Insn::LongJump { .. } => Insn::LongJump {
                offset: i32::from(distance),
            },
            Insn::JumpIf {
                width,
                condition,
                dst,
                operand,
                ..
            } => Insn::JumpIf {
                width,
                condition,
                dst,
                operand,
                offset: distance,
            },
            other => other,
        }
    }
}
