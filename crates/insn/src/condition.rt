//! The conditions of jumps (RFC 9669, section 4.3).

ghost use Rattle.std.specs.Prelude.{◌≡◌, Some, IfSome};
ghost use Rattle.insn.specs.Codes.{condition_code};

/// The condition of a jump, on `dst` and the operand.
#[derive(Clone, Copy, Debug, PartialEq, Eq)]
pub enum Condition {
    /// `dst == operand`
    Eq,
    /// `dst > operand`, unsigned
    Gt,
    /// `dst >= operand`, unsigned
    Ge,
    /// `dst & operand` isn't 0
    Set,
    /// `dst != operand`
    Ne,
    /// `dst > operand`, signed
    SignedGt,
    /// `dst >= operand`, signed
    SignedGe,
    /// `dst < operand`, unsigned
    Lt,
    /// `dst <= operand`, unsigned
    Le,
    /// `dst < operand`, signed
    SignedLt,
    /// `dst <= operand`, signed
    SignedLe,
}

impl Condition {
    /// Returns the code of the condition, the high four bits of the opcode.
    pub fn code(self) -> u8
        ensures { result ≡ condition_code self }
    {
        match self {
            Condition::Eq => 0x1,
            Condition::Gt => 0x2,
            Condition::Ge => 0x3,
            Condition::Set => 0x4,
            Condition::Ne => 0x5,
            Condition::SignedGt => 0x6,
            Condition::SignedGe => 0x7,
            Condition::Lt => 0xa,
            Condition::Le => 0xb,
            Condition::SignedLt => 0xc,
            Condition::SignedLe => 0xd,
        }
    }

    /// Returns the condition of a code, `None` for a code that no condition has.
    pub fn from_code(code: u8) -> Option<Condition>
        ensures found { IfSome result (λ c. condition_code c ≡ code) }
        ensures only { (c : Condition) → condition_code c ≡ code → result ≡ Some c }
    {
        match code {
            0x1 => Some(Condition::Eq),
            0x2 => Some(Condition::Gt),
            0x3 => Some(Condition::Ge),
            0x4 => Some(Condition::Set),
            0x5 => Some(Condition::Ne),
            0x6 => Some(Condition::SignedGt),
            0x7 => Some(Condition::SignedGe),
            0xa => Some(Condition::Lt),
            0xb => Some(Condition::Le),
            0xc => Some(Condition::SignedLt),
            0xd => Some(Condition::SignedLe),
            _ => None,
        }
    }
}
