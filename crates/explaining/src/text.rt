//! The texts of abstract values.

ghost use Rattle.std.specs.Prelude.{◌≡◌, ◌-ℤ◌, Some};
ghost use Rattle.insn.specs.Spelling.{with_sign};
ghost use Rattle.explaining.specs.Texts.{after_text, bounds_text, place_text, proved_text, value_text};

use absstate::{AbsState, AbstractValue, Anchor};
use interval::{Bounds, Domain, Interval};
use std::fmt;

/// What is known at a slot of a path.
pub(crate) type State = AbsState<Interval>;

/// A number with its sign, which is a plus for zero.
#[derive(Clone, Copy)]
pub(crate) struct Signed(pub(crate) i64);

impl fmt::Display for Signed {
    ghost output = { λ s. Some (with_sign s.0) };

    fn fmt<W: fmt::Write>(&self, f: &mut fmt::Formatter<W>) -> fmt::Result {
        let n = self.0;
        if n >= 0 {
            write!(f, "+{n}")
        } else {
            write!(f, "{n}")
        }
    }
}

/// A known number, or the least and the greatest one.
#[derive(Clone, Copy)]
pub(crate) struct Ends(pub(crate) Bounds);

impl fmt::Display for Ends {
    ghost output = { λ e. Some (bounds_text e.0) };

    fn fmt<W: fmt::Write>(&self, f: &mut fmt::Formatter<W>) -> fmt::Result {
        let Bounds { lo, hi } = self.0;
        if lo == hi {
            write!(f, "={lo}")
        } else {
            write!(f, "{lo}..{hi}")
        }
    }
}

/// A place of the datagram: from its first byte on, or from an anchor on that lies between two places.
#[derive(Clone, Copy)]
pub(crate) struct DatagramPlace {
    pub(crate) anchor: Anchor,
    pub(crate) offset: i32,
}

impl fmt::Display for DatagramPlace {
    ghost output = { λ p. Some (place_text p.anchor p.offset) };

    fn fmt<W: fmt::Write>(&self, f: &mut fmt::Formatter<W>) -> fmt::Result {
        let DatagramPlace { anchor, offset } = *self;
        let offset = Signed(i64::from(offset));
        match anchor {
            Anchor::First => write!(f, "datagram{offset}"),
            Anchor::Variable { low, high, .. } => write!(f, "datagram+({low}..{high}){offset}"),
        }
    }
}

/// Returns how many bytes are proved after a place, from how many are after its anchor.
fn bytes_after(proved: i32, offset: i32) -> i64
    ensures { result ≡ (proved -ℤ offset) }
{
    i64::from(proved) - i64::from(offset)
}

/// How many bytes are proved after a place. Where it is negative, nothing is.
#[derive(Clone, Copy)]
struct After(i64);

impl fmt::Display for After {
    ghost output = { λ a. Some (after_text a.0) };

    fn fmt<W: fmt::Write>(&self, f: &mut fmt::Formatter<W>) -> fmt::Result {
        let n = self.0;
        if n < 0 {
            f.write_str(", nothing proved after it")
        } else {
            write!(f, ", {n} proved after it")
        }
    }
}

/// How many bytes are proved after a place at a variable anchor.
#[derive(Clone, Copy)]
struct Proved(DatagramPlace);

impl fmt::Display for Proved {
    ghost output = { λ p. Some (proved_text p.0.anchor p.0.offset) };

    fn fmt<W: fmt::Write>(&self, f: &mut fmt::Formatter<W>) -> fmt::Result {
        let DatagramPlace { anchor, offset } = self.0;
        match anchor {
            Anchor::First => Ok(()),
            Anchor::Variable { proved, .. } => {
                let after = After(bytes_after(proved, offset));
                write!(f, "{after}")
            }
        }
    }
}

/// What is known of a register, or of eight bytes of the stack.
#[derive(Clone, Copy)]
pub struct Known(pub AbstractValue<Interval>);

impl fmt::Display for Known {
    ghost output = { λ v. Some (value_text v.0) };

    fn fmt<W: fmt::Write>(&self, f: &mut fmt::Formatter<W>) -> fmt::Result {
        match self.0 {
            AbstractValue::Nothing => f.write_str("-"),
            AbstractValue::Scalar(number) => {
                let ends = Ends(number.bounds());
                write!(f, "{ends}")
            }
            AbstractValue::Ctx => f.write_str("context"),
            AbstractValue::Stack(offset) => {
                let offset = Signed(i64::from(offset));
                write!(f, "stack{offset}")
            }
            AbstractValue::Data { anchor, offset } => {
                let place = DatagramPlace { anchor, offset };
                let proved = Proved(place);
                write!(f, "{place}{proved}")
            }
            AbstractValue::End => f.write_str("end"),
        }
    }
}
