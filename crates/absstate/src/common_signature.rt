//! What signatures have in common, by which many are ruled out at once.

ghost use Rattle.std.specs.Prelude.{◌≡◌};
ghost use Rattle.absstate.specs.CommonSignatures.{hash_bit, is_among};

use crate::links::Links;
use crate::margins::Margins;
use crate::signature::{MarkBits, StateSignature};

/// What some links have in common: the least count, and a bit for the first places of each, by their hash.
#[derive(Clone, Copy, Debug, PartialEq, Eq)]
pub(crate) struct CommonLinks {
    count: u64,
    firsts: u128,
}

/// What the margins of some states have in common: the least number on each side, and of all.
#[derive(Clone, Copy, Debug, PartialEq, Eq)]
pub(crate) struct CommonMargins {
    below: u128,
    above: u128,
    total: u128,
}

/// What some signatures have in common: the bits that each of them has, the least of their margins, a bit for the
/// values of each, by their hash, and what their links have.
/// See docs/DESIGN.md, "What distinguishes a kept state".
#[derive(Clone, Copy, Debug, PartialEq, Eq)]
pub struct CommonSignature {
    registers: u64,
    groups: u64,
    marks: MarkBits,
    margins: CommonMargins,
    values: u128,
    links: CommonLinks,
}

/// Returns one bit of 128 for a hash.
fn hash_bit(hash: u64) -> u128
    ensures { result ≡ hash_bit hash }
{
    1 << (hash >> 57)
}

/// Returns whether the bit of a hash is among bits.
fn is_among(hash: u64, bits: u128) -> bool
    ensures { result ≡ is_among hash bits }
{
    let bit = hash_bit(hash);
    bit & bits == bit
}

impl CommonMargins {
    ghost use Rattle.std.specs.Prelude.{◌≡◌};
    ghost use Rattle.absstate.specs.CommonSignatures.{common_margins_of, least_margins, admits_margins};

    /// Returns what the margins of one state have.
    fn of(margins: Margins) -> CommonMargins
        ensures { result ≡ common_margins_of margins }
    {
        CommonMargins {
            below: margins.below,
            above: margins.above(),
            total: margins.total,
        }
    }

    /// Returns what these and other ones have in common.
    fn least(self, other: CommonMargins) -> CommonMargins
        ensures { result ≡ least_margins self other }
    {
        CommonMargins {
            below: self.below.min(other.below),
            above: self.above.min(other.above),
            total: self.total.min(other.total),
        }
    }

    /// Returns whether some of the margins may lie within other ones.
    fn admit(self, other: Margins) -> bool
        ensures { result ≡ admits_margins self other }
    {
        self.below <= other.below && self.above <= other.above()
    }
}

impl CommonLinks {
    ghost use Rattle.std.specs.Prelude.{◌≡◌};
    ghost use Rattle.absstate.specs.CommonSignatures.{common_links_of, common_links, admits_links};

    /// Returns what the links of one state have.
    fn of(links: Links) -> CommonLinks
        ensures { result ≡ common_links_of links }
    {
        CommonLinks {
            count: links.count,
            firsts: hash_bit(links.firsts),
        }
    }

    /// Returns what these and other ones have in common.
    fn in_common(self, other: CommonLinks) -> CommonLinks
        ensures { result ≡ common_links self other }
    {
        CommonLinks {
            count: self.count.min(other.count),
            firsts: self.firsts | other.firsts,
        }
    }

    /// Returns whether some of the links may lie within other ones.
    fn admit(self, other: Links) -> bool
        ensures { result ≡ admits_links self other }
    {
        self.count < other.count || is_among(other.firsts, self.firsts)
    }
}

impl CommonSignature {
    ghost use Rattle.std.specs.Prelude.{◌≡◌};
    ghost use Rattle.absstate.specs.CommonSignatures.{common_of, in_common, common_with, admits};

    /// Returns what one signature has.
    pub fn of(signature: StateSignature) -> CommonSignature
        ensures { result ≡ common_of signature }
    {
        CommonSignature {
            registers: signature.registers,
            groups: signature.groups,
            marks: signature.marks,
            margins: CommonMargins::of(signature.margins),
            values: hash_bit(signature.values),
            links: CommonLinks::of(signature.links),
        }
    }

    /// Returns what the signatures have in common with one more.
    pub fn with(self, signature: StateSignature) -> CommonSignature
        ensures { result ≡ common_with self signature }
    {
        self.in_common(CommonSignature::of(signature))
    }

    /// Returns what these signatures and other ones have in common.
    fn in_common(self, other: CommonSignature) -> CommonSignature
        ensures { result ≡ in_common self other }
    {
        CommonSignature {
            registers: self.registers & other.registers,
            groups: self.groups & other.groups,
            marks: self.marks.in_common(other.marks),
            margins: self.margins.least(other.margins),
            values: self.values | other.values,
            links: self.links.in_common(other.links),
        }
    }

    /// Returns whether one of the signatures may lie within another one: where it returns false, none does.
    pub fn admits(self, other: StateSignature) -> bool
        ensures { result ≡ admits self other }
    {
        self.registers & other.registers == self.registers
            && self.groups & other.groups == self.groups
            && self.margins.admit(other.margins)
            && (self.margins.total < other.margins.total || is_among(other.values, self.values))
            && self.marks.lie_within(other.marks)
            && self.links.admit(other.links)
    }
}
