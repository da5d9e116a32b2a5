//! How often a shadow did what in comparison with the program.

ghost use Rattle.std.specs.Prelude.{◌≡◌, ◌<◌};
ghost use Rattle.server.specs.Counters.{HasRaised};
ghost use Rattle.shadow.specs.CountValues.{comparison_index, comparison_count, deed_index};

use crate::comparing::{ChoiceComparison, Deed};
use std::fmt;

/// The number of comparisons.
const COUNT: usize = 12;

/// All comparisons of something else that a shadow does, in the order in which they are printed.
pub const DIFFERENCES: [ChoiceComparison; 8] = [
    ChoiceComparison::Differs(Deed::Discards, Deed::PassesOn),
    ChoiceComparison::Differs(Deed::Discards, Deed::Sends),
    ChoiceComparison::Differs(Deed::PassesOn, Deed::Discards),
    ChoiceComparison::Differs(Deed::PassesOn, Deed::Sends),
    ChoiceComparison::Differs(Deed::Sends, Deed::Discards),
    ChoiceComparison::Differs(Deed::Sends, Deed::PassesOn),
    ChoiceComparison::Elsewhere,
    ChoiceComparison::OtherBytes,
];

/// How often each comparison came out. A count stays at [`u64::MAX`] once it is there. Displays as what stands after
/// the name of a shadow.
#[derive(Drop)]
pub struct ShadowCounts {
    values: [u64; COUNT],
}

impl Deed {
    /// Returns the index of the deed, below 3.
    fn index(self) -> usize
        ensures index { result ≡ deed_index self }
        ensures below { result < 3 }
    {
        match self {
            Deed::Discards => 0,
            Deed::PassesOn => 1,
            Deed::Sends => 2,
        }
    }

    /// Returns the word for what was done with a datagram.
    pub fn done(self) -> &'static str {
        match self {
            Deed::Discards => "discarded",
            Deed::PassesOn => "passed on",
            Deed::Sends => "sent",
        }
    }
}

impl ChoiceComparison {
    /// Returns the index of the comparison, below 12.
    fn index(self) -> usize
        ensures index { result ≡ comparison_index self }
        ensures below { result < COUNT }
    {
        match self {
            ChoiceComparison::Same => 0,
            ChoiceComparison::OtherBytes => 1,
            ChoiceComparison::Elsewhere => 2,
            ChoiceComparison::Differs(program, shadow) => 3 + 3 * program.index() + shadow.index(),
        }
    }
}

impl fmt::Display for ChoiceComparison {
    fn fmt<W: fmt::Write>(&self, f: &mut fmt::Formatter<W>) -> fmt::Result {
        match self {
            ChoiceComparison::Same => f.write_str("the same"),
            ChoiceComparison::OtherBytes => f.write_str("with other bytes"),
            ChoiceComparison::Elsewhere => f.write_str("sent elsewhere"),
            ChoiceComparison::Differs(program, shadow) => {
                let (program, shadow) = (program.done(), shadow.done());
                write!(f, "{program} by the program and {shadow} by the shadow")
            }
        }
    }
}

impl ShadowCounts {
    ghost use Rattle.shadow.specs.declared.comparing.ChoiceComparison.{ChoiceComparison};

    /// Returns counts that are all 0.
    pub const fn new() -> ShadowCounts
        ensures { (c : ChoiceComparison) → comparison_count result c ≡ 0 }
    {
        ShadowCounts { values: [0; COUNT] }
    }

    /// Returns how often a comparison came out.
    pub fn get(&self, comparison: ChoiceComparison) -> u64
        ensures { result ≡ comparison_count self.now comparison }
    {
        self.values[comparison.index()]
    }

    /// Counts a comparison.
    #[inline(always)]
    pub fn count(&mut self, comparison: ChoiceComparison)
        ensures { HasRaised comparison (comparison_count self.old) (comparison_count self.new) }
    {
        let index = comparison.index();
        self.values[index] = self.values[index].saturating_add(1);
    }

    /// Returns how many datagrams were compared.
    pub fn compared(&self) -> u64 {
        self.differing()
            .saturating_add(self.get(ChoiceComparison::Same))
    }

    /// Returns with how many datagrams the shadow did something else.
    pub fn differing(&self) -> u64 {
        let mut sum: u64 = 0;
        for difference in DIFFERENCES {
            sum = sum.saturating_add(self.get(difference));
        }
        sum
    }
}

/// Writes a comparison with its count where it came out, after what separates it from the one before.
fn write_count<W: fmt::Write>(
    f: &mut fmt::Formatter<W>,
    counts: &ShadowCounts,
    comparison: ChoiceComparison,
    before: &'static str,
) -> Result<&'static str, fmt::Error> {
    match counts.get(comparison) {
        0 => Ok(before),
        count => {
            write!(f, "{before}{count} {comparison}")?;
            Ok(", ")
        }
    }
}

impl fmt::Display for ShadowCounts {
    fn fmt<W: fmt::Write>(&self, f: &mut fmt::Formatter<W>) -> fmt::Result {
        let (compared, differing) = (self.compared(), self.differing());
        write!(f, "{compared} compared, {differing} differ")?;
        let mut before = ": ";
        for difference in DIFFERENCES {
            before = write_count(f, self, difference, before)?;
        }
        Ok(())
    }
}
