//! Loads programs, counts what comes of them, and compares the runs of those that are accepted.

use crate::comparison::RunComparison;
use crate::random::Random;
use anyhow::{Result, bail};
use loader::load;
use std::alloc::{AllocError, Global};
use std::collections::BTreeMap;
use verifier::Verified;

/// The seed of the pairs of bits.
const SEED: u64 = 21;

/// The variants of the program of a line that are checked.
#[derive(Clone, Copy, Debug, PartialEq, Eq)]
pub enum Variants {
    /// The program itself.
    Whole,
    /// Those with one of its bits flipped, each in turn; the datagrams of the worked session come too.
    Flips,
    /// Those with a drawn pair of its bits flipped, as many as this.
    Pairs(u64),
}

/// The programs that were checked: the counts of what came of them, and the comparison of their runs.
#[derive(Drop)]
pub struct CheckedPrograms {
    pub comparison: RunComparison,
    pub counts: BTreeMap<String, u64>,
    random: Random,
    datagrams: u64,
}

/// Flips a bit, if it is there.
fn flip(bytes: &mut [u8], bit: usize) {
    if let Some(byte) = bytes.get_mut(bit / 8) {
        *byte ^= 1 << (bit % 8);
    }
}

/// Returns the number of a drawn bit.
fn any_bit(random: &mut Random, bytes: &[u8]) -> usize {
    let bits = bytes.len().saturating_mul(8);
    let bits = u32::try_from(bits).unwrap_or(u32::MAX).max(1);
    random.below(bits) as usize
}

impl CheckedPrograms {
    /// Makes the counts of no program; each program that is accepted will run over so many datagrams.
    ///
    /// # Errors
    /// Where memory runs out.
    pub fn new(alloc: Global, datagrams: u64) -> Result<CheckedPrograms> {
        Ok(CheckedPrograms {
            comparison: RunComparison::new(alloc)?,
            counts: BTreeMap::new(alloc),
            random: Random::new(SEED),
            datagrams,
        })
    }

    /// Counts a program that is accepted, or refused with a code.
    fn count(&mut self, alloc: Global, code: &str) -> Result<(), AllocError> {
        let key = String::from_str(alloc, code)?;
        let count = self.counts.entry(key)?.or_insert(0);
        *count = count.saturating_add(1);
        Ok(())
    }

    /// Counts a refusal by its code, the first word of its text.
    fn count_refusal(&mut self, alloc: Global, text: &str) -> Result<(), AllocError> {
        let code = text.split_once(' ').map_or(text, |(code, _)| code);
        self.count(alloc, code)
    }

    /// Compares the runs of a program, and returns which datagram is the first one where they differ, and what differs.
    fn first_difference(
        &mut self,
        program: &Verified,
        variants: Variants,
    ) -> Option<(u64, &'static str)> {
        let found = self.comparison.first_difference(program, self.datagrams);
        if found.is_some() || variants != Variants::Flips {
            return found;
        }
        let (number, part) = self.comparison.first_worked_difference(program)?;
        Some((self.datagrams.saturating_add(number), part))
    }

    /// Loads a program, counts what comes of it, and compares its runs where it is accepted.
    ///
    /// # Errors
    /// Where a run and a trace differ, or memory runs out.
    fn check(&mut self, alloc: Global, bytes: &[u8], variants: Variants) -> Result<()> {
        let loaded = match load(alloc, bytes) {
            Ok(loaded) => loaded,
            Err(error) => {
                let text = format!(in alloc; "{error}")?;
                self.count_refusal(alloc, &text)?;
                return Ok(());
            }
        };
        self.count(alloc, "accepted")?;
        let found = self.first_difference(loaded.program(), variants);
        if let Some((number, part)) = found {
            let program = hex::encode(alloc, bytes)?;
            bail!("datagram {number}: another {part} of the program {program}");
        }
        Ok(())
    }

    /// Checks a program with each of its bits flipped in turn.
    fn check_flips(&mut self, alloc: Global, bytes: &mut [u8]) -> Result<()> {
        let bits = bytes.len().saturating_mul(8);
        for bit in 0..bits {
            flip(bytes, bit);
            self.check(alloc, bytes, Variants::Flips)?;
            flip(bytes, bit);
        }
        Ok(())
    }

    /// Checks a program with pairs of its bits flipped.
    fn check_pairs(&mut self, alloc: Global, bytes: &mut [u8], count: u64) -> Result<()> {
        for _ in 0..count {
            let first = any_bit(&mut self.random, bytes);
            let second = any_bit(&mut self.random, bytes);
            flip(bytes, first);
            flip(bytes, second);
            self.check(alloc, bytes, Variants::Pairs(count))?;
            flip(bytes, first);
            flip(bytes, second);
        }
        Ok(())
    }

    /// Checks the program of a line.
    ///
    /// # Errors
    /// Where the line is not hexadecimal, where a run and a trace differ, or memory runs out.
    pub fn check_line(&mut self, alloc: Global, line: &str, variants: Variants) -> Result<()> {
        let mut bytes = hex::decode(alloc, line)?;
        match variants {
            Variants::Whole => self.check(alloc, &bytes, variants),
            Variants::Flips => self.check_flips(alloc, &mut bytes),
            Variants::Pairs(count) => self.check_pairs(alloc, &mut bytes, count),
        }
    }
}
