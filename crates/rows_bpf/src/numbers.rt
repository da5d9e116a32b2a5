//! Numbers and intervals of numbers as rows have them.

use anyhow::{Result, ensure};
use interval::{Bounds, Domain};
use std::alloc::{AllocError, Global};

/// Parses a number, which is decimal, or hexadecimal after `0x`.
///
/// # Errors
/// Where the text is no number of 64 bits.
pub fn number_of(text: &str) -> Result<u64> {
    match text.strip_prefix("0x") {
        Some(digits) => Ok(u64::from_str_radix(digits, 16)?),
        None => Ok(text.parse::<u64>()?),
    }
}

/// Returns the text of a number: the expected one if that is a text of it.
///
/// # Errors
/// Where memory runs out.
pub fn number_text(alloc: Global, number: u64, expected: &str) -> Result<String, AllocError> {
    if number_of(expected).is_ok_and(|other| other == number) {
        expected.to_string(alloc)
    } else {
        format!(in alloc; "{number}")
    }
}

/// Parses the ends of an interval: two numbers with two dots between them, or one number.
///
/// # Errors
/// Where an end is no number.
fn bounds_of(text: &str) -> Result<Bounds> {
    let (lo, hi) = text.split_once("..").unwrap_or((text, text));
    Ok(Bounds {
        lo: number_of(lo)?,
        hi: number_of(hi)?,
    })
}

/// Parses an interval as an abstract number.
///
/// # Errors
/// Where an end is no number, or the first one is greater than the second one.
pub fn abstract_number<D: Domain>(text: &str) -> Result<D> {
    let Bounds { lo, hi } = bounds_of(text)?;
    ensure!(lo <= hi, "{lo} is above {hi}");
    Ok(D::range(lo, hi))
}

/// Returns the text of the ends of an interval: the expected one if that is a text of them.
///
/// # Errors
/// Where memory runs out.
pub fn bounds_text(alloc: Global, bounds: Bounds, expected: &str) -> Result<String, AllocError> {
    if bounds_of(expected).is_ok_and(|other| other == bounds) {
        return expected.to_string(alloc);
    }
    let Bounds { lo, hi } = bounds;
    format!(in alloc; "{lo}..{hi}")
}
