//! That a run comes to the same end as a trace, over seeded datagrams from both sides.

use crate::frames::{CLIENT, Frames, PEER};
use anyhow::{Result, bail};
use loader::load;
use machine::{Context, MAX_DATAGRAM, NoAllocation};
use std::alloc::{AllocError, Global};

/// The seeds of datagrams, their lengths, and where they come from.
static SEEDED: [(u64, usize, Context); 13] = [
    (1, 0, CLIENT),
    (2, 1, PEER),
    (3, 1, CLIENT),
    (4, 3, PEER),
    (5, 4, CLIENT),
    (6, 4, PEER),
    (7, 5, CLIENT),
    (8, 20, CLIENT),
    (9, 20, PEER),
    (10, 1472, CLIENT),
    (11, MAX_DATAGRAM, PEER),
    (12, MAX_DATAGRAM, CLIENT),
    (13, 0, PEER),
];

/// A datagram, and where it comes from.
#[derive(Drop)]
pub struct Seeded {
    context: Context,
    bytes: Vec<u8>,
}

/// Returns the state of a fixed generator that follows another.
fn following(state: u64) -> u64 {
    state
        .wrapping_mul(6_364_136_223_846_793_005)
        .wrapping_add(1_442_695_040_888_963_407)
}

/// Returns `count` bytes of the generator.
fn seeded_bytes(alloc: Global, seed: u64, count: usize) -> Result<Vec<u8>, AllocError> {
    let mut state = seed;
    let mut bytes = Vec::new(alloc);
    for _ in 0..count {
        state = following(state);
        let [byte, ..] = state.to_be_bytes();
        bytes.push(byte)?;
    }
    Ok(bytes)
}

/// Makes the datagrams that the runs and the traces are over.
///
/// # Errors
/// Where memory runs out.
pub fn datagrams(alloc: Global) -> Result<Vec<Seeded>, AllocError> {
    let mut datagrams = Vec::new(alloc);
    for (seed, count, context) in SEEDED.iter() {
        datagrams.push(Seeded {
            context: *context,
            bytes: seeded_bytes(alloc, *seed, *count)?,
        })?;
    }
    Ok(datagrams)
}

/// Runs and traces a program that is accepted over each datagram. From a peer it sets no destination.
///
/// # Errors
/// Where a run and its trace differ, or a destination is set from a peer.
pub fn check_agreement(
    alloc: Global,
    frames: &mut Frames,
    datagrams: &[Seeded],
    file: &[u8],
) -> Result<()> {
    let Ok(loaded) = load(alloc, file) else {
        return Ok(());
    };
    for Seeded { context, bytes } in datagrams {
        let outcome = frames.run(loaded.program(), context, bytes, &NoAllocation)?;
        if *context == PEER && outcome.destination.is_some() {
            bail!("a destination is set from a peer");
        }
    }
    Ok(())
}
