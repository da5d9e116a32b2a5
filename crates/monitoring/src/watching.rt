//! What is done with each datagram beside the relay: it is recorded, and shadows are compared.

use crate::recording::Recording;
use events::{Meta, Source};
use machine::Side;
use relay::{Relay, Step};
use server::Recorder;
use shadow::{ChoiceComparison, Shadows};
use std::alloc::{AllocError, Global};
use std::io::Write;

/// How many datagrams with which a shadow does something else are named by their lines of the record.
const NAMED: usize = 100;

/// A datagram with which a shadow does something else, by its line of the record.
#[derive(Clone, Copy)]
struct NamedDifference {
    side: Side,
    line: u64,
    comparison: ChoiceComparison,
}

/// What watches the datagrams of a server.
#[derive(Drop)]
pub struct Watch<'a> {
    pub recording: Recording<'a>,
    pub shadows: Shadows,
    /// Those that are to be named.
    named: Vec<NamedDifference>,
    /// How many may still be named.
    left: usize,
}

/// Returns the name of a side.
pub(crate) fn side_name(side: Side) -> &'static str {
    match side {
        Side::Client => "client",
        Side::Peer => "peer",
    }
}

impl<'a> Watch<'a> {
    /// Returns what records, and compares no shadows yet, and takes its memory.
    ///
    /// # Errors
    /// Where memory runs out.
    pub fn new(alloc: Global, recording: Recording<'a>) -> Result<Watch<'a>, AllocError> {
        Ok(Watch {
            recording,
            shadows: Shadows::none(),
            named: Vec::with_capacity(alloc, NAMED)?,
            left: NAMED,
        })
    }

    /// Names a datagram with which a shadow does something else, where it is recorded.
    fn name(&mut self, side: Side, comparison: ChoiceComparison) {
        if self.left == 0 || comparison == ChoiceComparison::Same {
            return;
        }
        if let Some(line) = self.recording.line() {
            let named = NamedDifference {
                side,
                line,
                comparison,
            };
            // there is room for as many as are named
            let _ = self.named.push(named);
            self.left -= 1;
        }
    }

    /// Writes what was recorded to the file, and prints the datagrams with which shadows do something else. A failure
    /// to print is ignored.
    pub fn flush<E: Write>(&mut self, err: &mut E) {
        self.recording.flush(err);
        for named in &self.named {
            let side = side_name(named.side);
            let _ = writeln!(
                err,
                "shadow {side} differs at line {}: {}",
                named.line, named.comparison
            );
        }
        self.named.clear();
    }
}

impl Recorder for Watch<'_> {
    #[inline(always)]
    fn record(&mut self, meta: &Meta, datagram: &[u8]) {
        self.recording.record(meta, datagram);
    }

    #[inline(always)]
    fn before_step(&mut self, relay: &Relay, meta: &Meta, n: usize) {
        self.shadows.choose(relay, meta, n);
    }

    #[inline(always)]
    fn after_step(&mut self, from: &Source, step: &Step<'_>) {
        if let Some((side, comparison)) = self.shadows.compare_with(from, step.choice()) {
            self.name(side, comparison);
        }
    }
}
