//! How counters are printed, and the faults that were printed.

use crate::names::{
    DISCARDED, NamedCounter, RECEIVE_FAULTS, RECEIVED, RELAYED, RESPONSES, SEND_FAULTS, reason_name,
};
use relay::Discard;
use server::{Counter, Counters, Kind, REASONS};
use std::fmt;

/// Receives and sends that failed. Displays as a part of a line.
#[derive(Clone, Copy, PartialEq, Eq)]
pub(crate) struct Faults {
    receive: u64,
    send: u64,
}

/// Counters, and how many datagrams the system dropped, if that is known. Displays as a line.
/// See docs/DECISIONS.md, "What a server can count".
#[derive(Clone, Copy)]
pub(crate) struct CounterLine<'a> {
    pub(crate) counters: &'a Counters,
    pub(crate) dropped: Option<u64>,
}

/// Returns how many datagrams of a kind were discarded.
fn discarded_of(counters: &Counters, kind: Kind) -> u64 {
    let mut sum: u64 = 0;
    for reason in REASONS {
        sum = sum.saturating_add(counters.get(Counter::Discarded(kind, reason)));
    }
    sum
}

/// Returns how many datagrams were discarded for a reason.
fn discarded_for(counters: &Counters, reason: Discard) -> u64 {
    let mut sum: u64 = 0;
    for named in DISCARDED {
        sum = sum.saturating_add(counters.get(Counter::Discarded(named.kind, reason)));
    }
    sum
}

impl Faults {
    /// None.
    pub(crate) const NONE: Faults = Faults {
        receive: 0,
        send: 0,
    };

    /// Returns the faults that were counted.
    pub(crate) fn of(counters: &Counters) -> Faults {
        Faults {
            receive: counters.get(RECEIVE_FAULTS.counter),
            send: counters.get(SEND_FAULTS.counter),
        }
    }

    /// Returns the faults that came after others.
    pub(crate) fn since(self, others: Faults) -> Faults {
        Faults {
            receive: self.receive.saturating_sub(others.receive),
            send: self.send.saturating_sub(others.send),
        }
    }
}

impl fmt::Display for Faults {
    fn fmt<W: fmt::Write>(&self, f: &mut fmt::Formatter<W>) -> fmt::Result {
        write!(
            f,
            "{} {} {} {}",
            RECEIVE_FAULTS.words, self.receive, SEND_FAULTS.words, self.send
        )
    }
}

impl CounterLine<'_> {
    /// Writes counters.
    fn write_counters<W: fmt::Write>(
        &self,
        f: &mut fmt::Formatter<W>,
        counters: &[NamedCounter],
    ) -> fmt::Result {
        let mut before = "";
        for named in counters {
            let value = self.counters.get(named.counter);
            write!(f, "{before}{} {value}", named.words)?;
            before = " ";
        }
        write!(f, ", ")
    }

    /// Writes the datagrams that were discarded, by their kinds.
    fn write_discarded<W: fmt::Write>(&self, f: &mut fmt::Formatter<W>) -> fmt::Result {
        let mut before = "";
        for named in DISCARDED {
            let value = discarded_of(self.counters, named.kind);
            write!(f, "{before}{} {value}", named.words)?;
            before = " ";
        }
        write!(f, ", ")
    }

    /// Writes what else wasn't sent, and what was dropped.
    fn write_unsent<W: fmt::Write>(&self, f: &mut fmt::Formatter<W>) -> fmt::Result {
        let denied = self.counters.get(Counter::Denied);
        write!(f, "{}, denied {denied} ", Faults::of(self.counters))?;
        match self.dropped {
            Some(dropped) => write!(f, "dropped {dropped}"),
            None => write!(f, "dropped unknown"),
        }
    }

    /// Writes the datagrams that were discarded, by the reasons.
    fn write_reasons<W: fmt::Write>(&self, f: &mut fmt::Formatter<W>) -> fmt::Result {
        write!(f, ", reasons")?;
        for reason in REASONS {
            let count = discarded_for(self.counters, reason);
            write!(f, " {} {count}", reason_name(reason))?;
        }
        Ok(())
    }
}

impl fmt::Display for CounterLine<'_> {
    fn fmt<W: fmt::Write>(&self, f: &mut fmt::Formatter<W>) -> fmt::Result {
        self.write_counters(f, &RECEIVED)?;
        self.write_counters(f, &RELAYED)?;
        self.write_counters(f, &RESPONSES)?;
        self.write_discarded(f)?;
        self.write_unsent(f)?;
        self.write_reasons(f)
    }
}
