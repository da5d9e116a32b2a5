//! The metrics of a server, in the text format of Prometheus, for the textfile collector of its node_exporter.

use crate::names::{
    DISCARDED, NamedCounter, NamedKind, RECEIVE_FAULTS, RECEIVED, RELAYED, RESPONSES, SEND_FAULTS,
    reason_name,
};
use crate::watching::side_name;
use machine::Side;
use server::{Counter, Counters, REASONS, Timer, VERDICTS};
use shadow::{ChoiceComparison, DIFFERENCES, Deed, Shadows};
use std::alloc::{AllocError, Global};
use std::fs;
use std::io::{self, Write};
use std::rt::Files;
use std::time::Duration;

/// The seconds from one write to the next.
const PERIOD: u64 = 15;

/// The bytes of memory that are taken for the text. The longest one, of counters of 20 digits, has fewer.
const ROOM: usize = 32_768;

/// The labels of the verdicts that are counted each on its own.
const VERDICT_NAMES: [&str; VERDICTS] = [
    "0", "1", "2", "3", "4", "5", "6", "7", "8", "9", "10", "11", "12", "13", "14", "15",
];

/// What follows the name of the file in that of the new one.
const SUFFIX: &str = ".new";

/// What is written.
#[derive(Clone, Copy)]
pub(crate) struct Metrics<'a> {
    pub(crate) counters: &'a Counters,
    pub(crate) shadows: &'a Shadows,
    /// How many datagrams the system dropped, if that is known.
    pub(crate) dropped: Option<u64>,
    /// The number of slots.
    pub(crate) slots: usize,
    /// The number of slots that have an allocation.
    pub(crate) used: usize,
    /// The port of slot 0, which each sample has as a label where several servers may run; else `None`.
    pub(crate) first_port: Option<u16>,
}

/// A metric: samples of one name, type and meaning.
#[derive(Clone, Copy)]
struct MetricFamily {
    name: &'static str,
    /// `counter` or `gauge`.
    kind: &'static str,
    help: &'static str,
}

/// The labels of a sample, in order, each with its value.
type Labels<'a> = &'a [(&'static str, &'static str)];

/// The file that metrics are written to periodically.
#[derive(Drop)]
pub struct MetricsFile<'a> {
    path: &'a str,
    /// The path of the new file, which is in the same folder.
    new_path: String,
    /// See [`Metrics::first_port`].
    first_port: Option<u16>,
    /// The text of the new file. Its memory is taken before the server listens.
    text: Vec<u8>,
    /// Whether all of that text is there.
    is_whole: bool,
    timer: Timer,
    /// Whether the last write failed.
    is_failing: bool,
}

/// Returns the label of a difference between a program and its shadow.
fn difference_name(difference: ChoiceComparison) -> &'static str {
    match difference {
        ChoiceComparison::Differs(Deed::Discards, Deed::PassesOn) => "discarded_passed_on",
        ChoiceComparison::Differs(Deed::Discards, _) => "discarded_sent",
        ChoiceComparison::Differs(Deed::PassesOn, Deed::Discards) => "passed_on_discarded",
        ChoiceComparison::Differs(Deed::PassesOn, _) => "passed_on_sent",
        ChoiceComparison::Differs(Deed::Sends, Deed::Discards) => "sent_discarded",
        ChoiceComparison::Differs(Deed::Sends, _) => "sent_passed_on",
        ChoiceComparison::Elsewhere => "elsewhere",
        ChoiceComparison::OtherBytes => "other_bytes",
        ChoiceComparison::Same => "none",
    }
}

/// Returns the label of a verdict that is counted.
fn verdict_name(verdict: usize) -> &'static str {
    match VERDICT_NAMES.get(verdict) {
        Some(name) => *name,
        None => "other",
    }
}

impl MetricFamily {
    const RECEIVED: MetricFamily = MetricFamily {
        name: "relayd_datagrams_received_total",
        kind: "counter",
        help: "Datagrams that came.",
    };

    const RELAYED: MetricFamily = MetricFamily {
        name: "relayd_datagrams_relayed_total",
        kind: "counter",
        help: "Datagrams whose data was sent on.",
    };

    const RESPONSES: MetricFamily = MetricFamily {
        name: "relayd_responses_total",
        kind: "counter",
        help: "Responses to requests.",
    };

    const DISCARDED: MetricFamily = MetricFamily {
        name: "relayd_datagrams_discarded_total",
        kind: "counter",
        help: "Datagrams that nothing was sent for.",
    };

    const VERDICTS: MetricFamily = MetricFamily {
        name: "relayd_program_verdicts_total",
        kind: "counter",
        help: "Runs of the programs by their verdicts.",
    };

    const COMPARED: MetricFamily = MetricFamily {
        name: "relayd_shadow_compared_total",
        kind: "counter",
        help: "Datagrams with which a shadow was compared.",
    };

    const DIFFERING: MetricFamily = MetricFamily {
        name: "relayd_shadow_differing_total",
        kind: "counter",
        help: "Datagrams with which a shadow would have done something else.",
    };

    const DENIED: MetricFamily = MetricFamily {
        name: "relayd_datagrams_denied_total",
        kind: "counter",
        help: "Datagrams for peers that nothing is sent to.",
    };

    const FAULTS: MetricFamily = MetricFamily {
        name: "relayd_faults_total",
        kind: "counter",
        help: "Receives and sends that failed.",
    };

    const DROPPED: MetricFamily = MetricFamily {
        name: "relayd_datagrams_dropped_total",
        kind: "counter",
        help: "Datagrams that the system dropped at UDP sockets with full buffers since the start.",
    };

    const SLOTS: MetricFamily = MetricFamily {
        name: "relayd_slots",
        kind: "gauge",
        help: "Slots, each for one allocation.",
    };

    const USED: MetricFamily = MetricFamily {
        name: "relayd_slots_in_use",
        kind: "gauge",
        help: "Slots that have an allocation.",
    };

    /// Writes the lines before the samples.
    fn write_head<W: Write>(&self, out: &mut W) -> io::Result<()> {
        writeln!(out, "# HELP {} {}", self.name, self.help)?;
        writeln!(out, "# TYPE {} {}", self.name, self.kind)
    }
}

impl Metrics<'_> {
    /// Writes a sample.
    fn write_sample<W: Write>(
        &self,
        out: &mut W,
        family: &MetricFamily,
        labels: Labels<'_>,
        value: u64,
    ) -> io::Result<()> {
        write!(out, "{}", family.name)?;
        let mut before = '{';
        if let Some(port) = self.first_port {
            write!(out, "{before}first_port=\"{port}\"")?;
            before = ',';
        }
        for (label, text) in labels {
            write!(out, "{before}{label}=\"{text}\"")?;
            before = ',';
        }
        let end = if before == ',' { "}" } else { "" };
        writeln!(out, "{end} {value}")
    }

    /// Writes a metric of one sample, which has no label of its own.
    fn write_one<W: Write>(
        &self,
        out: &mut W,
        family: &MetricFamily,
        value: u64,
    ) -> io::Result<()> {
        family.write_head(out)?;
        self.write_sample(out, family, &[], value)
    }

    /// Writes a metric of counters, each with its value of a label.
    fn write_each<W: Write>(
        &self,
        out: &mut W,
        family: &MetricFamily,
        label: &'static str,
        counters: &[NamedCounter],
    ) -> io::Result<()> {
        family.write_head(out)?;
        for named in counters {
            let value = self.counters.get(named.counter);
            self.write_sample(out, family, &[(label, named.label)], value)?;
        }
        Ok(())
    }

    /// Writes what was received, and what was sent.
    fn write_handled<W: Write>(&self, out: &mut W) -> io::Result<()> {
        self.write_each(out, &MetricFamily::RECEIVED, "from", &RECEIVED)?;
        self.write_each(out, &MetricFamily::RELAYED, "to", &RELAYED)?;
        self.write_each(out, &MetricFamily::RESPONSES, "result", &RESPONSES)
    }

    /// Writes the datagrams of a kind that were discarded.
    fn write_discarded<W: Write>(&self, out: &mut W, named: &NamedKind) -> io::Result<()> {
        for reason in REASONS {
            let value = self.counters.get(Counter::Discarded(named.kind, reason));
            let labels = [("kind", named.label), ("reason", reason_name(reason))];
            self.write_sample(out, &MetricFamily::DISCARDED, &labels, value)?;
        }
        Ok(())
    }

    /// Writes what wasn't sent, and what failed.
    fn write_unsent<W: Write>(&self, out: &mut W) -> io::Result<()> {
        MetricFamily::DISCARDED.write_head(out)?;
        for named in &DISCARDED {
            self.write_discarded(out, named)?;
        }
        self.write_one(
            out,
            &MetricFamily::DENIED,
            self.counters.get(Counter::Denied),
        )?;
        let calls = [RECEIVE_FAULTS, SEND_FAULTS];
        self.write_each(out, &MetricFamily::FAULTS, "call", &calls)
    }

    /// Writes how often the program of a side ended with which verdict.
    fn write_verdicts<W: Write>(&self, out: &mut W, side: Side) -> io::Result<()> {
        for verdict in 0..VERDICTS + 1 {
            let value = self.counters.verdict_count(side, verdict as u64);
            let labels = [
                ("side", side_name(side)),
                ("verdict", verdict_name(verdict)),
            ];
            self.write_sample(out, &MetricFamily::VERDICTS, &labels, value)?;
        }
        Ok(())
    }

    /// Writes what the shadow of a side would have done otherwise, if it has one.
    fn write_differing<W: Write>(&self, out: &mut W, side: Side) -> io::Result<()> {
        let Some(counts) = self.shadows.counts_of(side) else {
            return Ok(());
        };
        for difference in DIFFERENCES {
            let labels = [
                ("side", side_name(side)),
                ("difference", difference_name(difference)),
            ];
            self.write_sample(
                out,
                &MetricFamily::DIFFERING,
                &labels,
                counts.get(difference),
            )?;
        }
        Ok(())
    }

    /// Writes what the programs did, and how their shadows compare, if there are some.
    fn write_programs<W: Write>(&self, out: &mut W) -> io::Result<()> {
        MetricFamily::VERDICTS.write_head(out)?;
        self.write_verdicts(out, Side::Client)?;
        self.write_verdicts(out, Side::Peer)?;
        if !self.shadows.has_some() {
            return Ok(());
        }
        MetricFamily::COMPARED.write_head(out)?;
        for side in [Side::Client, Side::Peer] {
            if let Some(counts) = self.shadows.counts_of(side) {
                let labels = [("side", side_name(side))];
                self.write_sample(out, &MetricFamily::COMPARED, &labels, counts.compared())?;
            }
        }
        MetricFamily::DIFFERING.write_head(out)?;
        self.write_differing(out, Side::Client)?;
        self.write_differing(out, Side::Peer)
    }

    /// Writes all metrics.
    fn write<W: Write>(&self, out: &mut W) -> io::Result<()> {
        self.write_handled(out)?;
        self.write_unsent(out)?;
        self.write_programs(out)?;
        if let Some(dropped) = self.dropped {
            self.write_one(out, &MetricFamily::DROPPED, dropped)?;
        }
        self.write_one(out, &MetricFamily::SLOTS, self.slots as u64)?;
        self.write_one(out, &MetricFamily::USED, self.used as u64)
    }
}

impl<'a> MetricsFile<'a> {
    /// Returns the file at a path, with the label of its samples if they have one, and takes its memory. It is due one
    /// period after `now`.
    ///
    /// # Errors
    /// Where memory runs out.
    pub fn new(
        alloc: Global,
        path: &'a str,
        first_port: Option<u16>,
        now: Duration,
    ) -> Result<MetricsFile<'a>, AllocError> {
        Ok(MetricsFile {
            path,
            new_path: format!(in alloc; "{path}{SUFFIX}")?,
            first_port,
            text: Vec::with_capacity(alloc, ROOM)?,
            is_whole: false,
            timer: Timer::new(now, Duration::from_secs(PERIOD)),
            is_failing: false,
        })
    }

    /// Returns the label of its samples, if they have one.
    pub(crate) fn first_port(&self) -> Option<u16> {
        self.first_port
    }

    /// Returns whether metrics are to be written now.
    pub(crate) fn fires(&mut self, now: Duration) -> bool {
        self.timer.fire(now)
    }

    /// Makes the text of metrics.
    pub(crate) fn make(&mut self, metrics: &Metrics<'_>) {
        self.text.clear();
        self.is_whole = metrics.write(&mut self.text).is_ok();
    }

    /// Writes the text to a new file, which then takes the name of the file: so a reader finds either the old metrics
    /// or the new ones, whole. What is at the new file's path is removed before, since to open a pipe may take forever.
    /// See docs/DECISIONS.md, "Metrics are a file".
    fn replace<R: Files>(&mut self, rt: &R) -> io::Result<()> {
        if !self.is_whole {
            return Err(io::Error::from(io::ErrorKind::OutOfMemory));
        }
        let _ = fs::remove_file(rt, self.new_path.as_str());
        let mut file = fs::File::create_new(rt, self.new_path.as_str())?;
        file.write_all(&self.text)?;
        let renamed = fs::rename(rt, self.new_path.as_str(), self.path);
        if renamed.is_err() {
            let _ = fs::remove_file(rt, self.new_path.as_str());
        }
        renamed
    }

    /// Writes the first metrics, whose text is made.
    ///
    /// # Errors
    /// Where they can't be written.
    pub(crate) fn begin<R: Files>(&mut self, rt: &R) -> io::Result<()> {
        self.replace(rt)
    }

    /// Writes the metrics whose text is made. A failure is reported, once until a write succeeds again.
    pub(crate) fn write<R: Files, E: Write>(&mut self, rt: &R, err: &mut E) {
        let has_failed = self.replace(rt).is_err();
        if has_failed && !self.is_failing {
            let _ = writeln!(err, "cannot write {}", self.path);
        }
        self.is_failing = has_failed;
    }
}
