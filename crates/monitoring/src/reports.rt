//! What a server reports of itself while it runs.

use crate::counters::{CounterLine, Faults};
use crate::drops::Drops;
use crate::metrics::{Metrics, MetricsFile};
use crate::server_log::ServerLog;
use crate::watching::side_name;
use machine::Side;
use server::{Counters, Timer};
use shadow::Shadows;
use std::alloc::AllocError;
use std::io::{self, Write};
use std::rt::Files;
use std::time::Duration;
use tables::Tables;

/// The seconds after which faults may be printed again.
const FAULTS_PERIOD: u64 = 1;

/// The seconds after which it is printed again how shadows compare.
const SHADOWS_PERIOD: u64 = 60;

/// Both sides.
const SIDES: [Side; 2] = [Side::Client, Side::Peer];

/// What is reported on.
#[derive(Clone, Copy)]
pub struct Observed<'a> {
    pub counters: &'a Counters,
    pub shadows: &'a Shadows,
    pub tables: &'a Tables,
    /// Whole seconds since 1970.
    pub moment: u64,
}

/// What is reported, each in its turn.
#[derive(Clone, Copy)]
enum Report {
    /// The receives and sends that failed.
    Faults,
    /// The line of counters.
    Counters,
    /// How shadows compare.
    Shadows,
    Metrics,
}

/// A piece of a report that has begun, after the first one, in which it is read what the system dropped over IPv4.
#[derive(Clone, Copy)]
enum Piece {
    /// To read what it dropped over IPv6, for the line of counters.
    CountersDrops,
    /// To print that line.
    Counters,
    /// To read what it dropped over IPv6, for the metrics.
    MetricsDrops,
    /// To make the text of the metrics.
    Text,
    /// To write that text to its file.
    File,
}

impl Report {
    /// How many there are.
    const COUNT: usize = 4;

    /// Returns the one whose turn is next.
    fn next(self) -> Report {
        match self {
            Report::Faults => Report::Counters,
            Report::Counters => Report::Shadows,
            Report::Shadows => Report::Metrics,
            Report::Metrics => Report::Faults,
        }
    }
}

impl Piece {
    /// Returns the one that follows, if there is one.
    fn next(self) -> Option<Piece> {
        match self {
            Piece::CountersDrops => Some(Piece::Counters),
            Piece::MetricsDrops => Some(Piece::Text),
            Piece::Text => Some(Piece::File),
            Piece::Counters | Piece::File => None,
        }
    }
}

/// What a server reports of itself. Its memory is taken before the server listens.
#[derive(Drop)]
pub struct Reports<'a> {
    drops: Drops,
    /// The faults when they were last printed.
    printed: Faults,
    /// When faults may be printed next.
    faults: Timer,
    stats: Option<Timer>,
    /// When it may be printed next how shadows compare.
    shadows: Timer,
    metrics: Option<MetricsFile<'a>>,
    log: Option<ServerLog>,
    /// The report that was begun last.
    report: Report,
    /// The next piece of it, if some are left.
    piece: Option<Piece>,
}

/// Prints how the shadows compare with their programs. A failure to print is ignored.
fn print_shadows<E: Write>(err: &mut E, shadows: &Shadows) {
    for side in SIDES {
        if let Some(counts) = shadows.counts_of(side) {
            let _ = writeln!(err, "shadow {}: {counts}", side_name(side));
        }
    }
}

impl<'a> Reports<'a> {
    /// Returns what a server reports from a time on: its counters each so many seconds, its metrics and its log, as far
    /// as they are wanted.
    ///
    /// # Errors
    /// Where memory runs out.
    pub fn new<R: Files + AllocGlobal>(
        rt: &R,
        stats: Option<u64>,
        metrics: Option<MetricsFile<'a>>,
        log: Option<ServerLog>,
        now: Duration,
    ) -> Result<Reports<'a>, AllocError> {
        Ok(Reports {
            drops: Drops::new(rt)?,
            printed: Faults::NONE,
            faults: Timer::new(now, Duration::from_secs(FAULTS_PERIOD)),
            stats: stats.map(|seconds| Timer::new(now, Duration::from_secs(seconds))),
            shadows: Timer::new(now, Duration::from_secs(SHADOWS_PERIOD)),
            metrics,
            log,
            report: Report::Metrics,
            piece: None,
        })
    }

    /// Returns the log, if one is wanted.
    pub fn log(&mut self) -> Option<&mut ServerLog> {
        self.log.as_mut()
    }

    /// Returns whether something may have to be reported before the next datagram comes.
    pub fn is_waiting(&self, counters: &Counters) -> bool {
        let is_logging = match &self.log {
            Some(log) => log.is_waiting(),
            None => false,
        };
        let is_timed = self.stats.is_some() || self.metrics.is_some();
        is_logging || is_timed || self.has_faults(counters)
    }

    /// Returns whether receives or sends failed since that was last printed.
    fn has_faults(&self, counters: &Counters) -> bool {
        Faults::of(counters) != self.printed
    }

    /// Prints how many receives and sends failed since that was last printed, if any did. A failure to print is
    /// ignored.
    fn print_faults<E: Write>(&mut self, err: &mut E, counters: &Counters) {
        if self.has_faults(counters) {
            let faults = Faults::of(counters);
            let _ = writeln!(err, "{}", faults.since(self.printed));
            self.printed = faults;
        }
    }

    /// Prints the line of counters, and how shadows compare, with what the system dropped when that was last read.
    /// A failure to print is ignored.
    fn print_counters<E: Write>(&self, err: &mut E, of: Observed<'_>) {
        let line = CounterLine {
            counters: of.counters,
            dropped: self.drops.last(),
        };
        let _ = writeln!(err, "{line}");
        print_shadows(err, of.shadows);
    }

    /// Makes the text of the metrics, if they are wanted, with what the system dropped when that was last read.
    fn make_metrics(&mut self, of: Observed<'_>) {
        let dropped = self.drops.last();
        if let Some(file) = &mut self.metrics {
            file.make(&Metrics {
                counters: of.counters,
                shadows: of.shadows,
                dropped,
                slots: of.tables.slots(),
                used: of.tables.allocation_count(of.moment),
                first_port: file.first_port(),
            });
        }
    }

    /// Writes the text of the metrics to their file, if they are wanted.
    fn write_metrics<R: Files, E: Write>(&mut self, rt: &R, err: &mut E) {
        if let Some(file) = &mut self.metrics {
            file.write(rt, err);
        }
    }

    /// Writes the first metrics, if they are wanted.
    ///
    /// # Errors
    /// Where they can't be written.
    pub fn begin<R: Files>(&mut self, rt: &R, of: Observed<'_>) -> io::Result<()> {
        if self.metrics.is_some() {
            self.drops.update(rt);
        }
        self.make_metrics(of);
        match &mut self.metrics {
            Some(file) => file.begin(rt),
            None => Ok(()),
        }
    }

    /// Does one piece of what is due of the log, if there is one: prints some of its lines; once a period the
    /// allocations that have ended are added, and then it is printed how many lines were left out. Returns whether
    /// there was a piece.
    pub fn do_log_piece<E: Write>(&mut self, err: &mut E, of: Observed<'_>, now: Duration) -> bool {
        match &mut self.log {
            Some(log) => log.do_piece(err, of.tables, of.moment, now),
            None => false,
        }
    }

    /// Returns whether a report is due at a time. The next one of its kind is then due one period later.
    fn fires(&mut self, report: Report, counters: &Counters, now: Duration) -> bool {
        match report {
            Report::Faults => self.has_faults(counters) && self.faults.fire(now),
            Report::Counters => match &mut self.stats {
                Some(timer) => timer.fire(now),
                None => false,
            },
            Report::Shadows => self.shadows.fire(now),
            Report::Metrics => match &mut self.metrics {
                Some(file) => file.fires(now),
                None => false,
            },
        }
    }

    /// Does the first piece of the report whose turn it is: prints faults or how shadows compare, or reads what the
    /// system dropped, after which counters are printed, or metrics are written.
    fn begin_report<R: Files, E: Write>(&mut self, rt: &R, err: &mut E, of: Observed<'_>) {
        match self.report {
            Report::Faults => self.print_faults(err, of.counters),
            Report::Shadows => print_shadows(err, of.shadows),
            Report::Counters => {
                self.drops.update_ipv4(rt);
                self.piece = Some(Piece::CountersDrops);
            }
            Report::Metrics => {
                self.drops.update_ipv4(rt);
                self.piece = Some(Piece::MetricsDrops);
            }
        }
    }

    /// Begins the next report that is due at a time. Returns whether there was one.
    fn begin_next<R: Files, E: Write>(
        &mut self,
        rt: &R,
        err: &mut E,
        of: Observed<'_>,
        now: Duration,
    ) -> bool {
        for _ in 0..Report::COUNT {
            self.report = self.report.next();
            if self.fires(self.report, of.counters, now) {
                self.begin_report(rt, err, of);
                return true;
            }
        }
        false
    }

    /// Does a piece of the report that has begun, or begins one that is due: prints faults, counters and how shadows
    /// compare, and writes metrics. Returns whether there was one.
    pub fn do_piece<R: Files, E: Write>(
        &mut self,
        rt: &R,
        err: &mut E,
        of: Observed<'_>,
        now: Duration,
    ) -> bool {
        let Some(piece) = self.piece else {
            return self.begin_next(rt, err, of, now);
        };
        self.piece = piece.next();
        match piece {
            Piece::CountersDrops | Piece::MetricsDrops => self.drops.update_ipv6(rt),
            Piece::Counters => self.print_counters(err, of),
            Piece::Text => self.make_metrics(of),
            Piece::File => self.write_metrics(rt, err),
        }
        true
    }

    /// Prints faults and counters and writes metrics, as far as they are wanted.
    pub fn end<R: Files, E: Write>(&mut self, rt: &R, err: &mut E, of: Observed<'_>) {
        self.print_faults(err, of.counters);
        if self.stats.is_some() || self.metrics.is_some() {
            self.drops.update(rt);
        }
        if self.stats.is_some() {
            self.print_counters(err, of);
        }
        self.make_metrics(of);
        self.write_metrics(rt, err);
    }
}
