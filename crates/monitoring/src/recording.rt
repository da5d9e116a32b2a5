//! The record of a server's events. A replay of them gives the answers of the server.

use basics::SystemError;
use basics::streams::Output;
use events::{Event, Meta, write_event};
use libc::getrlimit;
use libc::types::rlimit;
use semantics::MAX_DATAGRAM;
use std::fs::{File, OpenOptions};
use std::io::{self, Write};
use std::mem;
use std::os::unix::fs::OpenOptionsExt;
use std::rt::Files;
use thiserror::Error;

/// Room for the longest line, which is that of a peer's longest datagram.
const LONGEST: usize = 2 * MAX_DATAGRAM + 128;

/// Room for the lines that are to be written to the file.
const ROOM: usize = 4 * LONGEST;

/// The permissions of the file: its owner reads and writes it, and nobody else.
const MODE: u32 = 0o600;

/// What getrlimit is asked: the most bytes that a file of the process may have. Who writes more is killed.
const RLIMIT_FSIZE: i32 = 1;

/// Why a recording can't begin.
#[derive(Clone, Copy, Debug)]
pub enum RecordError {
    /// The system refuses its file.
    System(SystemError),
    /// Memory ran out.
    Memory,
}

/// Why a recording ends. Displays as the reason.
#[derive(Clone, Copy, Debug, Error)]
pub enum RecordEnd {
    /// A write failed, by the number of the system's error.
    #[error("error {0} of the system")]
    Write(i32),
    #[error("out of memory")]
    Memory,
    #[error("a program is replaced")]
    Programs,
    #[error("the users are replaced")]
    Users,
    #[error("the secret is replaced")]
    Secrets,
    #[error("users are revoked")]
    Revoked,
    #[error("the clock was set")]
    Clock,
    /// It has as many whole lines as it may.
    #[error("it may have {0} bytes")]
    Length(u64),
}

/// A file of events, as lines.
#[derive(Drop)]
struct RecordFile<'a> {
    path: &'a str,
    file: File,
    /// The lines that are still to be written.
    lines: Vec<u8>,
    /// How many lines were added.
    count: u64,
    /// The bytes of those that were written.
    written: u64,
    /// The most bytes that the file may have.
    limit: u64,
    /// Why no more is recorded.
    end: Option<RecordEnd>,
}

/// The recording of a server, if there is one.
/// See docs/DECISIONS.md, "A recording has what is served".
#[derive(Drop)]
pub struct Recording<'a> {
    file: Option<RecordFile<'a>>,
}

impl From<io::Error> for RecordError {
    fn from(error: io::Error) -> RecordError {
        RecordError::System(SystemError::from(error))
    }
}

impl RecordFile<'_> {
    /// Takes the last line back, which begins at this byte, since no more is recorded.
    fn take_back(&mut self, line: usize, why: RecordEnd) {
        self.lines.truncate(line);
        self.end = Some(why);
    }

    /// Adds the line of an event. Where the file would be longer than it may be, no more is recorded.
    #[inline(never)]
    fn record(&mut self, event: &Event<'_>) {
        if self.end.is_some() {
            return;
        }
        let line = self.lines.len();
        if write_event(&mut Output::new(&mut self.lines), event).is_err() {
            self.take_back(line, RecordEnd::Memory);
        } else if self.lines.len() as u64 > self.limit.saturating_sub(self.written) {
            self.take_back(line, RecordEnd::Length(self.limit));
        } else {
            self.count = self.count.saturating_add(1);
        }
        if self.lines.len() > ROOM - LONGEST {
            self.write();
        }
    }

    /// Writes the lines to the file. Where that fails the file keeps the lines before them, and no more is recorded.
    fn write(&mut self) {
        match self.file.write_all(&self.lines) {
            Ok(()) => self.written = self.written.saturating_add(self.lines.len() as u64),
            Err(error) => {
                let _ = self.file.set_len(self.written);
                self.end = Some(RecordEnd::Write(error.raw_os_error().unwrap_or(0)));
            }
        }
        self.lines.clear();
    }

    /// Writes the lines to the file, if there are any, and returns why no more is recorded.
    fn flush(&mut self) -> Option<RecordEnd> {
        if !self.lines.is_empty() {
            self.write();
        }
        self.end
    }
}

/// Returns the most bytes that a file of this process may have, beside another limit.
fn file_limit(limit: u64) -> u64 {
    let mut of = rlimit {
        rlim_cur: limit,
        rlim_max: limit,
    };
    if getrlimit(RLIMIT_FSIZE, &mut of) == 0 {
        limit.min(of.rlim_cur)
    } else {
        limit
    }
}

impl<'a> Recording<'a> {
    /// Returns the recording of a server that records nothing.
    pub fn none() -> Recording<'a> {
        Recording { file: None }
    }

    /// Makes the file of a path, if one is given, for a recording, and takes its memory. It has at most `limit` bytes,
    /// and no more than a file of this process may have.
    ///
    /// # Errors
    /// Where the file is there already or can't be made, and where memory runs out.
    pub fn begin<R: Files<File = File> + AllocGlobal>(
        rt: &R,
        path: Option<&'a str>,
        limit: u64,
    ) -> Result<Recording<'a>, RecordError> {
        let Some(path) = path else {
            return Ok(Recording::none());
        };
        let Ok(lines) = Vec::with_capacity(rt.alloc(), ROOM) else {
            return Err(RecordError::Memory);
        };
        let mut options = OpenOptions::new();
        let file = options
            .write(true)
            .create_new(true)
            .mode(MODE)
            .open(rt, path)?;
        Ok(Recording {
            file: Some(RecordFile {
                path,
                file,
                lines,
                count: 0,
                written: 0,
                limit: file_limit(limit),
                end: None,
            }),
        })
    }

    /// Adds a nonce that was drawn.
    pub fn record_nonce(&mut self, nonce: &str) {
        if let Some(file) = &mut self.file {
            file.record(&Event::Nonce(nonce));
        }
    }

    /// Adds a datagram that has come.
    #[inline(always)]
    pub(crate) fn record(&mut self, meta: &Meta, datagram: &[u8]) {
        if let Some(file) = &mut self.file {
            let meta = *meta;
            file.record(&Event::Datagram {
                meta,
                bytes: datagram,
            });
        }
    }

    /// Returns the number of the line that was added last, from 1 on, if the recording hasn't ended.
    pub(crate) fn line(&self) -> Option<u64> {
        match &self.file {
            Some(file) if file.end.is_none() => Some(file.count),
            _ => None,
        }
    }

    /// Writes what was recorded to the file. Where a write has failed, memory ran out or the file is as long as it may
    /// be, the recording ends, which is reported.
    pub fn flush<E: Write>(&mut self, err: &mut E) {
        if let Some(file) = &mut self.file
            && let Some(why) = file.flush()
        {
            self.end(err, why);
        }
    }

    /// Ends the recording, if there is one, and reports why.
    pub fn end<E: Write>(&mut self, err: &mut E, why: RecordEnd) {
        if let Some(mut file) = mem::replace(&mut self.file, None) {
            let why = file.flush().unwrap_or(why);
            let _ = writeln!(err, "recording to {} ended: {why}", file.path);
        }
    }
}
