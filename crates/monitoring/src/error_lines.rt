//! Standard error of a running server, which never waits for its reader.

use libc::isatty;
use libc::net::{POLLOUT, poll};
use libc::types::pollfd;
use std::alloc::AllocError;
use std::fs::{File, OpenOptions};
use std::io::{self, Write};
use std::os::fd::AsRawFd;
use std::rt::Files;

/// The descriptor of standard error.
const STDERR: i32 = 2;

/// The path at which what standard error is open on is opened once more.
const PATH: &str = "/proc/self/fd/2";

/// The longest line: what a pipe that is ready takes whole, without waiting (PIPE_BUF of Linux).
const LONGEST: usize = 4_096;

/// Writes whole lines to standard error. A line for which there is no room is dropped, and one that is too long is cut.
/// See docs/DECISIONS.md, "A server doesn't wait for its log".
#[derive(Drop)]
pub struct ErrorLines<'a, E: Write> {
    err: &'a mut E,
    /// Where standard error is a terminal: the terminal, to which a write takes what it has room for, and never waits.
    terminal: Option<File>,
    /// What has been written of the next line.
    line: Vec<u8>,
    /// Whether the terminal has the first part of a line alone.
    is_cut: bool,
}

/// Returns whether standard error has room for the longest line.
fn has_room() -> bool {
    let mut fds = [pollfd {
        fd: STDERR,
        events: POLLOUT,
        revents: 0,
    }];
    poll(&mut fds, 0) > 0 && fds[0].revents & POLLOUT != 0
}

/// Opens standard error once more, where it is a terminal, so that a write to it never waits. What others have open
/// stays as it is.
fn terminal<R: Files<File = File>>(rt: &R) -> Option<File> {
    if isatty(STDERR) != 1 {
        return None;
    }
    let file = OpenOptions::new().write(true).open(rt, PATH).ok()?;
    if os::set_nonblocking(file.as_raw_fd(), true) == 0 {
        Some(file)
    } else {
        None
    }
}

impl<'a, E: Write> ErrorLines<'a, E> {
    /// Returns lines that go to `err`, which is standard error, and takes their memory.
    pub fn new<R: Files<File = File> + AllocGlobal>(
        rt: &R,
        err: &'a mut E,
    ) -> Result<ErrorLines<'a, E>, AllocError> {
        let line = Vec::with_capacity(rt.alloc(), LONGEST)?;
        let terminal = terminal(rt);
        Ok(ErrorLines {
            err,
            terminal,
            line,
            is_cut: false,
        })
    }

    /// Adds bytes to the line, as many as it has room for; there is always room for its line feed.
    fn add(&mut self, bytes: &[u8]) {
        if self.is_cut && self.line.is_empty() {
            let _ = self.line.push(b'\n');
        }
        for byte in bytes {
            if self.line.len() < LONGEST - 1 || *byte == b'\n' {
                let _ = self.line.push(*byte);
            }
        }
    }

    /// Writes the line, if there is room for it, or the part of it that a terminal has room for.
    fn end_line(&mut self) {
        if let Some(terminal) = &mut self.terminal {
            let count = terminal.write(&self.line).unwrap_or(0);
            self.is_cut = count < self.line.len() && (self.is_cut || count > 0);
        } else if has_room() {
            let _ = self.err.write_all(&self.line);
        }
        self.line.clear();
    }
}

impl<E: Write> Write for ErrorLines<'_, E> {
    fn write(&mut self, buf: &[u8]) -> io::Result<usize> {
        self.add(buf);
        if buf.last() == Some(&b'\n') {
            self.end_line();
        }
        Ok(buf.len())
    }

    fn flush(&mut self) -> io::Result<()> {
        Ok(())
    }
}
