//! Datagrams that the system dropped since a socket's buffer was full, by its own counters.

use std::alloc::{AllocError, Global};
use std::io::Read;
use std::rt::Files;
use std::{fs, str};

/// The counters of IPv4: a line with the names of those of UDP, and then one with their values.
const COUNTERS: &str = "/proc/net/snmp";

/// What both lines begin with.
const UDP: &str = "Udp:";

/// The counter of datagrams that found no room in the buffer of their socket.
const DROPPED: &str = "RcvbufErrors";

/// The counters of IPv6, each with its value on a line of its own.
const COUNTERS6: &str = "/proc/net/snmp6";

/// The same counter for IPv6.
const DROPPED6: &str = "Udp6RcvbufErrors";

/// How many bytes of a file are read. Those of Linux have some 2,000 and 6,000, whatever sockets there are.
const ROOM: usize = 16_384;

/// The datagrams that the system dropped at full buffers, in the network namespace of the server and since it began.
/// See docs/DECISIONS.md, "What a server can count".
#[derive(Drop)]
pub(crate) struct Drops {
    /// What is read of a file.
    text: Vec<u8>,
    /// How many were dropped before the server began.
    before: u64,
    /// The counter of IPv4 when it was last read, if the system said.
    ipv4: Option<u64>,
    /// That of IPv6.
    ipv6: Option<u64>,
}

/// Returns the value of the counter of UDP in the text of the counters of IPv4.
fn dropped_in(text: &str) -> Option<u64> {
    let mut lines = text.lines();
    let names = lines.find(|line| line.starts_with(UDP))?;
    let values = lines.find(|line| line.starts_with(UDP))?;
    let index = names.split_whitespace().position(|name| name == DROPPED)?;
    values.split_whitespace().nth(index)?.parse().ok()
}

/// Returns the value of the counter in the text of the counters of IPv6.
fn dropped6_in(text: &str) -> Option<u64> {
    let line = text.lines().find(|line| line.starts_with(DROPPED6))?;
    line.split_whitespace().nth(1)?.parse().ok()
}

impl Drops {
    /// Takes the memory for the text of a file, and notes what was dropped so far.
    ///
    /// # Errors
    /// Where memory runs out.
    pub(crate) fn new<R: Files + AllocGlobal>(rt: &R) -> Result<Drops, AllocError> {
        let text = Vec::with_capacity(rt.alloc(), ROOM)?;
        let mut drops = Drops {
            text,
            before: 0,
            ipv4: None,
            ipv6: None,
        };
        drops.update(rt);
        drops.before = drops.last().unwrap_or(0);
        Ok(drops)
    }

    /// Reads a file as far as there is room. `None` where it can't be read, or is no text.
    fn read<R: Files>(&mut self, rt: &R, path: &str) -> Option<&str> {
        let mut file = fs::open(rt, path).ok()?;
        self.text.clear();
        let mut chunk = [0; 4_096];
        for _ in 0..ROOM {
            let n = file.read(&mut chunk).ok()?;
            let read = chunk.get(..n)?;
            if n == 0 || self.text.len() + n > ROOM {
                break;
            }
            let _ = self.text.extend_from_slice(read);
        }
        str::from_utf8(&self.text).ok()
    }

    /// Updates the counter of IPv4. It takes no memory, and its work doesn't depend on how many sockets there are.
    pub(crate) fn update_ipv4<R: Files>(&mut self, rt: &R) {
        let dropped = match self.read(rt, COUNTERS) {
            Some(text) => dropped_in(text),
            None => None,
        };
        self.ipv4 = dropped;
    }

    /// Updates the counter of IPv6, as [`Drops::update_ipv4`] does.
    pub(crate) fn update_ipv6<R: Files>(&mut self, rt: &R) {
        let dropped = match self.read(rt, COUNTERS6) {
            Some(text) => dropped6_in(text),
            None => None,
        };
        self.ipv6 = dropped;
    }

    /// Updates both counters.
    pub(crate) fn update<R: Files>(&mut self, rt: &R) {
        self.update_ipv4(rt);
        self.update_ipv6(rt);
    }

    /// Returns how many datagrams the system had dropped since the server began, when that was last read: those
    /// for any UDP socket of the network namespace whose buffer was full, of both families. `None` where the system
    /// didn't say.
    pub(crate) fn last(&self) -> Option<u64> {
        let all = self.ipv4?.saturating_add(self.ipv6.unwrap_or(0));
        Some(all.saturating_sub(self.before))
    }
}
