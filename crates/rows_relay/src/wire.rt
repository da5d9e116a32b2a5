//! A link in memory, of which a receive or a send fails. It stores its calls, so that what is proved of a turn by the
//! calls of its link holds of these runs.

ghost use Rattle.std.specs.Prelude.{◌≡◌, IfOk};

use attributes::Addr;
use basics::streams::Output;
use events::{Action, write_answer};
use semantics::MAX_DATAGRAM;
use server::{Link, LinkFault, Place};
use std::alloc::{AllocError, Global};

/// What happens to a datagram.
#[derive(Clone, Copy, Debug, PartialEq, Eq)]
pub enum Fate {
    /// It comes, and is answered.
    Served,
    /// It never comes: no receive is made.
    Lost,
    /// Its receive finds nothing.
    Late,
    /// Its receive fails.
    ReceiveFails,
    /// Its receive counts more bytes than a datagram may have.
    TooLong,
    /// The send of its answer fails.
    SendFails,
}

/// A call of a link, as it is stored.
#[derive(Drop)]
pub enum StoredCall {
    /// A receive, with the bytes that the buffer has afterwards.
    Received {
        endpoint: Place,
        buffer: Vec<u8>,
        answer: Result<Option<(usize, Addr)>, LinkFault>,
    },
    /// A send.
    Sent {
        endpoint: Place,
        to: Addr,
        bytes: Vec<u8>,
        answer: Result<(), LinkFault>,
    },
}

/// A link with one datagram, which stores its calls, and writes the line of what is sent to a log.
#[derive(Drop)]
pub struct StoringLink<'a> {
    alloc: Global,
    from: Addr,
    datagram: &'a [u8],
    fate: Fate,
    log: &'a mut Vec<u8>,
    /// The calls so far.
    entries: Vec<StoredCall>,
    /// Whether a call had no room among the entries.
    is_full: bool,
}

/// Copies bytes.
fn copied(alloc: Global, bytes: &[u8]) -> Result<Vec<u8>, AllocError>
    ensures { IfOk result (λ copy. copy.items ≡ bytes.now) }
{
    let mut copy = Vec::new(alloc);
    copy.extend_from_slice(bytes)?;
    Ok(copy)
}

impl<'a> StoringLink<'a> {
    /// Returns a link with a datagram, and an address that it comes from, which no call was made of.
    pub fn new(
        alloc: Global,
        from: Addr,
        datagram: &'a [u8],
        fate: Fate,
        log: &'a mut Vec<u8>,
    ) -> StoringLink<'a> {
        StoringLink {
            alloc,
            from,
            datagram,
            fate,
            log,
            entries: Vec::new(alloc),
            is_full: false,
        }
    }

    /// Returns whether each call is stored.
    pub fn stores_all(&self) -> bool {
        !self.is_full
    }
}

impl StoringLink<'_> {
    ghost use Rattle.std.specs.Prelude.{◌≡◌};

    /// Writes the datagram over the first bytes of a buffer, if it comes.
    fn take(&self, into: &mut [u8]) -> Result<Option<(usize, Addr)>, LinkFault> {
        match self.fate {
            Fate::Lost | Fate::Late => return Ok(None),
            Fate::TooLong => return Ok(Some((MAX_DATAGRAM + 1, self.from))),
            Fate::ReceiveFails => return Err(LinkFault),
            Fate::Served | Fate::SendFails => {}
        }
        let n = self.datagram.len();
        match into.get_mut(..n) {
            Some(room) => {
                room.copy_from_slice(self.datagram);
                Ok(Some((n, self.from)))
            }
            None => Err(LinkFault),
        }
    }

    /// Writes the line of what is sent, unless its send fails.
    fn write(&mut self, endpoint: Place, to: Addr, bytes: &[u8]) -> Result<(), LinkFault>
        ensures entries { self.new.entries ≡ self.old.entries }
        ensures is_full { self.new.is_full ≡ self.old.is_full }
    {
        if self.fate == Fate::SendFails {
            return Err(LinkFault);
        }
        let action = match endpoint {
            Place::Client => Action::ToClient { client: to, bytes },
            Place::Slot(slot) => Action::ToPeer {
                slot,
                peer: to,
                bytes,
            },
        };
        let mut output = Output::new(&mut *self.log);
        write_answer(&mut output, &action, b"\n").map_err(|_| LinkFault)
    }
}

impl Link for StoringLink<'_> {
    ghost use Rattle.rows_relay.specs.Stored.{calls_stored};

    ghost calls = { λ w. calls_stored w.is_full w.entries.items };

    fn receive(
        &mut self,
        endpoint: Place,
        into: &mut [u8],
    ) -> Result<Option<(usize, Addr)>, LinkFault> {
        let answer = self.take(into);
        let Ok(buffer) = copied(self.alloc, into) else {
            self.is_full = true;
            return answer;
        };
        let entry = StoredCall::Received {
            endpoint,
            buffer,
            answer,
        };
        self.is_full = self.is_full || self.entries.push(entry).is_err();
        answer
    }

    fn send(&mut self, endpoint: Place, to: Addr, bytes: &[u8]) -> Result<(), LinkFault> {
        let answer = self.write(endpoint, to, bytes);
        let Ok(bytes) = copied(self.alloc, bytes) else {
            self.is_full = true;
            return answer;
        };
        let entry = StoredCall::Sent {
            endpoint,
            to,
            bytes,
            answer,
        };
        self.is_full = self.is_full || self.entries.push(entry).is_err();
        answer
    }
}
