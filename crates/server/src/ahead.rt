//! Datagrams that are received ahead: several in a row, before the first of them is served.

ghost use Rattle.std.specs.Prelude.{◌≡◌, ◌≢◌, ◌≤◌, ◌+◌, [], ◌∷◌, take, drop, length, IfOk, true, false};
ghost use Rattle.server.specs.Calls.{Received, HasReported};
ghost use Rattle.server.specs.Ahead.{Datagram, IsHandedOn, HasTaken, HasFilled};
ghost use Rattle.server.specs.Filling.{HasReceivedOne};

use crate::link::{Link, LinkFault, Place};
use attributes::Addr;
use semantics::MAX_DATAGRAM;
use std::alloc::{AllocError, Global};
use std::marker::Model;
use std::mem;

/// How many datagrams are received ahead at most, and how many an endpoint may have before the others get their turn.
pub const TURNS: usize = 64;

/// The room for what is received ahead: one datagram of the greatest length, and 64 of 2,048 bytes, which are longer
/// than a frame of Ethernet.
pub const ROOM: usize = MAX_DATAGRAM + TURNS * 2_048;

/// The length and the source of a datagram, or nothing where none has come.
pub type Receipt = Option<(usize, Addr)>;

/// What comes after the datagrams that were received ahead.
#[derive(Clone, Copy)]
pub(crate) enum BatchEnd {
    /// Another receive is to be made.
    Receive,
    /// Nothing more has come.
    Nothing,
    /// A receive failed.
    Fault,
}

/// Where a datagram is stored, and where it came from.
#[derive(Clone, Copy)]
pub(crate) struct Stored {
    pub(crate) start: usize,
    pub(crate) n: usize,
    pub(crate) from: Addr,
}

/// What was received ahead at an endpoint, in order, until it is passed on. The model is the list of what waits.
#[derive(Drop)]
pub struct Ahead {
    /// The bytes of all datagrams, one after the other.
    bytes: Vec<u8>,
    datagrams: Vec<Stored>,
    then: BatchEnd,
    /// How many datagrams have been passed on.
    count: usize,
    /// Where the bytes of the datagrams end.
    end: usize,
}

impl Model for Ahead {
    ghost use Rattle.std.specs.Prelude.{List};
    ghost use Rattle.server.specs.Ahead.{Waiting};

    ghost Value = { List Waiting };

    ghost use Rattle.std.specs.Prelude.{length, vec_capacity};
    ghost use Rattle.server.specs.Filling.{waiting_in, IsAhead};

    ghost view = { λ a. waiting_in a.bytes.items a.datagrams.items a.count a.then };

    ghost invariant = { λ a. IsAhead (length a.bytes.items)
        (vec_capacity a.datagrams) a.datagrams.items a.count a.end };
}

/// Receives a datagram at an endpoint, if one has come, and writes its bytes into room for the longest one, from a
/// start on.
#[inline(always)]
fn receive_at<L: Link>(
    link: &mut L,
    endpoint: Place,
    bytes: &mut [u8],
    start: usize,
) -> Result<Receipt, LinkFault>
    requires { start + MAX_DATAGRAM ≤ length bytes.old }
    ensures front { take start bytes.new ≡ take start bytes.old }
    ensures reported { HasReported (L.calls link.old) (L.calls link.new)
        (Received endpoint (take MAX_DATAGRAM (drop start bytes.new)) result ∷ []) }
{
    link.receive(endpoint, &mut bytes[start..start + MAX_DATAGRAM])
}

/// Hands a datagram on: writes its bytes over the first of `into`.
///
/// # Errors
/// Where it is longer than `into`, which stays as it is.
#[inline(always)]
fn copy_to(bytes: &[u8], from: Addr, into: &mut [u8]) -> Result<Receipt, LinkFault>
    ensures { IsHandedOn (Datagram bytes.now from) into.old into.new result }
{
    let n = bytes.len();
    if n > into.len() {
        return Err(LinkFault);
    }
    into[..n].copy_from_slice(bytes);
    Ok(Some((n, from)))
}

impl Ahead {
    /// Takes the memory for what is received ahead. Nothing waits at first.
    ///
    /// # Errors
    /// Where memory runs out.
    pub fn new(alloc: Global) -> Result<Ahead, AllocError>
        ensures { IfOk result (λ a. a ≡ []) }
    {
        let bytes = vec![in alloc; 0u8; ROOM]?;
        let datagrams = Vec::with_capacity(alloc, TURNS)?;
        Ok(Ahead {
            bytes,
            datagrams,
            then: BatchEnd::Receive,
            count: 0,
            end: 0,
        })
    }

    /// Returns whether nothing waits.
    fn is_empty(&self) -> bool
        ensures nothing { result ≡ true → self.now ≡ [] }
        ensures something { result ≡ false → self.now ≢ [] }
    {
        if self.count < self.datagrams.len() {
            return false;
        }
        match self.then {
            BatchEnd::Receive => true,
            BatchEnd::Nothing => false,
            BatchEnd::Fault => false,
        }
    }

    /// Drops what waits.
    fn clear(&mut self)
        ensures { self.new ≡ [] }
    {
        self.datagrams.clear();
        self.then = BatchEnd::Receive;
        self.count = 0;
        self.end = 0;
    }

    /// Makes one more receive at an endpoint, if another one is to be made and there is room. Returns whether a
    /// datagram came.
    fn receive_one<L: Link>(&mut self, link: &mut L, endpoint: Place) -> bool
        ensures one { HasReceivedOne endpoint (L.calls link.old) (L.calls link.new) self.old self.new result }
        ensures more { length self.new ≤ length self.old + 1 }
    {
        let BatchEnd::Receive = self.then else {
            return false;
        };
        let start = self.end;
        if self.datagrams.len() >= TURNS || self.bytes.len() - start < MAX_DATAGRAM {
            return false;
        }
        match receive_at(link, endpoint, self.bytes.as_mut_slice(), start) {
            Ok(Some((n, from))) if n <= MAX_DATAGRAM => {
                let _ = self.datagrams.push(Stored { start, n, from });
                self.end = start + n;
                true
            }
            Ok(None) => {
                self.then = BatchEnd::Nothing;
                false
            }
            _ => {
                self.then = BatchEnd::Fault;
                false
            }
        }
    }

    /// Receives at an endpoint until nothing comes, a receive fails, or there is no room for another datagram. Where
    /// something waits already, no receive is made.
    pub fn fill<L: Link>(&mut self, link: &mut L, endpoint: Place)
        ensures filled { HasFilled endpoint (L.calls link.old) (L.calls link.new) self.old self.new }
        ensures few { self.old ≡ [] → length self.new ≤ 64 }
    {
        if !self.is_empty() {
            return;
        }
        self.clear();
        for _ in 0..TURNS {
            if !self.receive_one(link, endpoint) {
                return;
            }
        }
    }

    /// Receives a datagram, if one has come: the first one that waits, or, where nothing waits, one of the link at an
    /// endpoint. Its bytes are written over the first of `into`.
    ///
    /// # Errors
    /// Where a receive failed, or the datagram that waits is longer than `into`.
    #[inline(always)]
    pub fn receive<L: Link>(
        &mut self,
        link: &mut L,
        endpoint: Place,
        into: &mut [u8],
    ) -> Result<Receipt, LinkFault>
        ensures { HasTaken endpoint (L.calls link.old) (L.calls link.new) self.old self.new into.old into.new result }
    {
        if self.count < self.datagrams.len() {
            let Stored { start, n, from } = self.datagrams[self.count];
            self.count += 1;
            let end = start + n;
            return copy_to(&self.bytes[start..end], from, into);
        }
        match mem::replace(&mut self.then, BatchEnd::Receive) {
            BatchEnd::Receive => link.receive(endpoint, into),
            BatchEnd::Nothing => Ok(None),
            BatchEnd::Fault => Err(LinkFault),
        }
    }
}
