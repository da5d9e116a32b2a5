//! Links: what datagrams come from and go to.

ghost use Rattle.std.specs.Prelude.{◌≡◌, List, Option, None, [], ◌∷◌};
ghost use Rattle.server.specs.Calls.{Call, Received, Sent, HasReported};

use attributes::Addr;

/// Where a datagram comes in, and goes out.
#[derive(Clone, Copy, Debug, PartialEq, Eq)]
pub enum Place {
    /// The relay's own address, which clients send to.
    Client,
    /// The relayed address of a slot, which peers send to.
    Slot(usize),
}

/// A receive or a send that failed.
#[derive(Clone, Copy, Debug, PartialEq, Eq)]
pub struct LinkFault;

/// What datagrams come from and go to, as the sockets of a server.
pub trait Link {
    /// The calls so far, of a link that reports them; `None` of one that doesn't, or that has stopped for good.
    ghost calls: { Self → Option (List Call) } = { λ _. None };

    /// Receives a datagram at an endpoint, if one has come: its length and the address that it came from. Its bytes are
    /// written over the first of `into`.
    ///
    /// # Errors
    /// Where the receive fails.
    fn receive(
        &mut self,
        endpoint: Place,
        into: &mut [u8],
    ) -> Result<Option<(usize, Addr)>, LinkFault>
        ensures { HasReported (calls self.old) (calls self.new) (Received endpoint into.new result ∷ []) };

    /// Sends a datagram from an endpoint to an address.
    ///
    /// # Errors
    /// Where the send fails: the datagram wasn't sent whole.
    fn send(&mut self, endpoint: Place, to: Addr, bytes: &[u8]) -> Result<(), LinkFault>
        ensures { HasReported (calls self.old) (calls self.new) (Sent endpoint to bytes.now result ∷ []) };
}
