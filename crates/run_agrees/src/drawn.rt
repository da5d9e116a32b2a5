//! Helpers whose answers are drawn.

ghost use Rattle.std.specs.Prelude.{◌≡◌};
ghost use Rattle.run_agrees.specs.Drawn.{drawn_record, drawn_answer};
ghost use Rattle.run_agrees.specs.laws.Drawn.{drawn_is_lawful};

use crate::random::Random;
use machine::Helpers;

/// The record of a peer that is drawn.
#[derive(Clone, Copy, Debug)]
pub enum Peer {
    /// That of an IPv4 address.
    Ipv4,
    /// That of an IPv6 address.
    Ipv6,
    /// None that is valid among wide records: of the family IPv4, without zeros after the address.
    Neither,
}

impl Peer {
    ghost use Rattle.std.specs.Prelude.{◌≡◌};
    ghost use Rattle.run_agrees.specs.Drawn.{drawn_record};

    /// Draws a record.
    fn new(random: &mut Random) -> Peer {
        match random.below(3) {
            0 => Peer::Ipv4,
            1 => Peer::Ipv6,
            _ => Peer::Neither,
        }
    }

    /// Returns the bytes of the record, of which helper 1 uses the first eight.
    fn record(self) -> [u8; 20]
        ensures { result ≡ drawn_record self }
    {
        match self {
            Peer::Ipv4 => [
                0, 1, 0x17, 0x70, 203, 0, 113, 9, 0, 0, 0, 0, 0, 0, 0, 0, 0, 0, 0, 0,
            ],
            Peer::Ipv6 => [
                0, 2, 0x17, 0x70, 0x20, 1, 0x0d, 0xb8, 0, 0, 0, 0, 0, 0, 0, 0, 0, 0, 0, 9,
            ],
            Peer::Neither => [0, 1, 9, 9, 9, 9, 9, 9, 9, 9, 9, 9, 9, 9, 9, 9, 9, 9, 9, 9],
        }
    }
}

/// Helpers that answer the same to every question, as it was drawn before the run.
#[derive(Clone, Copy, Debug)]
pub struct Drawn {
    /// Whether a channel has a peer, and an address a permission.
    found: bool,
    /// The record of the peer.
    peer: Peer,
    /// The number of each channel, before it is reduced below 0x5000; 0 where there is none.
    channel: u64,
}

impl Drawn {
    /// Draws the answers.
    pub fn new(random: &mut Random) -> Drawn {
        Drawn {
            found: random.below(2) == 0,
            peer: Peer::new(random),
            channel: u64::from(random.below(0x5000)),
        }
    }
}

impl Helpers for Drawn {
    ghost answers = { λ h. drawn_answer h.found h.peer h.channel };

    ghost lawful = { λ h. drawn_is_lawful h.found h.peer h.channel };

    fn answer(&self, id: u8, _number: u64, _address: [u8; 20]) -> (u64, [u8; 20]) {
        if id == 2 || id == 7 {
            (self.channel % 0x5000, [0; 20])
        } else if !self.found {
            (0, [0; 20])
        } else if id == 1 || id == 6 {
            (1, self.peer.record())
        } else {
            (1, [0; 20])
        }
    }
}
