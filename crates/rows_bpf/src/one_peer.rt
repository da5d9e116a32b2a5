//! Helpers that find a peer.

ghost use Rattle.std.specs.Prelude.{◌≡◌};
ghost use Rattle.rows_bpf.specs.OnePeer.{is_host, is_peer, one_peer};
ghost use Rattle.rows_bpf.specs.laws.OnePeer.{one_peer_is_lawful};

use machine::Helpers;

/// One peer, 192.0.2.7:5000, bound to the channel 0x4001, with a permission; and one of IPv6, port 5000 of 2001:db8::7,
/// bound to the channel 0x4002, which only a wide record has.
#[derive(Clone, Copy, Debug)]
pub struct OnePeer;

/// The wide record of the first one.
const PEER_RECORD: [u8; 20] = [
    0, 1, 0x13, 0x88, 192, 0, 2, 7, 0, 0, 0, 0, 0, 0, 0, 0, 0, 0, 0, 0,
];

/// The record of the other one.
const IPV6_RECORD: [u8; 20] = [
    0, 2, 0x13, 0x88, 0x20, 1, 0x0d, 0xb8, 0, 0, 0, 0, 0, 0, 0, 0, 0, 0, 0, 7,
];

/// Returns whether the address in a record is 192.0.2.7.
fn is_host(address: [u8; 20]) -> bool
    ensures { result ≡ is_host address }
{
    address[4] == 192 && address[5] == 0 && address[6] == 2 && address[7] == 7
}

/// Returns whether a record is that of 192.0.2.7:5000.
fn is_peer(address: [u8; 20]) -> bool
    ensures { result ≡ is_peer address }
{
    address[2] == 0x13 && address[3] == 0x88 && is_host(address)
}

impl Helpers for OnePeer {
    ghost answers = { λ h. one_peer };

    ghost lawful = { λ h. one_peer_is_lawful };

    fn answer(&self, id: u8, number: u64, address: [u8; 20]) -> (u64, [u8; 20]) {
        if (id == 1 || id == 6) && number == 0x4001 {
            (1, PEER_RECORD)
        } else if id == 6 && number == 0x4002 {
            (1, IPV6_RECORD)
        } else if (id == 2 || id == 7) && is_peer(address) {
            (0x4001, [0; 20])
        } else if (id == 3 || id == 8) && is_host(address) {
            (1, [0; 20])
        } else {
            (0, [0; 20])
        }
    }
}
