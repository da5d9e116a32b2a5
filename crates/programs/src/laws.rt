//! What the shipped programs promise.

ghost use Rattle.std.specs.Prelude.{◌≡◌, ℕ, List, true};
ghost use Rattle.insn.specs.Encoding.{Encodes};
ghost use Rattle.insn.specs.declared.instruction.Insn.{Insn};
ghost use Rattle.semantics.specs.Runs.{IsDatagram, IsSafe};
ghost use Rattle.stun.specs.Datagrams.{message_in};
ghost use Rattle.stun.specs.Messages.{Parts};
ghost use Rattle.addresses.specs.declared.address.Addr.{Addr};
ghost use Rattle.tables.specs.Rows.{Rows};
ghost use Rattle.rules.specs.FastPart.{is_plain_send};
ghost use Rattle.programs.specs.PlainSends.{PassesTests};
ghost use Rattle.programs.specs.Relaying.{IsRelayStart, ServesClient, ServesPeer};
ghost use Rattle.programs.specs.declared.client.TheConstants.{CLIENT};
ghost use Rattle.programs.specs.declared.peer.TheConstants.{PEER};

use insn::law_bytes_encode_one_program;
use stun::law_message_in_has_the_parts;

/// States what [`CLIENT`](crate::CLIENT) promises: where it is safe, as the verifier finds, it relays a client's
/// ChannelData, and Send indications of an IPv4 address and data, by itself, as the rules say, passes on what else
/// begins as a STUN message does, and sends nothing for any other datagram.
pub fn law_client_serves()
    ensures { (code : List Insn) → Encodes code CLIENT.now → IsSafe code
        → (client : Addr) (tx : List ℕ) (rows : Rows) (datagram : List ℕ)
        → IsRelayStart client tx rows datagram → ServesClient code tx client rows datagram }
{
    law_bytes_encode_one_program();
    law_message_in_has_the_parts();
}

/// States that what [`CLIENT`](crate::CLIENT) tests of a datagram, number by number, holds of exactly those datagrams
/// whose message is a Send indication of an IPv4 address and data.
pub fn law_client_tests_plain_sends()
    ensures only { (datagram : List ℕ) → IsDatagram datagram
        → (p : Parts) → message_in datagram ≡ Some p → is_plain_send p ≡ true → PassesTests datagram }
    ensures every { (datagram : List ℕ) → IsDatagram datagram → PassesTests datagram
        → (p : Parts) × (message_in datagram ≡ Some p) × (is_plain_send p ≡ true) }
{
    law_message_in_has_the_parts();
}

/// States what [`PEER`](crate::PEER) promises: where it is safe, as the verifier finds, it relays each datagram of a
/// peer by itself, as the rules say.
pub fn law_peer_serves()
    ensures { (code : List Insn) → Encodes code PEER.now → IsSafe code
        → (slot : ℕ) (peer : Addr) (tx : List ℕ) (rows : Rows) (datagram : List ℕ)
        → IsRelayStart peer tx rows datagram → ServesPeer code tx slot peer rows datagram }
{
    law_bytes_encode_one_program();
}
