//! The context of a run, what a program may read about the current datagram, and its record.

ghost use Rattle.std.specs.Prelude.{◌≡◌, ◌≤◌, ◌<◌, ◌++◌, All, length, drop};
ghost use Rattle.semantics.specs.Access.{overlay};
ghost use Rattle.semantics.specs.Machine.{AreBytes, IsContext, context_bytes};
ghost use Rattle.semantics.specs.declared.limits.TheConstants.{STACK_BYTES, MAX_DATAGRAM};
ghost use Rattle.flat.specs.Forms.{narrow_bytes, wide_bytes};
ghost use Rattle.flat.specs.declared.layout.TheConstants.{AREA_BYTES, HEADROOM_INDEX, POINTERS_BYTES};
ghost use Rattle.flat.specs.Layout.{pointers};
ghost use Rattle.semantics.specs.Records.{address_record, wide_record};
ghost use Rattle.machine.specs.Contexts.{context_of, side_number};

use crate::frame::write_zeros;
use addresses::{Addr, law_is_address};
use flat::{POINTERS_BYTES, Record, context_record, lay_out};
use semantics::{CONTEXT_BYTES, address_record, wide_record};

/// The side that a datagram came from: a client, or a peer of a relayed address.
#[derive(Clone, Copy, Debug, PartialEq, Eq)]
pub enum Side {
    Client,
    Peer,
}

/// The side and the source of a datagram, and the transaction id for an indication about it.
#[derive(Clone, Copy, Debug, PartialEq, Eq)]
pub struct Context {
    pub side: Side,
    pub source: Addr,
    /// The transaction id that was drawn for the datagram.
    pub tx: [u8; 12],
}

/// States that each item of a `[u8]` is below 256.
fn law_bytes(bytes: &[u8])
    ensures { All (λ b. b < 256) bytes.now }
{}

/// States that an array of `N` bytes has `N` items, each below 256.
fn law_array<const N: usize>(bytes: &[u8; N])
    ensures { AreBytes N bytes.now }
{
    law_bytes(bytes);
}

/// States that every context has the sizes of the definitions' context.
pub(crate) fn law_context(context: &Context)
    ensures { IsContext (context_of context.now) }
{
    law_is_address(&context.source);
    law_array(&context.tx);
}

/// The numbers of the sides in the context record.
const SIDE_NUMBERS: [u32; 2] = [0, 1];

/// Returns the number of a side in the context record: 0 for a client, 1 for a peer. It is looked up, so that the
/// compiler doesn't know its upper bytes: where it does, a store of the number becomes stores of its parts.
pub(crate) fn side_number(side: Side) -> u32
    ensures { result ≡ side_number side }
{
    let index = match side {
        Side::Client => 0,
        Side::Peer => 1,
    };
    SIDE_NUMBERS[index]
}

/// Returns the address record of a source: that of IPv4, or a wide one.
fn source_record(source: &Addr) -> Record
    ensures narrow { narrow_bytes result ≡ address_record source.now }
    ensures wide { wide_bytes result ≡ wide_record source.now }
{
    match source {
        Addr::V4 { .. } => Record::Narrow(address_record(source)),
        Addr::V6 { .. } => Record::Wide(wide_record(source)),
    }
}

/// Writes the context record of a datagram of `size` bytes to its place in an area.
#[inline(always)]
pub(crate) fn lay_out_context(area: &mut [u8], context: &Context, size: usize)
    requires long { length area.old ≡ AREA_BYTES }
    requires short { size ≤ MAX_DATAGRAM }
    ensures { area.new ≡ overlay STACK_BYTES (pointers size
        ++ drop POINTERS_BYTES (context_bytes (context_of context.now) size)) area.old }
{
    let source = source_record(&context.source);
    lay_out(area, size, &source, &context.tx, side_number(context.side));
}

/// Writes the context record of a datagram of `size` bytes to its place in an area, and returns it as a trace reads it:
/// with zeros in place of the pointers.
pub(crate) fn traced_record(area: &mut [u8], context: &Context, size: usize) -> [u8; CONTEXT_BYTES]
    requires long { length area.old ≡ AREA_BYTES }
    requires short { size ≤ MAX_DATAGRAM }
    ensures record { result ≡ context_bytes (context_of context.now) size }
    ensures after { drop HEADROOM_INDEX area.new ≡ drop HEADROOM_INDEX area.old }
{
    law_context(context);
    lay_out_context(area, context, size);
    let mut bytes = context_record(area);
    write_zeros(&mut bytes, 0, POINTERS_BYTES);
    bytes
}
