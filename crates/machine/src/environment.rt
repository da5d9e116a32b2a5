//! The environment of a trace.

ghost use Rattle.std.specs.Prelude.{◌≡◌, ◌≤◌};
ghost use Rattle.insn.specs.Encoding.{slot_count};
ghost use Rattle.insn.specs.declared.decoding.TheConstants.{MAX_SLOTS};
ghost use Rattle.semantics.specs.Machine.{context_bytes};
ghost use Rattle.semantics.specs.declared.limits.TheConstants.{MAX_DATAGRAM};
ghost use Rattle.machine.specs.Contexts.{context_of};

use crate::context::Context;
use insn::Insn;
use semantics::CONTEXT_BYTES;

/// What a trace is given and does not change: its code, the context with its record, the helpers, and the datagram's
/// length.
#[derive(Drop)]
pub(crate) struct TraceInputs<'a, H> {
    pub code: &'a [Insn],
    pub context: &'a Context,
    pub record: &'a [u8; CONTEXT_BYTES],
    pub helpers: &'a H,
    pub length: usize,
    ghost few: { slot_count code.now ≤ MAX_SLOTS },
    ghost is_record: { record.now ≡ context_bytes (context_of context.now) length },
    ghost short: { length ≤ MAX_DATAGRAM },
}
