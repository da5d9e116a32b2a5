//! The frame of a run.

ghost use Rattle.std.specs.Prelude.{◌≡◌, ◌≤◌, ◌+◌, ◌++◌, None, length, take, drop, replicate, IfOk, All, ◌<◌};
ghost use Rattle.semantics.specs.Machine.{empty_stack, datagram_area};
ghost use Rattle.semantics.specs.declared.limits.TheConstants.{STACK_BYTES, HEADROOM, TAILROOM};
ghost use Rattle.flat.specs.declared.layout.TheConstants.{HEADROOM_INDEX};

use crate::context::{Context, Side, law_context};
use addresses::Addr;
use flat::{AREA_BYTES, HEADROOM_INDEX};
use semantics::{GROUPS, HEADROOM, MAX_DATAGRAM, STACK_BYTES, StackMemory, TAILROOM, Value};
use std::alloc::{AllocError, Global};
use std::marker::Model;

/// The memory of a run: one area of bytes, with the stack, the context record, and a datagram between headroom and
/// tailroom. Traced runs have a stack of their own, of which each byte is set or not. All of it is allocated once, by
/// [`Frame::new`].
#[derive(Drop)]
pub struct Frame {
    // first, since it is long and only traced runs use it: what every run reads and writes stands together after it
    pub(crate) stack: StackMemory,
    pub(crate) flat: Vec<u8>,
    pub(crate) length: usize,
    pub(crate) is_started: bool,
    pub(crate) context: Context,
    pub(crate) window: Option<(usize, usize)>,
}

impl Model for Frame {
    ghost use Rattle.std.specs.Prelude.{drop};
    ghost use Rattle.flat.specs.declared.layout.TheConstants.{HEADROOM_INDEX};
    ghost use Rattle.machine.specs.Contents.{Contents};
    ghost use Rattle.machine.specs.FrameFields.{IsFrame};

    ghost Value = { Contents };

    ghost view = { λ f. record {
      area = drop HEADROOM_INDEX f.flat.items;
      length = f.length;
      is_started = f.is_started;
      context = f.context;
      window = f.window;
    } };

    ghost invariant = { λ f. IsFrame f.flat.items f.stack f.length f.is_started f.window f.context };
}

/// The context of a frame that was never started.
const NO_CONTEXT: Context = Context {
    side: Side::Client,
    source: Addr::V4 {
        ip: [0; 4],
        port: 0,
    },
    tx: [0; 12],
};

fn zeros(alloc: Global, n: usize) -> Result<Vec<u8>, AllocError>
    ensures { IfOk result (λ v. v.items ≡ replicate n 0) }
{
    vec![in alloc; 0; n]
}

/// Returns a stack of which nothing is set.
#[tactic(auto, unfolding(semantics::specs::Machine::empty_cells, semantics::specs::Machine::no_pointers))]
fn empty_stack() -> StackMemory
    ensures { result ≡ empty_stack }
{
    StackMemory {
        cells: [None; STACK_BYTES],
        groups: [Value::Nothing; GROUPS],
    }
}

/// Clears a stack: nothing of it is set afterwards.
pub(crate) fn clear_stack(stack: &mut StackMemory)
    ensures { stack.new ≡ empty_stack }
{
    *stack = empty_stack();
}

/// Writes `n` zeros from an index on.
pub(crate) fn write_zeros(bytes: &mut [u8], from: usize, n: usize)
    requires { from + n ≤ length bytes.old }
    ensures { bytes.new ≡ take from bytes.old ++ replicate n 0 ++ drop (from + n) bytes.old }
{
    bytes[from..from + n].fill(0);
}

/// Writes headroom and tailroom round a datagram of `n` bytes.
fn surround(bytes: &mut [u8], n: usize)
    requires { HEADROOM + TAILROOM + n ≤ length bytes.old }
    ensures { bytes.new ≡ datagram_area (take n (drop HEADROOM bytes.old)) ++ drop (HEADROOM + TAILROOM + n) bytes.old }
{
    write_zeros(bytes, 0, HEADROOM);
    write_zeros(bytes, HEADROOM + n, TAILROOM);
}

/// Returns headroom, datagram and tailroom of an area.
fn from_headroom(flat: &[u8]) -> &[u8]
    requires { HEADROOM_INDEX ≤ length flat.now }
    ensures { result.now ≡ drop HEADROOM_INDEX flat.now }
{
    let (_, bytes) = flat.split_at(HEADROOM_INDEX);
    bytes
}

/// Writes headroom and tailroom round a datagram of `n` bytes, in an area.
fn surround_in(flat: &mut [u8], n: usize)
    requires { HEADROOM_INDEX + (HEADROOM + TAILROOM + n) ≤ length flat.old }
    ensures { drop HEADROOM_INDEX flat.new ≡ datagram_area (take n (drop HEADROOM (drop HEADROOM_INDEX flat.old)))
        ++ drop (HEADROOM + TAILROOM + n) (drop HEADROOM_INDEX flat.old) }
{
    surround(&mut flat[HEADROOM_INDEX..], n);
}

/// Returns the datagram of `n` bytes in an area.
fn datagram_in(area: &[u8], n: usize) -> &[u8]
    requires { HEADROOM + n ≤ length area.now }
    ensures bytes { result.now ≡ take n (drop HEADROOM area.now) }
    ensures fit { All (λ b. b < 256) result.now }
{
    let (_, bytes) = area.split_at(HEADROOM);
    let (datagram, _) = bytes.split_at(n);
    datagram
}

impl Frame {
    ghost use Rattle.std.specs.Prelude.{◌≡◌, ◌≤◌, false, None, length, IfOk, option_map, option_copied};
    ghost use Rattle.semantics.specs.Runs.{IsDatagram};
    ghost use Rattle.semantics.specs.declared.limits.TheConstants.{MAX_DATAGRAM};
    ghost use Rattle.std.specs.Borrow.{sem};
    ghost use Rattle.machine.specs.Contents.{room_of, datagram_of, window_of, IsNew, IsStartedOver};
    ghost use Rattle.machine.specs.Lends.{lends_room};

    /// Allocates a frame with room for the longest datagram: its area is zeros and its datagram empty, and it is not
    /// started.
    ///
    /// # Errors
    /// Where memory runs out.
    pub fn new(alloc: Global) -> Result<Frame, AllocError>
        ensures { IfOk result IsNew }
    {
        law_context(&NO_CONTEXT);
        Ok(Frame {
            flat: zeros(alloc, AREA_BYTES)?,
            stack: empty_stack(),
            length: 0,
            is_started: false,
            context: NO_CONTEXT,
            window: None,
        })
    }

    /// Returns the room for a datagram, 65,507 bytes, to be written. Afterwards the frame is not started, and nothing
    /// else of it changes.
    /// See docs/DESIGN.md, "The room of a frame".
    #[tactic(auto, using(crate::proofs::Frames::frame_written, crate::proofs::Frames::written_after))]
    pub fn area(&mut self) -> &mut [u8]
        ensures value { result.now ≡ room_of self.old }
        ensures len { length result.now ≡ MAX_DATAGRAM }
        ensures* writes_back { sem 𝓛 (lends_room self.entry result) }
    {
        self.is_started = false;
        let start = HEADROOM_INDEX + HEADROOM;
        self.flat.slice_mut(start..start + MAX_DATAGRAM)
    }

    /// Returns the room for a datagram, 65,507 bytes, as it is.
    pub fn room(&self) -> &[u8]
        ensures value { result.now ≡ room_of self.now }
        ensures len { length (room_of self.now) ≡ MAX_DATAGRAM }
    {
        datagram_in(from_headroom(&self.flat), MAX_DATAGRAM)
    }

    /// States that the room for a datagram has 65,507 bytes.
    pub fn law_room(&self)
        ensures { length (room_of self.now) ≡ MAX_DATAGRAM }
    {
        let _ = self.room();
    }

    /// Returns whether the frame is started, so that a run may begin.
    pub fn started(&self) -> bool
        ensures { result ≡ self.now.is_started }
    {
        self.is_started
    }

    /// Returns the datagram, as the last run left it: at most 65,507 bytes.
    pub fn datagram(&self) -> &[u8]
        ensures bytes { result.now ≡ datagram_of self.now }
        ensures short { IsDatagram (datagram_of self.now) }
        ensures length { length (datagram_of self.now) ≡ self.now.length }
    {
        datagram_in(from_headroom(&self.flat), self.length)
    }

    /// Returns the bytes of the window that the last run set, `None` where it set none.
    pub fn window(&self) -> Option<&[u8]>
        ensures { option_copied result ≡ option_map (λ w. window_of self.now w) self.now.window }
    {
        match self.window {
            None => None,
            Some((front, length)) => {
                let (_, bytes) = from_headroom(&self.flat).split_at(front);
                let (window, _) = bytes.split_at(length);
                Some(window)
            }
        }
    }

    /// Starts a run with a context: the first `n` bytes of the room become the datagram, with zeros round it. Nothing
    /// else is cleared: a run reads no byte of the stack that it has not written.
    pub fn start(&mut self, context: &Context, n: usize)
        requires { n ≤ MAX_DATAGRAM }
        ensures { IsStartedOver self.old self.new context.now n }
    {
        law_context(context);
        surround_in(&mut self.flat, n);
        self.length = n;
        // part by part: one load of the whole would wait for the narrower stores of the caller
        let Context { side, source, tx } = *context;
        self.context = Context { side, source, tx };
        self.window = None;
        self.is_started = true;
    }
}
