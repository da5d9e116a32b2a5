//! The helpers that a program may call.

ghost use Rattle.std.specs.Prelude.{◌≡◌, ◌≤◌, ◌+◌, ◌==◌, IfSome, length};
ghost use Rattle.std.specs.List.{list_all};
ghost use Rattle.semantics.specs.Access.{cells_bytes};
ghost use Rattle.semantics.specs.Calls.{record_bytes, widened, has_valid_family, is_valid, helper_number, helper_of, signature_of, stack_index, window_within, destination_at};
ghost use Rattle.semantics.specs.declared.helper.RecordForm.TheVariants.{Narrow, Wide};
ghost use Rattle.semantics.specs.declared.limits.TheConstants.{STACK_BYTES, MAX_DATAGRAM};

use crate::access::index_in_stack;
use crate::limits::{HEADROOM, MAX_CHANNEL, MAX_DATAGRAM, TAILROOM};
use crate::value::Value;

/// The number of bytes of an address record of IPv4.
pub const RECORD_BYTES: usize = 8;

/// The number of bytes of a wide address record, which has an address of either family.
pub const WIDE_RECORD_BYTES: usize = 20;

/// The form of the address records that a helper reads or writes.
/// See docs/DECISIONS.md, "Wide records and narrow ones".
#[derive(Clone, Copy, Debug, PartialEq, Eq)]
pub enum RecordForm {
    /// Of IPv4 alone.
    Narrow,
    /// Of either family.
    Wide,
}

impl RecordForm {
    ghost use Rattle.std.specs.Prelude.{◌≡◌};
    ghost use Rattle.semantics.specs.Calls.{record_bytes};

    /// Returns the number of bytes of such a record.
    pub fn bytes(self) -> usize
        ensures { result ≡ record_bytes self }
    {
        match self {
            RecordForm::Narrow => RECORD_BYTES,
            RecordForm::Wide => WIDE_RECORD_BYTES,
        }
    }
}

/// A helper, and the form of its address records. The first three look up channels and permissions; the others act on
/// the plan.
#[derive(Clone, Copy, Debug, PartialEq, Eq)]
pub enum Helper {
    /// The peer that a channel is bound to.
    ChannelPeer(RecordForm),
    /// The channel that is bound to a peer.
    ChannelTo(RecordForm),
    /// Whether an address has a permission.
    Permitted(RecordForm),
    /// Sets the window, the bytes that are to be sent.
    Window,
    /// Sets the destination, where the window is to be sent.
    Destination(RecordForm),
}

/// What a helper takes in an argument.
#[derive(Clone, Copy, Debug, PartialEq, Eq)]
pub enum Argument {
    /// The helper has no such argument.
    Unused,
    /// The context record.
    Context,
    /// A number.
    Number,
    /// A pointer to an address record in the stack, which the helper reads.
    RecordIn(RecordForm),
    /// A pointer to room for an address record in the stack, which the helper writes.
    RecordOut(RecordForm),
}

/// The arguments of a helper, of which the first is in `r1`, and its greatest answer.
#[derive(Clone, Copy, Debug, PartialEq, Eq)]
pub struct Signature {
    pub arguments: [Argument; 5],
    pub greatest: u64,
}

impl Helper {
    ghost use Rattle.std.specs.Prelude.{◌≡◌};
    ghost use Rattle.semantics.specs.Calls.{helper_number, helper_of, signature_of};

    /// Returns the arguments and the greatest answer of the helper.
    pub fn signature(self) -> Signature
        ensures { result ≡ signature_of self }
    {
        let (arguments, greatest) = match self {
            Helper::ChannelPeer(form) => (
                [
                    Argument::Context,
                    Argument::Number,
                    Argument::RecordOut(form),
                    Argument::Unused,
                    Argument::Unused,
                ],
                1,
            ),
            Helper::ChannelTo(form) => (
                [
                    Argument::Context,
                    Argument::RecordIn(form),
                    Argument::Unused,
                    Argument::Unused,
                    Argument::Unused,
                ],
                MAX_CHANNEL,
            ),
            Helper::Permitted(form) | Helper::Destination(form) => (
                [
                    Argument::Context,
                    Argument::RecordIn(form),
                    Argument::Unused,
                    Argument::Unused,
                    Argument::Unused,
                ],
                1,
            ),
            Helper::Window => (
                [
                    Argument::Context,
                    Argument::Number,
                    Argument::Number,
                    Argument::Unused,
                    Argument::Unused,
                ],
                1,
            ),
        };
        Signature {
            arguments,
            greatest,
        }
    }

    /// Returns the number of the helper.
    pub fn number(self) -> u8
        ensures { result ≡ helper_number self }
    {
        match self {
            Helper::ChannelPeer(RecordForm::Narrow) => 1,
            Helper::ChannelTo(RecordForm::Narrow) => 2,
            Helper::Permitted(RecordForm::Narrow) => 3,
            Helper::Window => 4,
            Helper::Destination(RecordForm::Narrow) => 5,
            Helper::ChannelPeer(RecordForm::Wide) => 6,
            Helper::ChannelTo(RecordForm::Wide) => 7,
            Helper::Permitted(RecordForm::Wide) => 8,
            Helper::Destination(RecordForm::Wide) => 9,
        }
    }

    /// Returns the helper of a number, `None` where there is none.
    pub fn from_number(number: i32) -> Option<Helper>
        ensures { result ≡ helper_of number }
    {
        match number {
            1 => Some(Helper::ChannelPeer(RecordForm::Narrow)),
            2 => Some(Helper::ChannelTo(RecordForm::Narrow)),
            3 => Some(Helper::Permitted(RecordForm::Narrow)),
            4 => Some(Helper::Window),
            5 => Some(Helper::Destination(RecordForm::Narrow)),
            6 => Some(Helper::ChannelPeer(RecordForm::Wide)),
            7 => Some(Helper::ChannelTo(RecordForm::Wide)),
            8 => Some(Helper::Permitted(RecordForm::Wide)),
            9 => Some(Helper::Destination(RecordForm::Wide)),
            _ => None,
        }
    }
}

/// Room for an address record in the stack: the index, among its cells, of the first byte, and the record's form.
#[derive(Clone, Copy, Debug, PartialEq, Eq)]
pub struct Room {
    pub index: u16,
    pub form: RecordForm,
}

/// A question to the helpers that look up: the helper's number, a number, and a wide address record.
#[derive(Clone, Copy, Debug, PartialEq, Eq)]
pub struct Question {
    pub helper: u8,
    pub number: u64,
    pub address: [u8; WIDE_RECORD_BYTES],
}

/// What the arguments of a call give to its helper.
#[derive(Clone, Copy, Debug, PartialEq, Eq)]
pub struct Inputs {
    /// The number before the last one.
    pub former: u64,
    /// The last number.
    pub number: u64,
    /// The address record that is read, as a wide one.
    pub address: [u8; WIDE_RECORD_BYTES],
    /// Where a record is written.
    pub out: Option<Room>,
}

/// Returns the index, among the stack cells, of the `n` bytes that a pointer points to, or `None` where they don't lie
/// in the stack.
#[tactic(auto, using(crate::specs::laws::Access::index_short))]
pub(crate) fn stack_index(pointer: Value, n: usize) -> Option<usize>
    requires { n ≤ STACK_BYTES }
    ensures index { result ≡ stack_index n pointer }
    ensures inside { IfSome result (λ i. i + n ≤ STACK_BYTES) }
{
    match pointer {
        Value::Stack(k) => index_in_stack(k, 0, n),
        _ => None,
    }
}

/// Returns the bytes of `N` stack cells, or `None` where one is uninitialised.
pub(crate) fn bytes_of_cells<const N: usize>(cells: &[Option<u8>]) -> Option<[u8; N]>
    requires { length cells.now ≡ N }
    ensures { result ≡ cells_bytes cells.now }
{
    let mut bytes = [0; N];
    for i in 0..N {
        bytes[i] = cells[i]?;
    }
    Some(bytes)
}

/// Returns a record of IPv4 as a wide one.
pub fn widened(narrow: &[u8; RECORD_BYTES]) -> [u8; WIDE_RECORD_BYTES]
    ensures { result ≡ widened Narrow narrow.now }
{
    let mut bytes = [0; WIDE_RECORD_BYTES];
    bytes[..RECORD_BYTES].copy_from_slice(narrow);
    bytes
}

/// Returns whether a wide record is that of an address, of a form: whether it begins with 0 and the family 1, which are
/// followed by zeros after the port and the address; or, if the form is wide, with 0 and the family 2.
pub fn is_valid(form: RecordForm, address: &[u8; WIDE_RECORD_BYTES]) -> bool
    ensures { result ≡ is_valid form address.now }
{
    address[0] == 0 && has_valid_family(form, address)
}

/// Returns whether a wide record is of a family that a form has: of IPv4, followed by zeros after the address, or, if
/// the form is wide, of IPv6.
fn has_valid_family(form: RecordForm, address: &[u8; WIDE_RECORD_BYTES]) -> bool
    ensures { result ≡ has_valid_family form address.now }
{
    match form {
        RecordForm::Narrow => address[1] == 1,
        RecordForm::Wide => {
            let (_, rest) = address.split_at(RECORD_BYTES);
            address[1] == 2 || address[1] == 1 && are_zeros(rest)
        }
    }
}

/// Returns whether all bytes are zero.
fn are_zeros(bytes: &[u8]) -> bool
    ensures { result ≡ list_all (λ b. b == 0) bytes.now }
{
    bytes.iter().all(|byte| *byte == 0)
}

/// Returns the window of `length` bytes from the index `front` on, of headroom, datagram and tailroom, or `None` where
/// it doesn't lie in them, or is too long to be sent.
pub fn window_within(size: usize, front: u64, length: u64) -> Option<(usize, usize)>
    requires { size ≤ MAX_DATAGRAM }
    ensures { result ≡ window_within size front length }
{
    let end = front.checked_add(length)?;
    if end <= (HEADROOM + size + TAILROOM) as u64 && length <= MAX_DATAGRAM as u64 {
        Some((front as usize, length as usize))
    } else {
        None
    }
}

/// Returns the destination that a program on a side may set: a valid record, at the client's side.
pub fn destination_at(
    side: u64,
    form: RecordForm,
    address: [u8; WIDE_RECORD_BYTES],
) -> Option<[u8; WIDE_RECORD_BYTES]>
    ensures { result ≡ destination_at side form address }
{
    if side == 0 && is_valid(form, &address) {
        Some(address)
    } else {
        None
    }
}
