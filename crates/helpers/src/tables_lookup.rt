//! The look-ups of a relay's tables.

ghost use Rattle.std.specs.Prelude.{◌≡◌, ◌≤◌, ◌+◌, Some, is_some};
ghost use Rattle.semantics.specs.Runs.{IsLawful};
ghost use Rattle.tables.specs.LookUps.{bound_peer};
ghost use Rattle.semantics.specs.laws.Lawful.{IsLawful-prop};
ghost use Rattle.helpers.specs.LookUps.{held_answer, peer_answer, channel_answer, permission_answer};

use addresses::Addr;
use semantics::{Helpers, RecordForm, WIDE_RECORD_BYTES, address_of, is_valid, wide_record};
use tables::{Count, LiveSlot, Uncounted};

/// The helpers that look up in the slot of a client's allocation, or of a relayed address, as it is at a moment.
/// Without an allocation that is live then they find nothing.
/// See docs/DESIGN.md, "Lawful helpers".
#[derive(Drop)]
pub struct Lookup<'a> {
    pub live: Option<LiveSlot<'a>>,
    pub ghost lawful: { IsLawful (held_answer live) } by { IsLawful-prop (held_answer live) },
}

/// An answer that finds nothing.
const NOTHING: (u64, [u8; WIDE_RECORD_BYTES]) = (0, [0; WIDE_RECORD_BYTES]);

/// Answers with the peer that a number is bound to, if a record of the form has it.
#[inline(always)]
fn channel_peer<C: Count>(
    form: RecordForm,
    slot: &LiveSlot<'_>,
    number: u64,
    keys: &mut C,
) -> (u64, [u8; WIDE_RECORD_BYTES])
    ensures answer { result ≡ peer_answer form (bound_peer number slot.now) }
    ensures keys { C.count keys.new ≤ C.count keys.old + 7 }
{
    slot.law_is_well_formed();
    let Ok(number) = u16::try_from(number) else {
        return NOTHING;
    };
    match (form, slot.peer_of(number, keys)) {
        (RecordForm::Narrow, Some(Addr::V6 { .. })) | (_, None) => NOTHING,
        (_, Some(peer)) => (1, wide_record(&peer)),
    }
}

/// Answers with the number that is bound to the address of a record.
fn channel_to<C: Count>(
    form: RecordForm,
    slot: &LiveSlot<'_>,
    address: &[u8; WIDE_RECORD_BYTES],
    keys: &mut C,
) -> (u64, [u8; WIDE_RECORD_BYTES])
    ensures answer { result ≡ channel_answer form (Some slot.now) address.now }
    ensures keys { C.count keys.new ≤ C.count keys.old + 7 }
{
    if !is_valid(form, address) {
        return NOTHING;
    }
    match slot.channel_of(address_of(address), keys) {
        Some(number) => (u64::from(number), [0; WIDE_RECORD_BYTES]),
        None => NOTHING,
    }
}

/// Answers whether the address of a record has a permission.
fn permits<C: Count>(
    form: RecordForm,
    slot: &LiveSlot<'_>,
    address: &[u8; WIDE_RECORD_BYTES],
    keys: &mut C,
) -> (u64, [u8; WIDE_RECORD_BYTES])
    ensures answer { result ≡ permission_answer form (Some slot.now) address.now }
    ensures keys { C.count keys.new ≤ C.count keys.old + 7 }
{
    let holds = is_valid(form, address) && slot.permitted(address_of(address), keys);
    (u64::from(holds), [0; WIDE_RECORD_BYTES])
}

impl<'a> Lookup<'a> {
    ghost use Rattle.std.specs.Prelude.{◌≡◌, ◌≤◌, ◌+◌};
    ghost use Rattle.helpers.specs.LookUps.{held_answer};

    /// Makes the look-ups in a slot, if there is one whose allocation is live.
    pub fn new(live: Option<LiveSlot<'a>>) -> Lookup<'a>
        ensures { result.live ≡ live.entry }
    {
        if let Some(slot) = &live {
            slot.law_is_well_formed();
        }
        Lookup { live }
    }

    /// Answers a call of a helper, as [`Helpers::answer`] does. `keys` counts the keys that are compared: at most 7.
    #[inline(always)]
    pub fn look_up<C: Count>(
        &self,
        id: u8,
        number: u64,
        address: &[u8; WIDE_RECORD_BYTES],
        keys: &mut C,
    ) -> (u64, [u8; WIDE_RECORD_BYTES])
        ensures answer { result ≡ held_answer self.now.live id number address.now }
        ensures keys { C.count keys.new ≤ C.count keys.old + 7 }
    {
        let Some(slot) = &self.live else {
            return NOTHING;
        };
        match id {
            1 => channel_peer(RecordForm::Narrow, slot, number, keys),
            2 => channel_to(RecordForm::Narrow, slot, address, keys),
            3 => permits(RecordForm::Narrow, slot, address, keys),
            6 => channel_peer(RecordForm::Wide, slot, number, keys),
            7 => channel_to(RecordForm::Wide, slot, address, keys),
            8 => permits(RecordForm::Wide, slot, address, keys),
            _ => NOTHING,
        }
    }
}

impl Helpers for Lookup<'_> {
    ghost use Rattle.helpers.specs.LookUps.{held_answer};

    ghost answers = { λ l. held_answer l.live };

    ghost lawful = { λ l. l.lawful };

    #[inline(always)]
    fn answer(&self, id: u8, number: u64, address: [u8; 20]) -> (u64, [u8; 20]) {
        self.look_up(id, number, &address, &mut Uncounted)
    }
}
