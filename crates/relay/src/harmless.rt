//! Steps that harm nobody, whatever programs are loaded.

use crate::relay::Relay;
use events::Meta;

impl Relay {
    ghost use Rattle.relay.specs.Harmless.{IsHarmless};
    ghost use Rattle.relay.specs.Relays.{datagram_at, state_of};
    ghost use Rattle.relay.specs.Steps.{outcome_of};

    /// States that a datagram harms nobody.
    /// See docs/DESIGN.md, "Laws over any two programs".
    pub(crate) fn law_steps_are_harmless(&self, meta: &Meta, n: usize)
        ensures { IsHarmless self.now.programs self.now.config (state_of self.now) meta.entry.now
            (datagram_at self.now n) (outcome_of self.now meta.entry.now n).answer }
    {
        self.tables().law_are_well_formed();
    }
}
