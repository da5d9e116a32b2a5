//! Programs that are confined to what clients have permitted.

ghost use Rattle.std.specs.Prelude.{IfSome};
ghost use Rattle.control.specs.declared.config.Config.{Config};
ghost use Rattle.rules.specs.Systems.{SystemState};
ghost use Rattle.relay.specs.ByPrograms.{Programs, by_programs};
ghost use Rattle.relay.specs.Confinement.{SendsWhatIsPermitted};

use crate::relay::Relay;

/// States that two programs that are confined, whatever they are, send only what is permitted: from any state on, and
/// over every list of events, data goes from a client to a peer only where the client's live allocation has, at that
/// moment, a permission for the peer's IP address or a channel that is bound to exactly this peer, and is of the peer's
/// family; and data goes from a peer only to the client of the slot that it came to, where there is, at that moment, a
/// permission for the peer's IP address. So no program, however wrong, makes an open relay.
pub fn law_confined_programs_send_what_is_permitted()
    ensures { (programs : Programs) (config : Config) (s : SystemState) → IfSome programs.confinement (λ confinement.
        SendsWhatIsPermitted confinement.aliases.items (by_programs programs) config s) }
{}

impl Relay {
    ghost use Rattle.relay.specs.Relays.{state_of};
    ghost use Rattle.relay.specs.Replays.{system_of};

    /// States that where programs are confined, what is sent for events is permitted.
    pub(crate) fn law_plays_are_permitted(&self)
        ensures { IfSome self.now.programs.confinement (λ confinement.
            SendsWhatIsPermitted confinement.aliases.items (system_of self.now) self.now.config (state_of self.now)) }
    {
        law_confined_programs_send_what_is_permitted();
    }
}
