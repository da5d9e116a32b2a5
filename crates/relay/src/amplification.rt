//! No program makes the relay an amplifier.

ghost use Rattle.control.specs.declared.config.Config.{Config};
ghost use Rattle.rules.specs.Systems.{SystemState};
ghost use Rattle.relay.specs.Amplification.{IsNoAmplifier};
ghost use Rattle.relay.specs.ByPrograms.{Programs};

/// States that with any programs, from any state on and over every list of events, a datagram draws at most one: one
/// that is relayed, which has at most 67 bytes more than it, or a response to its client of a bounded length. And a new
/// nonce draws none.
pub fn law_no_program_amplifies()
    ensures { (programs : Programs) (config : Config) (s : SystemState) → IsNoAmplifier programs config s }
{}
