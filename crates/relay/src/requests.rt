//! Rows change only by requests whose credentials are accepted.

ghost use Rattle.std.specs.Prelude.{◌≡◌, ◌⊎◌, ℕ, List};
ghost use Rattle.control.specs.declared.config.Config.{Config};
ghost use Rattle.events.specs.Events.{Event};
ghost use Rattle.events.specs.declared.meta.Source.{Source};
ghost use Rattle.rules.specs.Systems.{SystemState, state_after_events};
ghost use Rattle.tables.specs.Rows.{Rows};
ghost use Rattle.relay.specs.ByPrograms.{Programs, by_programs};
ghost use Rattle.relay.specs.Requests.{IsRequestFrom, SomeRequest};

/// States that with any programs a datagram leaves the rows as they are, or is a client's and, as its program leaves
/// it, a request of TURN whose credentials are accepted; and that the rows are the same after events of which none is
/// such a request.
pub fn law_requests_change_rows()
    ensures datagrams { (programs : Programs) (config : Config) (now : ℕ) (tx : List ℕ) (from : Source)
        (rows : Rows) (bytes : List ℕ)
        → ((by_programs programs config now tx from rows bytes).rows ≡ rows)
        ⊎ IsRequestFrom programs config now tx from rows bytes }
    ensures events { (programs : Programs) (config : Config) (s : SystemState) (events : List Event)
        → ((state_after_events (by_programs programs) config s events).rows ≡ s.rows)
        ⊎ SomeRequest programs config s events }
{}
