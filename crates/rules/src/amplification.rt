//! A datagram of a client draws at most one, of a bounded length.

ghost use Rattle.std.specs.Prelude.{◌⊎◌, ℕ, List, length, IfSome};
ghost use Rattle.addresses.specs.declared.address.Addr.{Addr};
ghost use Rattle.control.specs.declared.config.Config.{Config};
ghost use Rattle.tables.specs.Rows.{Rows};
ghost use Rattle.rules.specs.Amplification.{IsRelayed, RespondsTo};
ghost use Rattle.rules.specs.ByRules.{from_client};

/// States that what is sent for a datagram of a client is relayed, and then not much longer than the datagram, or a
/// response of a bounded length, which is longer only where the credentials of the request are accepted.
pub fn law_answers_are_bounded()
    ensures { (config : Config) (now : ℕ) (client : Addr) (rows : Rows) (bytes : List ℕ)
        → IfSome (from_client config now client rows bytes).answer (λ sending.
        IsRelayed (length bytes) sending ⊎ RespondsTo config now client rows bytes sending) }
{}
