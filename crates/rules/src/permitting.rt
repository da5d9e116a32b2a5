//! The rules send only what is permitted.

ghost use Rattle.std.specs.Prelude.{ℕ, List, [], IfSome};
ghost use Rattle.control.specs.declared.config.Config.{Config};
ghost use Rattle.events.specs.declared.meta.Source.{Source};
ghost use Rattle.tables.specs.Rows.{Rows, rows_at};
ghost use Rattle.rules.specs.ByRules.{by_rules};
ghost use Rattle.rules.specs.Permitted.{IsPermitted};

/// States that by the rules data goes from a client to a peer only where its allocation has a permission for the peer's
/// IP address or a channel that is bound to exactly this peer, and from a peer to a client only where there is a
/// permission for it.
pub fn law_rules_send_what_is_permitted()
    ensures { (config : Config) (now : ℕ) (tx : List ℕ) (from : Source) (rows : Rows) (bytes : List ℕ)
        → IfSome (by_rules config now tx from rows bytes).answer (IsPermitted [] from (rows_at now rows)) }
{}
