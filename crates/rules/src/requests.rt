//! Rows change only by requests whose credentials are accepted.

ghost use Rattle.std.specs.Prelude.{◌≡◌, ◌⊎◌, ℕ, List};
ghost use Rattle.addresses.specs.declared.address.Addr.{Addr};
ghost use Rattle.control.specs.declared.config.Config.{Config};
ghost use Rattle.tables.specs.Rows.{Rows};
ghost use Rattle.rules.specs.Authentication.{IsAuthenticated};
ghost use Rattle.rules.specs.ByRules.{from_client};

/// States that a datagram of a client leaves the rows as they are, or is a request of TURN whose credentials are
/// accepted.
pub fn law_requests_change_rows()
    ensures { (config : Config) (now : ℕ) (client : Addr) (rows : Rows) (bytes : List ℕ)
        → ((from_client config now client rows bytes).rows ≡ rows) ⊎ IsAuthenticated config now client rows bytes }
{}
