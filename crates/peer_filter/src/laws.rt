//! Laws of decisions, and of the rules that hold without options.

ghost use Rattle.std.specs.Prelude.{◌≡◌, ℕ, ◌<◌, ◌∷◌, [], List, Some, not};
ghost use Rattle.addresses.specs.Addresses.{IsAddress};
ghost use Rattle.addresses.specs.declared.address.Addr.{Addr};
ghost use Rattle.addresses.specs.declared.address.Addr.TheVariants as addresses;
ghost use Rattle.peer_filter.specs.Defaults.{is_denied_v4, is_denied_v6};
ghost use Rattle.peer_filter.specs.Filters.{DecidesOn, IsDecision, deciding_rule, default_rules, filter_of, is_allowed_by, rules_for};
ghost use Rattle.peer_filter.specs.Networks.{ip_number};
ghost use Rattle.peer_filter.specs.declared.rule.Loopback.{Loopback};
ghost use Rattle.peer_filter.specs.declared.rule.Rule.{Rule};
ghost use Rattle.peer_filter.specs.declared.rule.ServerEndpoint.{ServerEndpoint};

/// States that the rule that decides on an address is the one with the longest prefix of those that contain it, the
/// last one where several have as many bits; and that there is no decision only where no rule contains the address.
pub fn law_longest_prefix_decides()
    ensures found { (rules : List Rule) (peer : Addr) → IsDecision rules peer (deciding_rule rules peer) }
    ensures only { (rules : List Rule) (peer : Addr) (rule : Rule)
        → DecidesOn rules peer rule → deciding_rule rules peer ≡ Some rule }
{}

/// States that a filter of some rules decides as all of these do: those for the addresses of a peer's family are
/// enough.
pub fn law_rules_of_the_family_decide()
    ensures { (endpoints : List ServerEndpoint) (rules : List Rule) (peer : Addr)
        → deciding_rule (rules_for peer (filter_of endpoints rules)) peer ≡ deciding_rule rules peer }
{}

/// States which IPv4 addresses the rules that hold without options deny.
pub fn law_defaults_deny_v4()
    ensures { (loopback : Loopback) (a b c d port : ℕ) → IsAddress (addresses.V4 (a ∷ b ∷ c ∷ d ∷ []) port)
        → is_allowed_by (deciding_rule (default_rules loopback) (addresses.V4 (a ∷ b ∷ c ∷ d ∷ []) port))
        ≡ not (is_denied_v4 loopback a b) }
{}

/// States which IPv6 addresses the rules that hold without options deny.
pub fn law_defaults_deny_v6()
    ensures { (loopback : Loopback) (ip : List ℕ) (port : ℕ) → IsAddress (addresses.V6 ip port)
        → is_allowed_by (deciding_rule (default_rules loopback) (addresses.V6 ip port))
        ≡ not (is_denied_v6 loopback (ip_number (addresses.V6 ip port))) }
{}
