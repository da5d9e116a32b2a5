//! Users of a relay by the rules are apart.

ghost use Rattle.rules.specs.ByRules.{by_rules};
ghost use Rattle.rules.specs.Isolation.{KeepsUsersApart};

/// States that by the rules users are apart: what a datagram is answered, and what it leaves of its own allocation,
/// depends on the rows of that allocation alone, on the moment, and for a client on which slot is free next, and on how
/// many allocations each user has where users have a quota; and it changes no row of others.
pub fn law_users_are_apart()
    ensures { KeepsUsersApart by_rules }
{}
