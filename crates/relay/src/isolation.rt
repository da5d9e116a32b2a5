//! Users of a relay are apart, whatever programs it has.

ghost use Rattle.relay.specs.ByPrograms.{Programs, by_programs};
ghost use Rattle.rules.specs.Isolation.{KeepsUsersApart};

/// States that users are apart whatever the programs of the two sides are, confined or not: what a datagram draws, and
/// what it leaves of its own allocation, depends on the rows of that allocation alone, on the moment, and for a client
/// on which slot is free next, and on how many allocations each user has where users have a quota; and it changes no
/// row of others.
pub fn law_programs_keep_users_apart()
    ensures { (programs : Programs) → KeepsUsersApart (by_programs programs) }
{}
