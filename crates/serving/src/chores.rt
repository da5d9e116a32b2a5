//! What a server does once a second, in pieces.

/// A piece of what is done once a second, beside datagrams. Each has a turn of its own, in this order.
/// See docs/DECISIONS.md, "What is read once a second".
#[derive(Clone, Copy)]
pub(crate) enum Chore {
    /// To look at the system's clock.
    Clock,
    /// To close sockets of clients whose allocations have ended, and of peers whose channels have, some at a time, from
    /// a token on. Each token comes once a second.
    Sockets(usize),
    /// To look at the files of both programs. Those that have changed together are replaced together.
    ProgramFiles,
    /// To look at those of both shadows.
    ShadowFiles,
    /// To log the allocations that have ended by their lifetimes.
    Ends,
    /// To read a file of users, of secrets or of revoked users again, by its place among those that are given.
    Reread(usize),
}

impl Chore {
    /// The first one of a second.
    pub(crate) const FIRST: Chore = Chore::Clock;

    /// Returns the one that follows, if there is one, where so many files are read again.
    pub(crate) fn next(self, reread: usize) -> Option<Chore> {
        let next = match self {
            Chore::Clock => Chore::Sockets(0),
            Chore::Sockets(_) => Chore::ProgramFiles,
            Chore::ProgramFiles => Chore::ShadowFiles,
            Chore::ShadowFiles => Chore::Ends,
            Chore::Ends => Chore::Reread(0),
            Chore::Reread(index) => Chore::Reread(index.saturating_add(1)),
        };
        match next {
            Chore::Reread(index) if index >= reread => None,
            next => Some(next),
        }
    }
}
