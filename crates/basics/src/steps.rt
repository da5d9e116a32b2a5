//! Ghost counters: contracts see them, and they have no bytes at run time.

ghost use Rattle.std.specs.Prelude.{ℕ, ◌≤◌, ◌+◌};

use std::marker::Model;
use std::sync::ledger::{Blank, Book, Ledger, Share};

/// What counts. A function that is generic over it has one body, which its contract bounds by the count, and is called
/// without a count by [`Uncounted`].
pub trait Count {
    ghost count: { Self → ℕ };

    /// Counts one step more.
    fn tick(&mut self)
        ensures { count self.new ≤ count self.old + 1 };
}

/// Counts nothing.
#[derive(Clone, Copy, Debug)]
pub struct Uncounted;

impl Count for Uncounted {
    ghost count = { λ _. 0 };

    fn tick(&mut self) {}
}

/// How many steps were made: abstract steps of the verifier, and keys that look-ups of the tables compare. It has no
/// bytes at run time, and only `tick` changes it.
/// See docs/DESIGN.md, "One count".
#[derive(Drop)]
pub struct Steps<L: Ledger> {
    book: Book<L>,
    share: Share<L>,
}

impl<L: Ledger> Model for Steps<L> {
    ghost use Rattle.std.specs.Prelude.{ℕ, ◌<◌};

    ghost Value = { ℕ };

    ghost view = { λ s. s.book.total };

    ghost invariant = { λ s. 0 < s.share.parts };
}

impl<L: Ledger> Steps<L> {
    ghost use Rattle.std.specs.Prelude.{◌≡◌, ◌+◌, ◌<◌};

    /// Makes a count of 0.
    pub fn new(blank: Blank) -> Steps<L>
        requires name { blank.name ≡ L.name }
        requires parts { blank.parts ≡ L.parts }
        requires some { 0 < L.parts }
        ensures { result ≡ 0 }
    {
        let (book, share) = blank.open::<L>();
        Steps { book, share }
    }

    /// Counts one step more.
    pub fn tick(&mut self)
        ensures { self.new ≡ self.old + 1 }
    {
        self.book.add(&mut self.share, 1);
    }
}

impl<L: Ledger> Count for Steps<L> {
    ghost count = { λ s. s };

    fn tick(&mut self) {
        Steps::tick(self);
    }
}
