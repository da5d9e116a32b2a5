//! What is known of a file that is read again periodically.

ghost use Rattle.std.specs.Prelude.{◌≡◌, None, Some};
ghost use Rattle.replacing.specs.Watched.{Known, contents_of, is_kept, is_other, is_put_back, looked};

use std::marker::Model;

/// The bytes of a file that are in use, and those that were last refused.
#[derive(Drop)]
pub(crate) struct Watched {
    /// `None` where nothing of the file is in use.
    in_use: Option<Vec<u8>>,
    refused: Option<Vec<u8>>,
}

impl Model for Watched {
    ghost use Rattle.replacing.specs.Watched.{Known, contents_of};

    ghost Value = { Known };

    ghost view = { λ w. record { in_use = contents_of w.in_use; refused = contents_of w.refused } };
}

/// Returns whether bytes were kept, and are these.
fn is_kept(kept: &Option<Vec<u8>>, bytes: &[u8]) -> bool
    ensures { result ≡ is_kept (contents_of kept.now) bytes.now }
{
    match kept {
        Some(kept) => kept.as_slice() == bytes,
        None => false,
    }
}

impl Watched {
    /// Returns what is known of a file of which these bytes are in use, and none were refused.
    pub(crate) fn new(in_use: Option<Vec<u8>>) -> Watched
        ensures { result ≡ record { in_use = contents_of in_use; refused = None } }
    {
        Watched {
            in_use,
            refused: None,
        }
    }

    /// Returns whether the bytes that the file has now are to be tried: they are others than those in use, and than
    /// those that were last refused. Where the file has those in use again, the ones that were refused are forgotten.
    pub(crate) fn has_changed(&mut self, bytes: &[u8]) -> bool
        ensures changed { result ≡ is_other self.old bytes.now }
        ensures after { self.new ≡ looked self.old bytes.now }
    {
        if is_kept(&self.in_use, bytes) {
            self.refused = None;
            return false;
        }
        !is_kept(&self.refused, bytes)
    }

    /// Returns whether the bytes that the file has now are those in use, after others were refused.
    pub(crate) fn is_put_back(&self, bytes: &[u8]) -> bool
        ensures { result ≡ is_put_back self.now bytes.now }
    {
        self.refused.is_some() && is_kept(&self.in_use, bytes)
    }

    /// Notes that bytes are in use from now on.
    pub(crate) fn put_in_use(&mut self, bytes: Vec<u8>)
        ensures { self.new ≡ record { in_use = Some bytes.items; refused = None } }
    {
        self.in_use = Some(bytes);
        self.refused = None;
    }

    /// Notes that bytes are refused.
    pub(crate) fn refuse(&mut self, bytes: Vec<u8>)
        ensures { self.new ≡ record self.old { refused = Some bytes.items } }
    {
        self.refused = Some(bytes);
    }
}
