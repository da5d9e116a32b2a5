//! Values that an attribute is written with (RFC 8489, section 14).

ghost use Rattle.std.specs.Prelude.{◌≡◌, ℕ, List, length};

/// The value of an attribute. It writes itself into the message, so that no copy of it is made first.
/// See docs/DESIGN.md, "Values write themselves".
pub trait AttributeValue {
    /// The bytes of the value.
    ghost bytes: { Self → List ℕ };

    /// Returns the length of the value, in bytes.
    fn len(&self) -> usize
        ensures { result ≡ length (bytes self.now) };

    /// Writes the value over a slice of its length.
    fn write(&self, room: &mut [u8])
        requires { length room.old ≡ length (bytes self.now) }
        ensures { room.new ≡ bytes self.now };
}

impl AttributeValue for &[u8] {
    ghost bytes = { λ v. v.now };

    fn len(&self) -> usize {
        <[u8]>::len(self)
    }

    fn write(&self, room: &mut [u8]) {
        room.copy_from_slice(self);
    }
}
