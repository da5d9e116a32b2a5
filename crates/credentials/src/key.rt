//! The keys of users.

use md5::{Digest, Md5};

/// The key of a user in a realm (RFC 8489, section 9.2.2), 16 bytes.
#[derive(Clone, Copy, PartialEq, Eq)]
pub struct Key {
    bytes: [u8; 16],
}

impl Key {
    ghost use Rattle.std.specs.Prelude.{◌≡◌};
    ghost use Rattle.credentials.specs.Keys.{key_of, key_bytes};

    /// Returns the MD5 digest of `user:realm:password`.
    pub fn of(user: &[u8], realm: &str, password: &[u8]) -> Key
        ensures { key_bytes result ≡ key_of user.now realm.now password.now }
    {
        let mut hasher = Md5::new();
        hasher.update(user);
        hasher.update(b":");
        hasher.update(realm.as_bytes());
        hasher.update(b":");
        hasher.update(password);
        Key {
            bytes: hasher.finalize(),
        }
    }

    /// Returns the bytes of the key.
    pub fn bytes(&self) -> &[u8; 16]
        ensures { result.now ≡ key_bytes self.now }
    {
        &self.bytes
    }
}
