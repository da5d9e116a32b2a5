//! What comes to a relay.

use crate::meta::Meta;

/// What comes to a relay.
#[derive(Clone, Copy, Debug)]
pub enum Event<'a> {
    /// A datagram, with what is known of it.
    Datagram { meta: Meta, bytes: &'a [u8] },
    /// A new nonce.
    Nonce(&'a str),
}
