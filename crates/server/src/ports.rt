//! The ports of a server.

/// The ports of a server.
#[derive(Clone, Copy)]
pub struct Ports {
    /// That of clients.
    pub client: u16,
    /// That of slot 0.
    pub first: u16,
    /// That of the last slot.
    pub last: u16,
}
