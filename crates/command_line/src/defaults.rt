//! The values of options that are not given, as the help texts say them.

use std::net::Ipv4Addr;

/// The realm.
pub const REALM: &str = "relay";

/// The number of slots.
pub const SLOTS: usize = 16;

/// The relayed IPv4 address of a replay, that of the loopback interface.
pub const RELAY_IP: Ipv4Addr = Ipv4Addr::LOCALHOST;

/// The IPv4 address that sockets are bound to, that of the loopback interface.
pub const LISTEN: Ipv4Addr = Ipv4Addr::LOCALHOST;

/// The relayed port of slot 0, the first of those for private use (RFC 6335, section 6).
pub const FIRST_PORT: u16 = 49152;

/// The nonce of a replay.
pub const NONCE: &str = "n1";

/// The bytes of each socket's buffers.
pub const BUFFER: i32 = 4194304;

/// The seconds after which a nonce is replaced.
pub const NONCE_LIFETIME: u64 = 3600;

/// The most bytes of a record.
pub const RECORD_LIMIT: u64 = 1_073_741_824;
