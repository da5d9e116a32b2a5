//! The numbers of STUN and TURN that this profile uses, each once (RFC 8489, section 18; RFC 8656, sections
//! 17 to 19). They are those of the registry "Session Traversal Utilities for NAT (STUN) Parameters".

ghost use Rattle.std.specs.Prelude.{◌≡◌, ◌≤◌, length};
ghost use Rattle.stun.specs.Attributes.{is_understood};
ghost use Rattle.stun.specs.ErrorCodes.{phrase_of};
ghost use Rattle.stun.specs.declared.registry.ErrorCode as errors;

/// The magic cookie of every message (RFC 8489, section 5).
pub const MAGIC_COOKIE: u32 = 0x2112_A442;

/// The first number of a channel (RFC 8656, section 12.4).
pub const FIRST_CHANNEL_DATA: u16 = 0x4000;

/// The last number with which a datagram is read as a channel message.
pub const LAST_CHANNEL_DATA: u16 = 0x7FFF;

/// A method (RFC 8489, section 18.2; RFC 8656, section 17).
#[derive(Clone, Copy, Debug, PartialEq, Eq)]
pub enum Method {
    Binding,
    Allocate,
    Refresh,
    Send,
    Data,
    CreatePermission,
    ChannelBind,
}

impl Method {
    ghost use Rattle.std.specs.Prelude.{◌≡◌, ◌<◌, Some, IfSome};
    ghost use Rattle.stun.specs.Types.{method_number};
    ghost use Rattle.stun.specs.declared.registry.Method as declared;

    /// Returns the number of the method, below 16.
    fn number(self) -> u16
        ensures number { result ≡ method_number self }
        ensures fits { result < 16 }
    {
        match self {
            Method::Binding => 0x001,
            Method::Allocate => 0x003,
            Method::Refresh => 0x004,
            Method::Send => 0x006,
            Method::Data => 0x007,
            Method::CreatePermission => 0x008,
            Method::ChannelBind => 0x009,
        }
    }

    /// Returns the method of a number.
    fn from_number(number: u16) -> Option<Method>
        ensures found { IfSome result (λ m. method_number m ≡ number) }
        ensures only { (m : declared.Method) → method_number m ≡ number → result ≡ Some m }
    {
        match number {
            0x001 => Some(Method::Binding),
            0x003 => Some(Method::Allocate),
            0x004 => Some(Method::Refresh),
            0x006 => Some(Method::Send),
            0x007 => Some(Method::Data),
            0x008 => Some(Method::CreatePermission),
            0x009 => Some(Method::ChannelBind),
            _ => None,
        }
    }
}

/// The class of a message (RFC 8489, section 5).
#[derive(Clone, Copy, Debug, PartialEq, Eq)]
pub enum Class {
    Request,
    Indication,
    Success,
    Error,
}

impl Class {
    ghost use Rattle.std.specs.Prelude.{◌≡◌, ◌≤◌, Some, IfSome};
    ghost use Rattle.stun.specs.Types.{class_bits};
    ghost use Rattle.stun.specs.declared.registry.Class as declared;

    /// Returns the class bits C1 and C0 in their positions, bits 8 and 4 (RFC 8489, section 5).
    fn bits(self) -> u16
        ensures bits { result ≡ class_bits self }
        ensures fits { result ≤ 0x110 }
    {
        match self {
            Class::Request => 0x000,
            Class::Indication => 0x010,
            Class::Success => 0x100,
            Class::Error => 0x110,
        }
    }

    /// Returns the class of bits in these positions, `None` where other bits are set.
    fn from_bits(bits: u16) -> Option<Class>
        ensures found { IfSome result (λ c. class_bits c ≡ bits) }
        ensures only { (c : declared.Class) → class_bits c ≡ bits → result ≡ Some c }
    {
        match bits {
            0x000 => Some(Class::Request),
            0x010 => Some(Class::Indication),
            0x100 => Some(Class::Success),
            0x110 => Some(Class::Error),
            _ => None,
        }
    }
}

/// The type of a message: a method and a class (RFC 8489, section 5).
/// See docs/DESIGN.md, "Message types are enums".
#[derive(Clone, Copy, Debug, PartialEq, Eq)]
pub struct MessageType {
    pub method: Method,
    pub class: Class,
}

impl MessageType {
    ghost use Rattle.std.specs.Prelude.{◌≡◌, ◌<◌, Some, IfSome};
    ghost use Rattle.stun.specs.Types.{type_number};
    ghost use Rattle.stun.specs.declared.registry.MessageType as declared;

    /// Returns the 14 bits of the type. The methods lie below 16, so the bits of the class are above those
    /// of the method.
    pub fn kind(self) -> u16
        ensures number { result ≡ type_number self }
        ensures fits { result < 0x4000 }
    {
        self.method.number() + self.class.bits()
    }

    /// Returns the type whose 14 bits these are, if its method is one of [`Method`].
    pub fn from_kind(kind: u16) -> Option<MessageType>
        ensures found { IfSome result (λ t. type_number t ≡ kind) }
        ensures only { (t : declared.MessageType) → type_number t ≡ kind → result ≡ Some t }
    {
        let method = Method::from_number(kind % 16)?;
        let class = Class::from_bits(kind / 16 * 16)?;
        Some(MessageType { method, class })
    }
}

/// The attribute types that are understood (RFC 8489, section 18.3; RFC 8656, section 18).
pub mod attribute {
    pub const USERNAME: u16 = 0x0006;

    pub const MESSAGE_INTEGRITY: u16 = 0x0008;

    pub const ERROR_CODE: u16 = 0x0009;

    pub const UNKNOWN_ATTRIBUTES: u16 = 0x000A;

    pub const CHANNEL_NUMBER: u16 = 0x000C;

    pub const LIFETIME: u16 = 0x000D;

    pub const XOR_PEER_ADDRESS: u16 = 0x0012;

    pub const DATA: u16 = 0x0013;

    pub const REALM: u16 = 0x0014;

    pub const NONCE: u16 = 0x0015;

    pub const XOR_RELAYED_ADDRESS: u16 = 0x0016;

    pub const REQUESTED_ADDRESS_FAMILY: u16 = 0x0017;

    pub const REQUESTED_TRANSPORT: u16 = 0x0019;

    pub const XOR_MAPPED_ADDRESS: u16 = 0x0020;
}

/// The table of the attribute types that are understood.
const UNDERSTOOD: [u16; 14] = [
    attribute::USERNAME,
    attribute::MESSAGE_INTEGRITY,
    attribute::ERROR_CODE,
    attribute::UNKNOWN_ATTRIBUTES,
    attribute::CHANNEL_NUMBER,
    attribute::LIFETIME,
    attribute::XOR_PEER_ADDRESS,
    attribute::DATA,
    attribute::REALM,
    attribute::NONCE,
    attribute::XOR_RELAYED_ADDRESS,
    attribute::REQUESTED_ADDRESS_FAMILY,
    attribute::REQUESTED_TRANSPORT,
    attribute::XOR_MAPPED_ADDRESS,
];

/// Returns whether an attribute of a type is understood or may be ignored: the type is in the table, or
/// comprehension-optional, 0x8000 to 0xFFFF (RFC 8489, section 14).
pub fn is_understood(kind: u16) -> bool
    ensures { result ≡ is_understood kind }
{
    kind >= 0x8000 || UNDERSTOOD.contains(&kind)
}

/// The families of addresses (RFC 8489, section 14.1).
pub mod family {
    pub const IPV4: u8 = 1;

    pub const IPV6: u8 = 2;
}

/// The error of an error response (RFC 8489, section 18.4; RFC 8656, section 19).
/// See docs/DESIGN.md, "Errors are an enum".
#[derive(Clone, Copy, Debug, PartialEq, Eq)]
pub enum ErrorCode {
    BadRequest,
    Unauthenticated,
    UnknownAttribute,
    AllocationMismatch,
    StaleNonce,
    AddressFamilyNotSupported,
    WrongCredentials,
    UnsupportedTransport,
    PeerAddressFamilyMismatch,
    InsufficientCapacity,
}

impl ErrorCode {
    ghost use Rattle.std.specs.Prelude.{◌≡◌};
    ghost use Rattle.stun.specs.ErrorCodes.{number_of_error, phrase_of};

    /// Returns the code, 400 to 508.
    pub fn code(self) -> u16
        ensures { result ≡ number_of_error self }
    {
        match self {
            ErrorCode::BadRequest => 400,
            ErrorCode::Unauthenticated => 401,
            ErrorCode::UnknownAttribute => 420,
            ErrorCode::AllocationMismatch => 437,
            ErrorCode::StaleNonce => 438,
            ErrorCode::AddressFamilyNotSupported => 440,
            ErrorCode::WrongCredentials => 441,
            ErrorCode::UnsupportedTransport => 442,
            ErrorCode::PeerAddressFamilyMismatch => 443,
            ErrorCode::InsufficientCapacity => 508,
        }
    }

    /// Returns the reason phrase, at most 30 bytes.
    pub fn phrase(self) -> &'static str
        ensures { result.now ≡ phrase_of self }
    {
        match self {
            ErrorCode::BadRequest => "Bad Request",
            ErrorCode::Unauthenticated => "Unauthenticated",
            ErrorCode::UnknownAttribute => "Unknown Attribute",
            ErrorCode::AllocationMismatch => "Allocation Mismatch",
            ErrorCode::StaleNonce => "Stale Nonce",
            ErrorCode::AddressFamilyNotSupported => "Address Family not Supported",
            ErrorCode::WrongCredentials => "Wrong Credentials",
            ErrorCode::UnsupportedTransport => "Unsupported Transport Protocol",
            ErrorCode::PeerAddressFamilyMismatch => "Peer Address Family Mismatch",
            ErrorCode::InsufficientCapacity => "Insufficient Capacity",
        }
    }
}

/// States that a phrase has at most 30 bytes.
pub fn law_phrases_are_short()
    ensures { (e : errors.ErrorCode) → length (phrase_of e) ≤ 30 }
{}
