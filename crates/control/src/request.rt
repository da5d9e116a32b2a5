//! The requests that are answered.

ghost use Rattle.std.specs.Prelude.{◌≡◌};

use stun::Message;
use stun::registry::{Class, MessageType, Method};

/// A request of TURN, whose credentials are checked, by its method (RFC 8656).
#[derive(Clone, Copy, Debug, PartialEq, Eq)]
pub enum TurnRequest {
    Allocate,
    Refresh,
    CreatePermission,
    ChannelBind,
}

/// A request that is answered.
#[derive(Clone, Copy, Debug, PartialEq, Eq)]
pub enum Request {
    /// Binding (RFC 8489, section 12).
    Binding,
    /// One of TURN.
    Turn(TurnRequest),
}

impl Request {
    ghost use Rattle.std.specs.Prelude.{◌≡◌, ◌<◌, Some, IfSome};
    ghost use Rattle.control.specs.Replies.{method_of, type_of, kind_of};
    ghost use Rattle.stun.specs.declared.registry.Class.TheVariants as class;
    ghost use Rattle.control.specs.declared.request.Request as declared;

    /// Returns the method.
    pub(crate) fn method(self) -> Method
        ensures { result ≡ method_of self }
    {
        match self {
            Request::Binding => Method::Binding,
            Request::Turn(TurnRequest::Allocate) => Method::Allocate,
            Request::Turn(TurnRequest::Refresh) => Method::Refresh,
            Request::Turn(TurnRequest::CreatePermission) => Method::CreatePermission,
            Request::Turn(TurnRequest::ChannelBind) => Method::ChannelBind,
        }
    }

    /// Returns the number of the message type of this method and a class.
    pub(crate) fn kind(self, class: Class) -> u16
        ensures kind { result ≡ kind_of self class }
        ensures fits { result < 0x4000 }
    {
        let method = self.method();
        MessageType { method, class }.kind()
    }

    /// Returns the request that a message is, if it is one that is answered.
    pub fn of(message: &Message<'_>) -> Option<Request>
        ensures found { IfSome result (λ r. kind_of r class.Request ≡ message.now.kind) }
        ensures only { (r : declared.Request) → kind_of r class.Request ≡ message.now.kind → result ≡ Some r }
    {
        let Some(found) = MessageType::from_kind(message.kind()) else {
            return None;
        };
        Request::of_type(found)
    }

    /// Returns the request of a message type, if it is one that is answered.
    fn of_type(found: MessageType) -> Option<Request>
        ensures found { IfSome result (λ r. type_of r class.Request ≡ found) }
        ensures only { (r : declared.Request) → type_of r class.Request ≡ found → result ≡ Some r }
    {
        match (found.method, found.class) {
            (Method::Binding, Class::Request) => Some(Request::Binding),
            (Method::Allocate, Class::Request) => Some(Request::Turn(TurnRequest::Allocate)),
            (Method::Refresh, Class::Request) => Some(Request::Turn(TurnRequest::Refresh)),
            (Method::CreatePermission, Class::Request) => Some(Request::Turn(
                TurnRequest::CreatePermission,
            )),
            (Method::ChannelBind, Class::Request) => Some(Request::Turn(TurnRequest::ChannelBind)),
            _ => None,
        }
    }
}
