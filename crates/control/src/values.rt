//! The values of a request's attributes, as they are read.

ghost use Rattle.std.specs.Prelude.{◌≡◌};
ghost use Rattle.credentials.specs.Checks.{first_value};
ghost use Rattle.stun.specs.declared.registry.attribute.TheConstants.{CHANNEL_NUMBER as CHANNEL_TYPE, LIFETIME as LIFETIME_TYPE, XOR_PEER_ADDRESS as PEER_TYPE, REQUESTED_ADDRESS_FAMILY as FAMILY_TYPE, REQUESTED_TRANSPORT as TRANSPORT_TYPE};
ghost use Rattle.attributes.specs.Addresses.{address_in};
ghost use Rattle.attributes.specs.Values.{number_of_value};
ghost use Rattle.control.specs.Values.{optional_value, required_value};

use attributes::{
    Addr, channel_number, lifetime, read_xor_addr, requested_family, requested_transport,
};
use stun::Message;
use stun::registry::ErrorCode;
use stun::registry::attribute::{
    CHANNEL_NUMBER, LIFETIME, REQUESTED_ADDRESS_FAMILY, REQUESTED_TRANSPORT, XOR_PEER_ADDRESS,
};

/// Returns the protocol of REQUESTED-TRANSPORT, which must be there.
pub(crate) fn transport_of(message: &Message<'_>) -> Result<u8, ErrorCode>
    ensures { result ≡ required_value (number_of_value 1) (first_value message.now TRANSPORT_TYPE) }
{
    let value = message
        .value_of(REQUESTED_TRANSPORT)
        .ok_or(ErrorCode::BadRequest)?;
    requested_transport(value).map_err(|_| ErrorCode::BadRequest)
}

/// Returns the family of REQUESTED-ADDRESS-FAMILY, if it is there.
pub(crate) fn family_of(message: &Message<'_>) -> Result<Option<u8>, ErrorCode>
    ensures { result ≡ optional_value (number_of_value 1) (first_value message.now FAMILY_TYPE) }
{
    let Some(value) = message.value_of(REQUESTED_ADDRESS_FAMILY) else {
        return Ok(None);
    };
    let family = requested_family(value).map_err(|_| ErrorCode::BadRequest)?;
    Ok(Some(family))
}

/// Returns the seconds of LIFETIME, if it is there.
pub(crate) fn lifetime_of(message: &Message<'_>) -> Result<Option<u32>, ErrorCode>
    ensures { result ≡ optional_value (number_of_value 4) (first_value message.now LIFETIME_TYPE) }
{
    let Some(value) = message.value_of(LIFETIME) else {
        return Ok(None);
    };
    let seconds = lifetime(value).map_err(|_| ErrorCode::BadRequest)?;
    Ok(Some(seconds))
}

/// Returns the number of CHANNEL-NUMBER, which must be there.
pub(crate) fn channel_of(message: &Message<'_>) -> Result<u16, ErrorCode>
    ensures { result ≡ required_value (number_of_value 2) (first_value message.now CHANNEL_TYPE) }
{
    let value = message
        .value_of(CHANNEL_NUMBER)
        .ok_or(ErrorCode::BadRequest)?;
    channel_number(value).map_err(|_| ErrorCode::BadRequest)
}

/// Returns the address in a value of XOR-PEER-ADDRESS.
pub(crate) fn address_in(value: &[u8], tx: &[u8; 12]) -> Option<Addr>
    ensures { result ≡ address_in tx.now value.now }
{
    read_xor_addr(value, tx).ok()
}

/// Returns the address of XOR-PEER-ADDRESS, which must be there.
pub(crate) fn peer_of(message: &Message<'_>) -> Result<Addr, ErrorCode>
    ensures { result ≡ required_value (address_in message.now.tx) (first_value message.now PEER_TYPE) }
{
    let value = message
        .value_of(XOR_PEER_ADDRESS)
        .ok_or(ErrorCode::BadRequest)?;
    address_in(value, &message.tx()).ok_or(ErrorCode::BadRequest)
}
