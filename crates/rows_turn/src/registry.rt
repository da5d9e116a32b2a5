//! The registries: numbers, types of messages and of attributes, and errors with their phrases.

use anyhow::{Context, Result, bail};
use rows::row::{Row, number16};
use std::alloc::Global;
use stun::registry::{
    ErrorCode, FIRST_CHANNEL_DATA, LAST_CHANNEL_DATA, MAGIC_COOKIE, MessageType, Method, attribute,
    family, is_understood,
};

/// The methods by their names.
const METHODS: [(&str, Method); 7] = [
    ("Binding", Method::Binding),
    ("Allocate", Method::Allocate),
    ("Refresh", Method::Refresh),
    ("Send", Method::Send),
    ("Data", Method::Data),
    ("CreatePermission", Method::CreatePermission),
    ("ChannelBind", Method::ChannelBind),
];

/// The types of attributes by their names.
const ATTRIBUTES: [(&str, u16); 14] = [
    ("USERNAME", attribute::USERNAME),
    ("MESSAGE-INTEGRITY", attribute::MESSAGE_INTEGRITY),
    ("ERROR-CODE", attribute::ERROR_CODE),
    ("UNKNOWN-ATTRIBUTES", attribute::UNKNOWN_ATTRIBUTES),
    ("CHANNEL-NUMBER", attribute::CHANNEL_NUMBER),
    ("LIFETIME", attribute::LIFETIME),
    ("XOR-PEER-ADDRESS", attribute::XOR_PEER_ADDRESS),
    ("DATA", attribute::DATA),
    ("REALM", attribute::REALM),
    ("NONCE", attribute::NONCE),
    ("XOR-RELAYED-ADDRESS", attribute::XOR_RELAYED_ADDRESS),
    (
        "REQUESTED-ADDRESS-FAMILY",
        attribute::REQUESTED_ADDRESS_FAMILY,
    ),
    ("REQUESTED-TRANSPORT", attribute::REQUESTED_TRANSPORT),
    ("XOR-MAPPED-ADDRESS", attribute::XOR_MAPPED_ADDRESS),
];

/// The errors.
const ERRORS: [ErrorCode; 10] = [
    ErrorCode::BadRequest,
    ErrorCode::Unauthenticated,
    ErrorCode::UnknownAttribute,
    ErrorCode::AllocationMismatch,
    ErrorCode::StaleNonce,
    ErrorCode::AddressFamilyNotSupported,
    ErrorCode::WrongCredentials,
    ErrorCode::UnsupportedTransport,
    ErrorCode::PeerAddressFamilyMismatch,
    ErrorCode::InsufficientCapacity,
];

/// Returns the method of a name.
pub fn method_of(name: &str) -> Result<Method> {
    let found = METHODS.iter().find(|method| method.0 == name);
    let found = found.context(format_args!("no method is called {name}"))?;
    Ok(found.1)
}

/// Returns the type of an attribute, by its name or by four digits.
pub fn attribute_of(name: &str) -> Result<u16> {
    match ATTRIBUTES.iter().find(|attribute| attribute.0 == name) {
        Some(attribute) => Ok(attribute.1),
        None => number16(name),
    }
}

/// Returns the error of a code.
pub fn error_of(code: &str) -> Result<ErrorCode> {
    let code = code.parse::<u16>().context("a code is no number")?;
    let found = ERRORS.iter().find(|error| error.code() == code);
    found.copied().context("no error has this code")
}

/// Returns what a type of messages is, and the type that this has, if it is another one.
fn type_text(alloc: Global, kind: u16) -> Result<String> {
    let Some(found) = MessageType::from_kind(kind) else {
        return Ok(String::from_str(alloc, "none")?);
    };
    let (method, class, back) = (found.method, found.class, found.kind());
    if back == kind {
        Ok(format!(in alloc; "{method:?} {class:?}")?)
    } else {
        Ok(format!(in alloc; "{method:?} {class:?} of {back:04x}")?)
    }
}

/// Returns a constant as hexadecimal digits.
fn constant(alloc: Global, name: &str) -> Result<String> {
    Ok(match name {
        "MAGIC_COOKIE" => hex::encode(alloc, MAGIC_COOKIE.to_be_bytes())?,
        "FIRST_CHANNEL_DATA" => hex::encode(alloc, FIRST_CHANNEL_DATA.to_be_bytes())?,
        "LAST_CHANNEL_DATA" => hex::encode(alloc, LAST_CHANNEL_DATA.to_be_bytes())?,
        "family::IPV4" => hex::encode(alloc, [family::IPV4])?,
        "family::IPV6" => hex::encode(alloc, [family::IPV6])?,
        _ => bail!("no constant is called {name}"),
    })
}

/// Returns the type of an attribute, and whether it is understood.
fn attribute_text(alloc: Global, name: &str) -> Result<String> {
    let kind = attribute_of(name)?;
    let understood = if is_understood(kind) {
        "understood"
    } else {
        "not understood"
    };
    Ok(format!(in alloc; "{kind:04x} {understood}")?)
}

/// Returns the answer to a row of this section.
pub fn answer(alloc: Global, row: &Row<'_>) -> Result<String> {
    let word = row.word(0)?;
    match row.kind {
        "constant" => constant(alloc, word),
        "type" => type_text(alloc, number16(word)?),
        "attribute" => attribute_text(alloc, word),
        "error" => {
            let error = error_of(word)?;
            let phrase = error.phrase();
            Ok(format!(in alloc; "{error:?}: {phrase}")?)
        }
        kind => bail!("no row is called {kind}"),
    }
}
