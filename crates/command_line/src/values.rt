//! The values that the texts of options spell. Each function returns `None` where the option is not given, and refuses
//! a text that spells none.

ghost use Rattle.std.specs.Prelude.{◌≡◌, ◌^◌, IfOk, IfErr};
ghost use Rattle.std.specs.Net.Grammar.{IsIpv4Text, IsIpv6Text};
ghost use Rattle.command_line.specs.Values.{AreOctets6, HasValue, IsBuffer, IsDecimal, IsRefusedValue, IsSeconds, text_of};

use hex::FromHex;
use std::net::{Ipv4Addr, Ipv6Addr};
use thiserror::Error;

/// The most bytes of a buffer that the system can be asked for: it takes twice as many.
const MOST_BUFFER: u64 = 0x3fff_ffff;

/// A text that spells no value of its option. Displays as the line for standard error.
#[derive(Clone, Copy, Debug, PartialEq, Eq, Error)]
#[error("error: invalid value '{text}' for '{option}'")]
pub struct OptionError<'a> {
    /// The option, as the help text writes it.
    pub option: &'static str,
    /// The text.
    pub text: &'a str,
}

/// Parses the number of an option, in decimal digits, below 2^64.
pub(crate) fn number<'a>(
    option: &'static str,
    text: Option<&'a str>,
) -> Result<Option<u64>, OptionError<'a>>
    ensures value { IfOk result (HasValue (IsDecimal (2 ^ 64)) (text_of text.entry)) }
    ensures refused { IfErr result (IsRefusedValue option.entry.now (IsDecimal (2 ^ 64)) (text_of text.entry)) }
{
    let Some(text) = text else {
        return Ok(None);
    };
    match text.parse() {
        Ok(number) => Ok(Some(number)),
        Err(_) => Err(OptionError { option, text }),
    }
}

/// Parses the number of slots of an option, or its slot, in decimal digits, below 2^64.
pub(crate) fn slots<'a>(
    option: &'static str,
    text: Option<&'a str>,
) -> Result<Option<usize>, OptionError<'a>>
    ensures value { IfOk result (HasValue (IsDecimal (2 ^ 64)) (text_of text.entry)) }
    ensures refused { IfErr result (IsRefusedValue option.entry.now (IsDecimal (2 ^ 64)) (text_of text.entry)) }
{
    let Some(text) = text else {
        return Ok(None);
    };
    match text.parse() {
        Ok(slots) => Ok(Some(slots)),
        Err(_) => Err(OptionError { option, text }),
    }
}

/// Parses the port of an option, in decimal digits, below 65,536.
pub(crate) fn port<'a>(
    option: &'static str,
    text: Option<&'a str>,
) -> Result<Option<u16>, OptionError<'a>>
    ensures value { IfOk result (HasValue (IsDecimal (2 ^ 16)) (text_of text.entry)) }
    ensures refused { IfErr result (IsRefusedValue option.entry.now (IsDecimal (2 ^ 16)) (text_of text.entry)) }
{
    let Some(text) = text else {
        return Ok(None);
    };
    match text.parse() {
        Ok(port) => Ok(Some(port)),
        Err(_) => Err(OptionError { option, text }),
    }
}

/// Parses the IPv4 address of an option: four decimal numbers below 256, without needless zeros, with dots between
/// them.
pub(crate) fn ip<'a>(
    option: &'static str,
    text: Option<&'a str>,
) -> Result<Option<Ipv4Addr>, OptionError<'a>>
    ensures value { IfOk result (HasValue IsIpv4Text (text_of text.entry)) }
    ensures refused { IfErr result (IsRefusedValue option.entry.now IsIpv4Text (text_of text.entry)) }
{
    let Some(text) = text else {
        return Ok(None);
    };
    match text.parse() {
        Ok(ip) => Ok(Some(ip)),
        Err(_) => Err(OptionError { option, text }),
    }
}

/// Parses the IPv6 address of an option, as RFC 4291, section 2.2, writes it.
pub(crate) fn ip6<'a>(
    option: &'static str,
    text: Option<&'a str>,
) -> Result<Option<Ipv6Addr>, OptionError<'a>>
    ensures value { IfOk result (HasValue IsIpv6Text (text_of text.entry)) }
    ensures refused { IfErr result (IsRefusedValue option.entry.now IsIpv6Text (text_of text.entry)) }
{
    let Some(text) = text else {
        return Ok(None);
    };
    match text.parse() {
        Ok(ip) => Ok(Some(ip)),
        Err(_) => Err(OptionError { option, text }),
    }
}

/// Parses the 16 bytes of the IPv6 address of an option, written in 32 hexadecimal digits of either case.
pub(crate) fn octets6<'a>(
    option: &'static str,
    text: Option<&'a str>,
) -> Result<Option<[u8; 16]>, OptionError<'a>>
    ensures value { IfOk result (HasValue AreOctets6 (text_of text.entry)) }
    ensures refused { IfErr result (IsRefusedValue option.entry.now AreOctets6 (text_of text.entry)) }
{
    let Some(text) = text else {
        return Ok(None);
    };
    match <[u8; 16] as FromHex>::from_hex(text) {
        Ok(octets) => Ok(Some(octets)),
        Err(_) => Err(OptionError { option, text }),
    }
}

/// Parses the seconds of an option, in decimal digits, at least 1 and below 2^64.
pub(crate) fn seconds<'a>(
    option: &'static str,
    text: Option<&'a str>,
) -> Result<Option<u64>, OptionError<'a>>
    ensures value { IfOk result (HasValue IsSeconds (text_of text.entry)) }
    ensures refused { IfErr result (IsRefusedValue option.entry.now IsSeconds (text_of text.entry)) }
{
    let Some(text) = text else {
        return Ok(None);
    };
    match text.parse() {
        Ok(seconds) if seconds > 0 => Ok(Some(seconds)),
        _ => Err(OptionError { option, text }),
    }
}

/// Parses the bytes of a buffer, in decimal digits, at least 1 and below 2^30.
pub(crate) fn buffer<'a>(
    option: &'static str,
    text: Option<&'a str>,
) -> Result<Option<i32>, OptionError<'a>>
    ensures value { IfOk result (HasValue IsBuffer (text_of text.entry)) }
    ensures refused { IfErr result (IsRefusedValue option.entry.now IsBuffer (text_of text.entry)) }
{
    let Some(text) = text else {
        return Ok(None);
    };
    let parsed: Result<u64, _> = text.parse();
    match parsed {
        Ok(bytes @ 1..=MOST_BUFFER) => Ok(Some(bytes as i32)),
        _ => Err(OptionError { option, text }),
    }
}
