//! Values of attributes that are read.

use anyhow::{Result, bail};
use attributes::{
    ValueError, channel_number, lifetime, read_back, read_xor_addr, requested_family,
    requested_transport,
};
use rows::row::{Row, address, array, bytes, socket_address};
use std::alloc::Global;

/// Returns a number, or which kind of value is malformed.
fn number_text(alloc: Global, read: Result<u32, ValueError>) -> Result<String> {
    Ok(match read {
        Ok(number) => format!(in alloc; "{number}")?,
        Err(ValueError(kind)) => format!(in alloc; "malformed {kind:?}")?,
    })
}

/// Returns the number that a value of an attribute is read as.
fn number(name: &str, value: &[u8]) -> Result<Result<u32, ValueError>> {
    Ok(match name {
        "LIFETIME" => lifetime(value),
        "CHANNEL-NUMBER" => channel_number(value).map(u32::from),
        "REQUESTED-TRANSPORT" => requested_transport(value).map(u32::from),
        "REQUESTED-ADDRESS-FAMILY" => requested_family(value).map(u32::from),
        _ => bail!("no number is in {name}"),
    })
}

/// Returns the address that a value is read as under a transaction id.
fn address_text(alloc: Global, value: &[u8], tx: &[u8; 12]) -> Result<String> {
    match read_xor_addr(value, tx) {
        Ok(found) => {
            let shown = socket_address(&found);
            let is_back = read_back(&found, tx, value) == Ok(found);
            let ending = if is_back { "" } else { " not read back" };
            Ok(format!(in alloc; "{shown}{ending}")?)
        }
        Err(ValueError(kind)) => Ok(format!(in alloc; "malformed {kind:?}")?),
    }
}

/// Returns the answer to a row of this section.
pub fn answer(alloc: Global, row: &Row<'_>) -> Result<String> {
    let value = bytes(alloc, row.word(1)?)?;
    match row.kind {
        "address" => address_text(alloc, &value, &array(row.word(0)?)?),
        "number" => number_text(alloc, number(row.word(0)?, &value)?),
        kind => bail!("no row is called {kind}"),
    }
}
