//! The tables that helpers look up in.

ghost use Rattle.std.specs.Prelude.{IsTrue};
ghost use Rattle.tables.specs.Addresses.{is_ipv4};

use anyhow::Result;
use attributes::{Addr, Family};
use std::alloc::Global;
use tables::{FIRST_CHANNEL, Tables};

/// The moment of all runs, in seconds.
pub const NOW: u64 = 1000;

/// The lifetime of the allocation, in seconds.
const LIFETIME: u32 = 3600;

/// Returns the client that has an allocation.
pub fn client() -> Addr
    ensures { IsTrue (is_ipv4 result) }
{
    Addr::V4 {
        ip: [198, 51, 100, 1],
        port: 4000,
    }
}

/// Returns the peer that has a permission and a channel.
pub fn peer() -> Addr
    ensures { IsTrue (is_ipv4 result) }
{
    Addr::V4 {
        ip: [192, 0, 2, 1],
        port: 5000,
    }
}

/// Returns the peer of the worked session, which has a permission and the second channel.
pub fn other_peer() -> Addr
    ensures { IsTrue (is_ipv4 result) }
{
    Addr::V4 {
        ip: [192, 0, 2, 7],
        port: 5000,
    }
}

/// Makes tables with one allocation, in slot 0, that has a permission and the first channel.
///
/// # Errors
/// Where memory runs out.
pub fn tables(alloc: Global) -> Result<Tables> {
    let mut tables = Tables::new(alloc, 2)?;
    let slot = tables.allocate(NOW, client(), 0, [0; 20], [1; 12], Family::Ipv4, LIFETIME)?;
    tables.bind(NOW, slot, FIRST_CHANNEL, peer())?;
    Ok(tables)
}

/// Makes the tables of the worked session, in which the allocation has the second channel.
///
/// # Errors
/// Where memory runs out.
pub fn worked_tables(alloc: Global) -> Result<Tables> {
    let mut tables = Tables::new(alloc, 2)?;
    let slot = tables.allocate(NOW, client(), 0, [0; 20], [1; 12], Family::Ipv4, LIFETIME)?;
    tables.bind(NOW, slot, FIRST_CHANNEL + 1, other_peer())?;
    Ok(tables)
}
