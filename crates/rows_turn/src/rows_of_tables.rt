//! Tables: changes, and what look-ups find.

use anyhow::{Context, Result, bail, ensure};
use attributes::{Addr, Family};
use credentials::owner_of;
use rows::row::{Row, address, count, number, number16, socket_address};
use std::alloc::Global;
use std::fmt::Write;
use std::net::IpAddr;
use tables::{FIRST_CHANNEL, LAST_CHANNEL, TableError, Tables, Uncounted, is_ipv4};

/// The transaction id of all allocations.
const TX: [u8; 12] = [7; 12];

/// The client of `find`.
const CLIENT: Addr = Addr::V4 {
    ip: [198, 51, 100, 2],
    port: 4000,
};

/// The channel of `find`.
const CHANNEL: u16 = 0x4001;

/// The peer of `find`.
const PEER: Addr = Addr::V4 {
    ip: [192, 0, 2, 7],
    port: 5000,
};

/// Returns the IP address of an address.
fn ip_of(address: &Addr) -> IpAddr {
    socket_address(address).ip()
}

/// Parses a family.
fn family_of(word: &str) -> Result<Family> {
    match word {
        "IPv4" => Ok(Family::Ipv4),
        "IPv6" => Ok(Family::Ipv6),
        _ => bail!("no family is called {word}"),
    }
}

/// Returns the moment of a row.
fn moment(row: &Row<'_>) -> Result<u64> {
    number(row.get("at").context("there is no moment")?)
}

/// Returns the slot of a row, 0 where it names none.
fn slot(row: &Row<'_>) -> Result<usize> {
    count(row.get("slot").unwrap_or("0"))
}

/// Parses the addresses from a word on.
fn addresses(alloc: Global, words: &[&str]) -> Result<Vec<Addr>> {
    let mut addresses = Vec::new(alloc);
    for word in words {
        addresses.push(address(word)?)?;
    }
    Ok(addresses)
}

/// Returns `ok`, or why a change is refused.
fn change_text(alloc: Global, change: Result<(), TableError>) -> Result<String> {
    Ok(match change {
        Ok(()) => String::from_str(alloc, "ok")?,
        Err(error) => format!(in alloc; "{error:?}")?,
    })
}

/// Makes an allocation, and returns its slot, or why it is refused.
fn allocate(alloc: Global, tables: &mut Tables, row: &Row<'_>) -> Result<String> {
    let client = address(row.word(0)?)?;
    ensure!(is_ipv4(&client), "the client isn't one of IPv4");
    let family = family_of(row.word(1)?)?;
    let lifetime = row.word(2)?.parse::<u32>()?;
    let user = count(row.get("user").unwrap_or("0"))?;
    let owner = owner_of(row.get("owner").unwrap_or("user").as_bytes());
    let allocated = tables.allocate(moment(row)?, client, user, owner, TX, family, lifetime);
    Ok(match allocated {
        Ok(slot) => format!(in alloc; "slot {slot}")?,
        Err(error) => format!(in alloc; "{error:?}")?,
    })
}

/// Binds a channel, and returns `ok`, or why that is refused.
fn bind(alloc: Global, tables: &mut Tables, row: &Row<'_>) -> Result<String> {
    let number = number16(row.word(0)?)?;
    ensure!(
        (FIRST_CHANNEL..=LAST_CHANNEL).contains(&number),
        "no channel has this number"
    );
    let peer = address(row.word(1)?)?;
    change_text(alloc, tables.bind(moment(row)?, slot(row)?, number, peer))
}

/// Gives the user of each allocation another index: the word at the former one, `-` where there is none.
fn replace_users(alloc: Global, tables: &mut Tables, row: &Row<'_>) -> Result<String> {
    let mut indices = Vec::new(alloc);
    for word in &row.words {
        indices.push(if *word == "-" {
            None
        } else {
            Some(count(word)?)
        })?;
    }
    tables.replace_users(&indices);
    Ok(String::new(alloc))
}

/// Ends the allocations of the owners of names.
fn end_owned(alloc: Global, tables: &mut Tables, row: &Row<'_>) -> Result<String> {
    let mut owners = Vec::new(alloc);
    for word in &row.words {
        owners.push(owner_of(word.as_bytes()))?;
    }
    tables.end_owned(&owners);
    Ok(String::new(alloc))
}

/// Appends what is said of the allocation of the client, and of that of slot 0.
fn push_allocations(text: &mut String, tables: &Tables, now: u64) -> Result<()> {
    if let Some(allocation) = tables.allocation_of(CLIENT, now, &mut Uncounted) {
        let (slot, end) = (allocation.slot, allocation.end);
        write!(text, "slot {slot} until {end}, ")?;
    }
    if let Some(allocation) = tables.allocation_at(0, now) {
        let (user, lifetime) = (allocation.user, allocation.lifetime);
        write!(text, "user {user} for {lifetime}, ")?;
    }
    Ok(())
}

/// Returns what the look-ups of the client, of slot 0, of the channel and of the peer find.
fn find(alloc: Global, tables: &Tables, now: u64) -> Result<String> {
    let mut text = String::new(alloc);
    push_allocations(&mut text, tables, now)?;
    if let Some(peer) = tables.peer_of(0, CHANNEL, now, &mut Uncounted) {
        let peer = socket_address(&peer);
        write!(text, "peer {peer}, ")?;
    }
    if let Some(channel) = tables.channel_of(0, PEER, now, &mut Uncounted) {
        write!(text, "channel {channel:04x}, ")?;
    }
    if tables.permitted(0, PEER, now, &mut Uncounted) {
        text.push_str("permitted, ")?;
    }
    let found = text.strip_suffix(", ").unwrap_or("nothing");
    Ok(String::from_str(alloc, found)?)
}

/// Returns the permissions of a slot, each IP address with its end.
fn permissions(alloc: Global, tables: &Tables, row: &Row<'_>) -> Result<String> {
    let mut text = String::new(alloc);
    for permission in tables.permissions(slot(row)?, moment(row)?).iter() {
        let (ip, end) = (ip_of(&permission.ip), permission.end);
        write!(text, "{ip}@{end} ")?;
    }
    Ok(String::from_str(alloc, text.strip_suffix(' ').unwrap_or("none"))?)
}

/// Returns the channels of a slot, each number with its peer and its end.
fn channels(alloc: Global, tables: &Tables, row: &Row<'_>) -> Result<String> {
    let mut text = String::new(alloc);
    for channel in tables.channels(slot(row)?, moment(row)?).iter() {
        let (number, peer) = (channel.number, socket_address(&channel.binding.peer));
        let end = channel.binding.end;
        write!(text, "{number:04x}={peer}@{end} ")?;
    }
    Ok(String::from_str(alloc, text.strip_suffix(' ').unwrap_or("none"))?)
}

/// Returns the client and the family of the allocation of a slot.
fn allocation(alloc: Global, tables: &Tables, row: &Row<'_>) -> Result<String> {
    let Some(allocation) = tables.allocation_at(slot(row)?, moment(row)?) else {
        return Ok(String::from_str(alloc, "none")?);
    };
    let client = socket_address(&allocation.client);
    let family = match allocation.family {
        Family::Ipv4 => "IPv4",
        Family::Ipv6 => "IPv6",
    };
    Ok(format!(in alloc; "{client} {family}")?)
}

/// Returns what a look-up of one channel or peer finds, and how many are counted.
fn look_up(alloc: Global, tables: &Tables, row: &Row<'_>) -> Result<String> {
    let (slot, now) = (slot(row)?, moment(row)?);
    let found = match row.kind {
        "peer-of" => match tables.peer_of(slot, number16(row.word(0)?)?, now, &mut Uncounted) {
            Some(peer) => {
                let peer = socket_address(&peer);
                format!(in alloc; "{peer}")?
            }
            None => String::from_str(alloc, "none")?,
        },
        "channel-of" => match tables.channel_of(slot, address(row.word(0)?)?, now, &mut Uncounted) {
            Some(number) => format!(in alloc; "{number:04x}")?,
            None => String::from_str(alloc, "none")?,
        },
        "permitted" => {
            let is_permitted = tables.permitted(slot, address(row.word(0)?)?, now, &mut Uncounted);
            String::from_str(alloc, if is_permitted { "yes" } else { "no" })?
        }
        "allocations-of" => {
            let count = tables.allocations_of(&owner_of(row.word(0)?.as_bytes()), now);
            format!(in alloc; "{count}")?
        }
        "channel-count" => {
            let count = tables.channels(slot, now).len();
            format!(in alloc; "{count}")?
        }
        kind => bail!("no row is called {kind}"),
    };
    Ok(found)
}

/// Returns the answer to a row over some tables.
fn answer_over(alloc: Global, tables: &mut Tables, row: &Row<'_>) -> Result<String> {
    match row.kind {
        "allocate" => allocate(alloc, tables, row),
        "refresh" => {
            let lifetime = row.word(0)?.parse::<u32>()?;
            change_text(alloc, tables.refresh(moment(row)?, slot(row)?, lifetime))
        }
        "permit" => {
            let peers = addresses(alloc, &row.words)?;
            change_text(alloc, tables.permit(moment(row)?, slot(row)?, &peers))
        }
        "bind" => bind(alloc, tables, row),
        "replace-users" => replace_users(alloc, tables, row),
        "end-owned" => end_owned(alloc, tables, row),
        "find" => find(alloc, tables, moment(row)?),
        "permissions" => permissions(alloc, tables, row),
        "channels" => channels(alloc, tables, row),
        "allocation" => allocation(alloc, tables, row),
        _ => look_up(alloc, tables, row),
    }
}

/// Returns the answer to a row of this section. `tables` begins anew, with so many slots.
pub fn answer(alloc: Global, tables: &mut Option<Tables>, row: &Row<'_>) -> Result<String> {
    if row.kind == "tables" {
        let slots = count(row.word(0)?)?;
        ensure!((1..=256).contains(&slots), "a wrong number of slots");
        *tables = Some(Tables::new(alloc, slots)?);
        return Ok(String::new(alloc));
    }
    answer_over(alloc, tables.as_mut().context("no tables have begun")?, row)
}
