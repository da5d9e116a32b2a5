//! Networks, and which peers a filter allows.

use anyhow::{Context, Result, bail};
use peer_filter::{
    FilterError, Loopback, Network, NetworkError, PeerFilter, Rule, RuleAction, ServerAddresses,
    ServerEndpoint,
};
use rows::row::{Row, address, count, text};
use std::alloc::Global;
use std::net::Ipv6Addr;

/// Returns a network, its address as a hexadecimal number, or why a text is none.
fn network(alloc: Global, written: &str) -> Result<String> {
    Ok(match Network::parse(written) {
        Ok(Network::V4 { address, bits }) => format!(in alloc; "IPv4 {address:x}/{bits}")?,
        Ok(Network::V6 { address, bits }) => format!(in alloc; "IPv6 {address:x}/{bits}")?,
        Err(error) => format!(in alloc; "{error:?}")?,
    })
}

/// Returns the text of an error.
fn error_text(alloc: Global, name: &str) -> Result<String> {
    Ok(match name {
        "NotANetwork" => format!(in alloc; "{}", NetworkError::NotANetwork)?,
        "Bits" => format!(in alloc; "{}", NetworkError::Bits)?,
        "HostBits" => format!(in alloc; "{}", NetworkError::HostBits)?,
        "Rules" => format!(in alloc; "{}", FilterError::Rules)?,
        "Endpoints" => format!(in alloc; "{}", FilterError::Endpoints)?,
        _ => bail!("no error is called {name}"),
    })
}

/// Parses a rule: a network, with `-` before it to deny it and `+` to allow it.
fn rule(word: &str) -> Result<Rule> {
    let (action, network) = match word.strip_prefix('-') {
        Some(network) => (RuleAction::Deny, network),
        None => (
            RuleAction::Allow,
            word.strip_prefix('+').context("no rule")?,
        ),
    };
    Ok(Rule {
        network: Network::parse(network)?,
        action,
    })
}

/// Parses the rules of a row, the words after the peer.
fn rules(alloc: Global, row: &Row<'_>) -> Result<Vec<Rule>> {
    let mut rules = Vec::new(alloc);
    for word in row.words.iter().skip(1) {
        rules.push(rule(word)?)?;
    }
    Ok(rules)
}

/// Parses the first and the last one of some ports, as `49152-49407`.
fn ports(word: &str) -> Result<(u16, u16)> {
    let (first, last) = word.split_once('-').context("no ports")?;
    Ok((first.parse()?, last.parse()?))
}

/// Parses an endpoint of the server: an address, or a port of every address; or an address and the ports at which it is
/// a peer.
fn endpoint(word: &str) -> Result<ServerEndpoint> {
    if let Some((ip, relayed)) = word.split_once('/') {
        let (first, last) = ports(relayed)?;
        let ip = address(ip)?;
        return Ok(ServerEndpoint::Outside { ip, first, last });
    }
    match word.parse::<u16>() {
        Ok(port) => Ok(ServerEndpoint::Port(port)),
        Err(_) => Ok(ServerEndpoint::At(address(word)?)),
    }
}

/// Parses the endpoints of a row.
fn endpoints(alloc: Global, row: &Row<'_>) -> Result<Vec<ServerEndpoint>> {
    let mut endpoints = Vec::new(alloc);
    for &(key, value) in &row.pairs {
        if key == "own" {
            endpoints.push(endpoint(value)?)?;
        }
    }
    Ok(endpoints)
}

/// Returns whether the filter of a row allows its peer.
fn peer(alloc: Global, row: &Row<'_>) -> Result<String> {
    let listens = row.get("loopback") == Some("both");
    let loopback = Loopback {
        ipv4: listens,
        ipv6: listens,
    };
    let (own, rules) = (endpoints(alloc, row)?, rules(alloc, row)?);
    let filter = PeerFilter::new(loopback, &own, &rules)?;
    let allows = filter.allows(&address(row.word(0)?)?);
    Ok(String::from_str(alloc, if allows { "allowed" } else { "denied" })?)
}

/// Returns whether the filter of a server without rules of its operator allows the peer, or the client, of a row.
fn of_server(alloc: Global, row: &Row<'_>) -> Result<String> {
    let listen = row.get("listen").context("no address")?;
    let server = ServerAddresses {
        listen: listen.parse()?,
        listen6: ip6(row, "listen6")?,
        port: row.get("port").unwrap_or("3478").parse()?,
        relayed: row.get("relayed").unwrap_or(listen).parse()?,
        relayed6: ip6(row, "relayed6")?,
        relayed_ports: ports(row.get("ports").unwrap_or("49152-49407"))?,
    };
    let filter = PeerFilter::of_server(&server, &[])?;
    let address = address(row.word(0)?)?;
    let allows = if row.kind == "server-peer" {
        filter.allows(&address)
    } else {
        filter.allows_client(&address)
    };
    Ok(String::from_str(alloc, if allows { "allowed" } else { "denied" })?)
}

/// Returns an IPv6 address of a row, if it has it.
fn ip6(row: &Row<'_>, key: &str) -> Result<Option<Ipv6Addr>> {
    match row.get(key) {
        Some(text) => Ok(Some(text.parse()?)),
        None => Ok(None),
    }
}

/// Returns whether a filter of so many rules and endpoints is made.
fn filter(alloc: Global, row: &Row<'_>) -> Result<String> {
    let rules = Vec::from_elem(alloc, Rule::default(), count(row.word(0)?)?)?;
    let own = Vec::from_elem(alloc, ServerEndpoint::default(), count(row.word(1)?)?)?;
    let elsewhere = Loopback {
        ipv4: false,
        ipv6: false,
    };
    Ok(match PeerFilter::new(elsewhere, &own, &rules) {
        Ok(_) => String::from_str(alloc, "made")?,
        Err(error) => format!(in alloc; "{error:?}")?,
    })
}

/// Returns the answer to a row of this section.
pub fn answer(alloc: Global, row: &Row<'_>) -> Result<String> {
    match row.kind {
        "network" => network(alloc, &text(alloc, row.word(0)?)?),
        "error-text" => error_text(alloc, row.word(0)?),
        "peer" => peer(alloc, row),
        "server-peer" | "server-client" => of_server(alloc, row),
        "filter" => filter(alloc, row),
        kind => bail!("no row is called {kind}"),
    }
}
