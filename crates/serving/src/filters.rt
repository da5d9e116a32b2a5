//! The peers that a server sends nothing to, by its options.

use command_line::{OptionError, Options, ServerOptions};
use peer_filter::{FilterError, MAX_RULES, Network, PeerFilter, Rule, RuleAction, ServerAddresses};
use setup::CommandError;
use sockets::Addresses;
use std::alloc::Global;

/// Appends the rules of an option's networks.
fn add_rules<'a>(
    rules: &mut Vec<Rule>,
    option: &'static str,
    texts: Option<&[&'a str]>,
    action: RuleAction,
) -> Result<(), CommandError<'a>> {
    for text in texts.unwrap_or(&[]) {
        let network = match Network::parse(text) {
            Ok(network) => network,
            Err(error) => {
                return Err(CommandError::Network {
                    option,
                    text,
                    error,
                });
            }
        };
        if rules.push(Rule { network, action }).is_err() {
            return Err(CommandError::Memory);
        }
    }
    Ok(())
}

/// What the options say of the peers that a server sends to.
#[derive(Drop)]
pub(crate) struct PeerOptions {
    /// The rules of `--deny` and then those of `--allow`, so that of one network the second decides.
    rules: Vec<Rule>,
    /// The first and the last port at which the server's own addresses are peers.
    relayed_ports: (u16, u16),
}

/// Returns the rules of `--deny` and of `--allow`.
fn rules_of<'a>(alloc: Global, server: &ServerOptions<'a>) -> Result<Vec<Rule>, CommandError<'a>> {
    let mut rules = Vec::new(alloc);
    add_rules(
        &mut rules,
        "--deny <NETWORK>",
        server.deny,
        RuleAction::Deny,
    )?;
    add_rules(
        &mut rules,
        "--allow <NETWORK>",
        server.allow,
        RuleAction::Allow,
    )?;
    if rules.len() > MAX_RULES {
        return Err(CommandError::Filter(FilterError::Rules));
    }
    Ok(rules)
}

/// Parses the first and the last one of some ports, as `49152-53247`; `None` for a text that writes none.
fn ports_in(text: &str) -> Option<(u16, u16)> {
    let (first, last) = text.split_once('-')?;
    match (first.parse::<u16>(), last.parse::<u16>()) {
        (Ok(first), Ok(last)) if first <= last => Some((first, last)),
        _ => None,
    }
}

/// Returns the first and the last port at which the addresses of a server are peers: those of `--relayed-ports`, and
/// else the ones of its slots.
fn relayed_ports<'a>(
    server: &ServerOptions<'a>,
    options: &Options<'_>,
) -> Result<(u16, u16), CommandError<'a>> {
    let Some(text) = server.relayed_ports else {
        let further = u16::try_from(options.slots.saturating_sub(1)).unwrap_or(u16::MAX);
        return Ok((
            options.first_port,
            options.first_port.saturating_add(further),
        ));
    };
    let option = "--relayed-ports <P-P>";
    ports_in(text).ok_or(CommandError::Value(OptionError { option, text }))
}

/// Returns what the options say of the peers that a server sends to.
pub(crate) fn peer_options<'a>(
    alloc: Global,
    server: &ServerOptions<'a>,
    options: &Options<'_>,
) -> Result<PeerOptions, CommandError<'a>> {
    Ok(PeerOptions {
        rules: rules_of(alloc, server)?,
        relayed_ports: relayed_ports(server, options)?,
    })
}

/// Returns which peers a server sends to, whose clients' port is `port`.
pub(crate) fn filter_of(
    addresses: &Addresses,
    port: u16,
    peers: &PeerOptions,
) -> Result<PeerFilter, CommandError<'static>> {
    let server = ServerAddresses {
        listen: addresses.listen,
        listen6: addresses.listen6,
        port,
        relayed: addresses.relayed,
        relayed6: addresses.relayed6,
        relayed_ports: peers.relayed_ports,
    };
    match PeerFilter::of_server(&server, &peers.rules) {
        Ok(filter) => Ok(filter),
        Err(error) => Err(CommandError::Filter(error)),
    }
}
