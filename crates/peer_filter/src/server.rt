//! The filter of a server, by where it listens and from where it relays.

ghost use Rattle.std.specs.Prelude.{◌≡◌, ◌≤◌, ◌<◌, ◌+◌, ◌++◌, ◌↔◌, IsTrue, filter, length};
ghost use Rattle.std.specs.Net.Addr.{IsLoopbackV4};
ghost use Rattle.std.specs.Option.{option_to_list};
ghost use Rattle.peer_filter.specs.Servers.{clients_at, is_foreign, outside, with_clients, AreForClients, IsClientPort, IsFilterOf, IsLoopbackAt6, IsOutsideV4, IsOutsideV6};
ghost use Rattle.peer_filter.specs.declared.filter.TheConstants.{MAX_ALL_RULES, MAX_ENDPOINTS};

use crate::filter::{FilterError, MAX_ALL_RULES, MAX_ENDPOINTS, PeerFilter, default_rules};
use crate::rule::{Loopback, Rule, ServerEndpoint};
use arrayvec::ArrayVec;
use attributes::{Addr, Family};
use std::net::{Ipv4Addr, Ipv6Addr};

/// Endpoints of a server.
type OwnEndpoints = ArrayVec<ServerEndpoint, MAX_ENDPOINTS>;

/// Where a server listens, and from where it relays.
#[derive(Clone, Copy)]
pub struct ServerAddresses {
    /// The IPv4 address that it listens at for clients and for peers.
    pub listen: Ipv4Addr,
    /// The IPv6 address that it listens at for peers, if there is one.
    pub listen6: Option<Ipv6Addr>,
    /// The port for clients.
    pub port: u16,
    /// The relayed IPv4 address.
    pub relayed: Ipv4Addr,
    /// The relayed IPv6 address, if there is one.
    pub relayed6: Option<Ipv6Addr>,
    /// The first port at which the server's addresses are peers, and the last one.
    pub relayed_ports: (u16, u16),
}

/// Returns at which loopback addresses a server listens.
fn loopback_of(server: &ServerAddresses) -> Loopback
    ensures ipv4 { IsTrue result.ipv4 ↔ IsLoopbackV4 server.now.listen }
    ensures ipv6 { IsTrue result.ipv6 ↔ IsLoopbackAt6 server.now.listen6 }
{
    let ipv6 = match server.listen6 {
        Some(ip) => ip.is_loopback(),
        None => false,
    };
    Loopback {
        ipv4: server.listen.is_loopback(),
        ipv6,
    }
}

/// Returns an IPv4 address with the clients' port.
fn clients_at(server: &ServerAddresses, ip: Ipv4Addr) -> ServerEndpoint
    ensures { result ≡ clients_at server.now ip }
{
    ServerEndpoint::At(Addr::V4 {
        ip: ip.octets(),
        port: server.port,
    })
}

/// Returns the clients' port of any address where a server listens at all of them, and else of the one that it listens
/// at and of the relayed one.
fn client_endpoints(server: &ServerAddresses) -> OwnEndpoints
    ensures own { IsClientPort server.now result.items }
    ensures few { length result.items ≤ 2 }
{
    let mut own = ArrayVec::new();
    if server.listen.is_unspecified() {
        own.push(ServerEndpoint::Port(server.port));
    } else {
        own.push(clients_at(server, server.listen));
        own.push(clients_at(server, server.relayed));
    }
    own
}

/// Returns the ports of an IP address of a server at which nothing is relayed.
fn outside(server: &ServerAddresses, ip: Addr) -> ServerEndpoint
    ensures { result ≡ outside server.now ip }
{
    let (first, last) = server.relayed_ports;
    ServerEndpoint::Outside { ip, first, last }
}

/// Returns the ports of an IPv4 address of a server at which no peer is; none of a loopback or an unspecified
/// address.
fn outside_v4(server: &ServerAddresses, ip: Ipv4Addr) -> Option<ServerEndpoint>
    ensures { IsOutsideV4 server.now ip result }
{
    if ip.is_loopback() || ip.is_unspecified() {
        return None;
    }
    let ip = ip.octets();
    Some(outside(server, Addr::V4 { ip, port: 0 }))
}

/// Returns the ports of an IPv6 address of a server at which no peer is; none of a loopback or an unspecified
/// address.
fn outside_v6(server: &ServerAddresses, ip: Option<Ipv6Addr>) -> Option<ServerEndpoint>
    ensures { IsOutsideV6 server.now ip result }
{
    let ip = ip?;
    if ip.is_loopback() || ip.is_unspecified() {
        return None;
    }
    let ip = ip.octets();
    Some(outside(server, Addr::V6 { ip, port: 0 }))
}

/// Appends an endpoint, if there is one.
fn push_some(own: &mut OwnEndpoints, endpoint: Option<ServerEndpoint>)
    requires { length own.old.items < MAX_ENDPOINTS }
    ensures own { own.new.items ≡ own.old.items ++ option_to_list endpoint }
    ensures few { length own.new.items ≤ length own.old.items + 1 }
{
    if let Some(endpoint) = endpoint {
        own.push(endpoint);
    }
}

/// Returns whether a rule is for a network of IPv4 that a server doesn't listen in.
fn is_foreign(server: &ServerAddresses, rule: &Rule) -> bool
    ensures { result ≡ is_foreign server.now rule.now }
{
    let ip = server.listen.octets();
    rule.network.is_of_family(Family::Ipv4) && !rule.network.contains(&Addr::V4 { ip, port: 0 })
}

/// Returns those of some rules that are for networks of IPv4 which a server doesn't listen in.
fn foreign_of(server: &ServerAddresses, rules: &[Rule]) -> ArrayVec<Rule, MAX_ALL_RULES>
    requires { length rules.now ≤ MAX_ALL_RULES }
    ensures { result.items ≡ filter (is_foreign server.now) rules.now }
{
    let mut foreign = ArrayVec::new();
    for rule in rules {
        if is_foreign(server, rule) {
            foreign.push(*rule);
        }
    }
    foreign
}

/// Returns the rules for clients: of those that hold without options, the ones for networks that the server isn't in;
/// none where it listens at all addresses.
fn rules_for_clients(server: &ServerAddresses) -> ArrayVec<Rule, MAX_ALL_RULES>
    ensures { AreForClients server.now result.items }
{
    if server.listen.is_unspecified() {
        return ArrayVec::new();
    }
    let all = default_rules(Loopback {
        ipv4: false,
        ipv6: false,
    });
    foreign_of(server, &all)
}

/// Gives the filter that is made its rules for clients.
fn with_clients(
    made: Result<PeerFilter, FilterError>,
    clients: ArrayVec<Rule, MAX_ALL_RULES>,
) -> Result<PeerFilter, FilterError>
    ensures { result ≡ with_clients clients.items made }
{
    let mut filter = made?;
    filter.clients = clients;
    Ok(filter)
}

impl PeerFilter {
    /// Makes the filter of a server: nothing is sent to the clients' port of the address that it listens at and of the
    /// relayed one, or to that port of any address where it listens at all of them; nor to another port of an address
    /// of its own than those at which it relays, unless it is a loopback address; nor to loopback addresses of a
    /// family, unless it listens at one; and else the rules decide. Nothing is sent to clients at addresses that are
    /// denied without options, unless the server listens in their network, or at all addresses.
    /// See docs/DECISIONS.md, "Peers that nothing is sent to".
    ///
    /// # Errors
    /// `Rules` for more than [`MAX_RULES`](crate::MAX_RULES) rules.
    pub fn of_server(server: &ServerAddresses, rules: &[Rule]) -> Result<PeerFilter, FilterError>
        ensures { IsFilterOf server.now rules.now result }
    {
        let mut own = client_endpoints(server);
        push_some(&mut own, outside_v4(server, server.listen));
        push_some(&mut own, outside_v4(server, server.relayed));
        push_some(&mut own, outside_v6(server, server.listen6));
        push_some(&mut own, outside_v6(server, server.relayed6));
        let made = PeerFilter::new(loopback_of(server), &own, rules);
        with_clients(made, rules_for_clients(server))
    }
}
