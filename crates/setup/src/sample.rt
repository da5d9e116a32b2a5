//! The relay that tests and measurements run: one user, and the shipped programs.

ghost use Rattle.std.specs.Prelude.{◌≡◌, IfOk};
ghost use Rattle.relay.specs.Shipped.{AreShipped};

use anyhow::{Context, Result};
use arrayvec::ArrayString;
use control::Config;
use credentials::User;
use loader::load;
use programs::{CLIENT, PEER};
use relay::Relay;
use std::alloc::{AllocError, Global};

/// Returns a configuration with this relayed IPv4 address and this many slots: ports from 49152 on, the realm `relay`,
/// the nonce `n1`, and the user `u` with the password `p`.
pub fn config(alloc: Global, ip: [u8; 4], slots: usize) -> Result<Config, AllocError>
    ensures ip { IfOk result (λ config. config.ip ≡ ip) }
    ensures slots { IfOk result (λ config. config.slots ≡ slots) }
{
    let mut users = Vec::new(alloc);
    users.push(User {
        name: String::from_str(alloc, "u")?,
        password: String::from_str(alloc, "p")?,
    })?;
    let mut nonce = ArrayString::new();
    let _ = nonce.try_push_str("n1");
    Ok(Config {
        ip,
        ip6: None,
        first_port: 49152,
        slots,
        user_slots: None,
        realm: String::from_str(alloc, "relay")?,
        nonce,
        users,
        secret: None,
        former_secret: None,
        revoked: Vec::new(alloc),
        clock_ahead: 0,
    })
}

/// Makes a relay with the shipped programs.
///
/// # Errors
/// Where a program is refused, where a field of the configuration lies outside its limits, and where memory runs out.
pub fn shipped(alloc: Global, config: Config) -> Result<Relay>
    ensures config { IfOk result (λ relay. relay.config ≡ config) }
    ensures programs { IfOk result (λ relay. AreShipped relay.programs) }
{
    let client = load(alloc, CLIENT).context("the program of the client's side")?;
    let peer = load(alloc, PEER).context("the program of the peers' side")?;
    let relay = Relay::new(alloc, config, client, peer)?;
    Ok(relay)
}
