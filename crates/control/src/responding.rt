//! The answers to messages.

ghost use Rattle.std.specs.Prelude.{◌≡◌, ◌≤◌, ◌<◌, ◌+◌, None, length, take, IfOk, IfSome, IsTrue, drop, option_map, string_bytes};
ghost use Rattle.std.specs.Result.{result_map_both};
ghost use Rattle.credentials.specs.Checks.{account_of};
ghost use Rattle.credentials.specs.TimeLimited.{limits_of};
ghost use Rattle.tables.specs.Moments.{moment_of};
ghost use Rattle.tables.specs.Rows.{rows_at};
ghost use Rattle.control.specs.Configs.{fault};
ghost use Rattle.control.specs.Control.{decision_if_understood, refused_credentials};
ghost use Rattle.control.specs.Serving.{Gives, HasSlotBelow};
ghost use Rattle.tables.specs.Addresses.{is_ipv4};
ghost use Rattle.control.specs.Responding.{user_held, time_at, directory_under, check_under, check_under_each, is_revoked, check_of, IsCheckedAnswer, Responds, count_of, response_in};
ghost use Rattle.control.specs.declared.config.TheConstants.{MAX_TEXT};
ghost use Rattle.control.specs.declared.reply.TheConstants.{REPLY_BYTES};

use crate::allocate::{allocate, owner_in};
use crate::binding::binding;
use crate::channel_bind::channel_bind;
use crate::config::Config;
use crate::create_permission::create_permission;
use crate::refresh::refresh;
use crate::reply::{Grant, Reply, write_reply};
use crate::request::{Request, TurnRequest};
use crate::response::{Response, Written, response_of};
use crate::unknown::check_understood;
use attributes::Addr;
use credentials::{AuthError, Authenticated, Directory, TimeLimited, authenticate};
use stun::Message;
use stun::registry::ErrorCode;
use tables::{Tables, Uncounted, is_ipv4};

/// A message of a client at a moment.
#[derive(Clone, Copy)]
struct ClientMessage<'a> {
    /// The client that sent the message.
    client: Addr,
    /// The message.
    message: &'a Message<'a>,
    /// The moment, in seconds.
    moment: u64,
}

/// Returns the error of credentials that are refused.
fn refused_credentials(error: AuthError) -> ErrorCode
    ensures { result ≡ refused_credentials error }
{
    match error {
        AuthError::Missing
        | AuthError::UnknownUser
        | AuthError::WrongIntegrity
        | AuthError::Expired => ErrorCode::Unauthenticated,
        AuthError::Incomplete => ErrorCode::BadRequest,
        AuthError::StaleNonce => ErrorCode::StaleNonce,
    }
}

/// Answers a request of TURN of a user whose credentials were accepted.
///
/// # Errors
/// The error of the first test that fails.
fn serve(
    tables: &mut Tables,
    config: &Config,
    request: TurnRequest,
    user: usize,
    arrival: &ClientMessage<'_>,
) -> Result<Grant, ErrorCode>
    requires ipv4 { IsTrue (is_ipv4 arrival.now.client) }
    ensures gives { Gives (decision_if_understood request config.now arrival.now.client user arrival.now.message.now
        (rows_at arrival.now.moment tables.old)) tables.old result tables.new }
    ensures inside { IfOk result (HasSlotBelow (length tables.old.slots)) }
    ensures moment { (tables.old.moment ≤ tables.new.moment)
        × (tables.new.moment ≤ moment_of tables.old.moment arrival.now.moment) }
    ensures slots { length tables.new.slots ≡ length tables.old.slots }
{
    let (client, message, now) = (arrival.client, arrival.message, arrival.moment);
    check_understood(message)?;
    match request {
        TurnRequest::Allocate => allocate(tables, config, client, user, message, now),
        TurnRequest::Refresh => refresh(tables, client, user, message, now),
        TurnRequest::CreatePermission => create_permission(tables, client, user, message, now),
        TurnRequest::ChannelBind => channel_bind(tables, client, user, message, now),
    }
}

/// Returns the user of the allocation that a client has at a moment, if it has one.
fn user_held(tables: &Tables, client: Addr, now: u64) -> Option<usize>
    ensures { result ≡ user_held client (rows_at now tables.now) }
{
    let allocation = tables.allocation_of(client, now, &mut Uncounted)?;
    Some(allocation.user)
}

/// Returns the time by the system's clock at a moment, in seconds since 1970.
/// See docs/DECISIONS.md, "Names expire by the system's clock".
fn time_at(config: &Config, now: u64) -> u64
    ensures { result ≡ time_at config.now now }
{
    now.saturating_add_signed(config.clock_ahead)
}

/// Returns what time-limited credentials are checked with at a moment under a secret; `None` where there is none.
fn time_limited<'a>(
    config: &Config,
    secret: &'a Option<Vec<u8>>,
    held: Option<usize>,
    now: u64,
) -> Option<TimeLimited<'a>>
    ensures { option_map limits_of result ≡ (directory_under config.now secret.now now held).limits }
{
    match secret {
        Some(secret) => Some(TimeLimited {
            secret,
            time: time_at(config, now),
            held,
        }),
        None => None,
    }
}

/// Checks the credentials of a request with the realm, the users and the nonce of a configuration, and with a secret,
/// if there is one. `held` is the user of the client's allocation, if it has one.
///
/// # Errors
/// The first test that fails, in the order of [`AuthError`].
fn check_under(
    config: &Config,
    secret: &Option<Vec<u8>>,
    held: Option<usize>,
    arrival: &ClientMessage<'_>,
) -> Result<Authenticated, AuthError>
    ensures { result_map_both account_of (λ e. e) result
        ≡ check_under config.now secret.now arrival.now.moment held arrival.now.message.now }
{
    let directory = Directory {
        users: &config.users,
        time_limited: time_limited(config, secret, held, arrival.moment),
    };
    authenticate(
        arrival.message,
        &config.realm,
        &directory,
        config.nonce.as_str(),
    )
}

/// Checks the credentials of a request under the secret of a configuration, and where they are refused under its former
/// one, if it has one.
///
/// # Errors
/// The first test that fails under the secret.
fn check_under_each(
    config: &Config,
    held: Option<usize>,
    arrival: &ClientMessage<'_>,
) -> Result<Authenticated, AuthError>
    ensures { result_map_both account_of (λ e. e) result
        ≡ check_under_each config.now arrival.now.moment held arrival.now.message.now }
{
    let checked = check_under(config, &config.secret, held, arrival);
    if checked.is_ok() || config.former_secret.is_none() {
        return checked;
    }
    match check_under(config, &config.former_secret, held, arrival) {
        Ok(authenticated) => Ok(authenticated),
        Err(_) => checked,
    }
}

/// Returns whether the credentials of the user whose name a request gives are revoked.
fn is_revoked(config: &Config, message: &Message<'_>) -> bool
    ensures { result ≡ is_revoked config.now message.now }
{
    let owner = owner_in(message);
    config.revoked.iter().any(|revoked| *revoked == owner)
}

/// Checks the credentials of a request that a client sent, with the realm, the users, the secrets and the nonce of a
/// configuration.
///
/// # Errors
/// The first test that fails, in the order of [`AuthError`]; a user that is revoked is unknown.
fn check_credentials(
    tables: &Tables,
    config: &Config,
    arrival: &ClientMessage<'_>,
) -> Result<Authenticated, AuthError>
    ensures { result_map_both account_of (λ e. e) result ≡ check_of config.now arrival.now.moment arrival.now.client
        arrival.now.message.now tables.now }
{
    let held = user_held(tables, arrival.client, arrival.moment);
    let authenticated = check_under_each(config, held, arrival)?;
    if is_revoked(config, arrival.message) {
        return Err(AuthError::UnknownUser);
    }
    Ok(authenticated)
}

/// Answers a request of TURN, and returns what was written.
fn answer_user(
    tables: &mut Tables,
    config: &Config,
    request: TurnRequest,
    arrival: &ClientMessage<'_>,
    out: &mut [u8],
) -> Written
    requires room { REPLY_BYTES ≤ length out.old }
    requires ipv4 { IsTrue (is_ipv4 arrival.now.client) }
    requires realm { length (string_bytes config.now.realm) ≤ MAX_TEXT }
    requires ports { config.now.first_port + config.now.slots ≤ 0x10000 }
    requires slots { length tables.old.slots ≡ config.now.slots }
    ensures some { 0 < result.count }
    ensures inside { result.count ≤ length out.new }
    ensures rest { drop result.count out.new ≡ drop result.count out.old }
    ensures answer { IsCheckedAnswer config.now arrival.now.moment request arrival.now.client arrival.now.message.now
        (check_of config.now arrival.now.moment arrival.now.client arrival.now.message.now tables.old)
        tables.old tables.new (take result.count out.new) result.response }
    ensures moment { (tables.old.moment ≤ tables.new.moment)
        × (tables.new.moment ≤ moment_of tables.old.moment arrival.now.moment) }
    ensures slots { length tables.new.slots ≡ length tables.old.slots }
{
    let unsigned = Reply {
        config,
        request: Request::Turn(request),
        client: arrival.client,
        message: arrival.message,
        key: None,
    };
    match check_credentials(tables, config, arrival) {
        Ok(authenticated) => {
            let user = authenticated.user;
            let decision = serve(tables, config, request, user, arrival);
            let key = Some(authenticated.key);
            Written {
                count: write_reply(out, &Reply { key, ..unsigned }, decision),
                response: response_of(decision),
            }
        }
        Err(error) => Written {
            count: write_reply(out, &unsigned, Err(refused_credentials(error))),
            response: Response::Unauthenticated(error),
        },
    }
}

/// Answers a message of a client at a moment, in seconds: changes the tables, writes the reply over the first bytes of
/// `out`, and returns its length and what it says; `None` is no reply. Requests of the methods Binding, Allocate,
/// Refresh, CreatePermission and ChannelBind are answered, and those of clients over IPv4 alone; nothing else changes
/// anything. An error response changes no table.
///
/// `out` has at least [`REPLY_BYTES`](crate::REPLY_BYTES) bytes, which every reply fits in; the configuration has no
/// fault, and the tables have its slots.
pub fn respond(
    tables: &mut Tables,
    config: &Config,
    now: u64,
    client: Addr,
    message: &Message<'_>,
    out: &mut [u8],
) -> Option<Written>
    requires room { REPLY_BYTES ≤ length out.old }
    requires config { fault config.now ≡ None }
    requires slots { length tables.old.slots ≡ config.now.slots }
    ensures some { IfSome result (λ w. 0 < w.count) }
    ensures inside { count_of result ≤ length out.new }
    ensures rest { drop (count_of result) out.new ≡ drop (count_of result) out.old }
    ensures responds { Responds config.now now client message.now tables.old tables.new (take (count_of result) out.new)
        (response_in result) }
    ensures moment { (tables.old.moment ≤ tables.new.moment)
        × (tables.new.moment ≤ moment_of tables.old.moment now) }
    ensures slots { length tables.new.slots ≡ length tables.old.slots }
{
    let request = Request::of(message)?;
    if !is_ipv4(&client) {
        return None;
    }
    match request {
        Request::Binding => {
            let reply = Reply {
                config,
                request,
                client,
                message,
                key: None,
            };
            let decision = binding(message);
            Some(Written {
                count: write_reply(out, &reply, decision),
                response: response_of(decision),
            })
        }
        Request::Turn(turn) => {
            let arrival = ClientMessage {
                client,
                message,
                moment: now,
            };
            Some(answer_user(tables, config, turn, &arrival, out))
        }
    }
}
