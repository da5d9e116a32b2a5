//! Replies (RFC 8489, sections 6.3 and 9.2.4; RFC 8656, sections 7 to 12). There is always room for one, so none can
//! fail.

ghost use Rattle.std.specs.Prelude.{◌≡◌, ◌≤◌, ◌+◌, ◌<◌, [], ◌∷◌, take, drop, length, Ok, Err, IfOk, option_map, string_bytes};
ghost use Rattle.stun.specs.Builders.{bytes_of, parts_of, used_of, capacity_of, SameBuffer};
ghost use Rattle.stun.specs.Messages.{parts_bytes};
ghost use Rattle.credentials.specs.Keys.{key_bytes};
ghost use Rattle.stun.specs.Endian.{big_bytes};
ghost use Rattle.stun.specs.declared.registry.attribute.TheConstants.{LIFETIME as LIFETIME_TYPE};
ghost use Rattle.control.specs.Serving.{HasPort, IsKeptFrom, Pushes};
ghost use Rattle.control.specs.Lengths.{longest_grant, grant_room, longest_details, details_room};
ghost use Rattle.control.specs.Replies.{attribute, signed_if, ip6_of, relayed_address, grant_attributes, challenge, error_details, reply_to};
ghost use Rattle.control.specs.declared.config.TheConstants.{MAX_TEXT};

use crate::config::Config;
use crate::request::Request;
use crate::unknown::unknown_types;
use attributes::{Addr, Family, push_error, push_unknown, push_xor_addr};
use credentials::{Key, push_integrity};
use stun::registry::attribute::{LIFETIME, NONCE, REALM, XOR_MAPPED_ADDRESS, XOR_RELAYED_ADDRESS};
use stun::registry::{Class, ErrorCode};
use stun::{Builder, Message, begin};

/// The length of a buffer that every reply fits in, in bytes.
pub const REPLY_BYTES: usize = 1_500;

/// What a success response grants.
#[derive(Clone, Copy, Debug, PartialEq, Eq)]
pub enum Grant {
    /// The client's address, as the relay sees it.
    Mapped,
    /// An allocation of a family at a slot, for a lifetime in seconds.
    Allocated {
        family: Family,
        slot: usize,
        lifetime: u32,
    },
    /// A new lifetime of the allocation, in seconds; 0 where it was deleted.
    Refreshed {
        lifetime: u32,
    },
    /// No attributes of its own: CreatePermission and ChannelBind.
    Done,
}

/// What a reply is made from, its grant or error aside.
#[derive(Clone, Copy)]
pub(crate) struct Reply<'a> {
    /// The configuration, which has the relayed address, the realm and the nonce.
    pub(crate) config: &'a Config,
    /// The request that is answered.
    pub(crate) request: Request,
    /// The client that sent the request.
    pub(crate) client: Addr,
    /// The message that is the request.
    pub(crate) message: &'a Message<'a>,
    /// The key that the reply is signed under; `None` where it is not signed.
    pub(crate) key: Option<Key>,
}

/// Returns the relayed IPv6 address, zeros where there is none.
fn ip6_of(ip6: Option<[u8; 16]>) -> [u8; 16]
    ensures { result ≡ ip6_of ip6 }
{
    match ip6 {
        Some(ip) => ip,
        None => [0; 16],
    }
}

/// Returns the relayed address of a family at a slot.
fn relayed_address(config: &Config, family: Family, slot: usize) -> Addr
    requires port { config.now.first_port + slot < 0x10000 }
    ensures { result ≡ relayed_address config.now family slot }
{
    let port = config.first_port + slot as u16;
    match family {
        Family::Ipv4 => Addr::V4 {
            ip: config.ip,
            port,
        },
        Family::Ipv6 => Addr::V6 {
            ip: ip6_of(config.ip6),
            port,
        },
    }
}

/// Appends LIFETIME.
fn push_lifetime(builder: &mut Builder<'_>, seconds: u32)
    requires room { used_of builder.old + 11 ≤ capacity_of builder.old }
    ensures { Pushes (attribute LIFETIME_TYPE (big_bytes 4 seconds) ∷ []) 8 builder.old builder.new }
{
    let value = seconds.to_be_bytes();
    builder.push(LIFETIME, &value.as_slice());
}

/// Appends the attributes of a success response.
fn push_grant(builder: &mut Builder<'_>, config: &Config, client: &Addr, grant: Grant)
    requires room { used_of builder.old + grant_room ≤ capacity_of builder.old }
    requires port { HasPort config.now grant }
    ensures { Pushes (grant_attributes config.now client.now (parts_of builder.old).tx grant) longest_grant
        builder.old builder.new }
{
    match grant {
        Grant::Mapped => push_xor_addr(builder, XOR_MAPPED_ADDRESS, client),
        Grant::Allocated {
            family,
            slot,
            lifetime,
        } => {
            let relayed = relayed_address(config, family, slot);
            push_xor_addr(builder, XOR_RELAYED_ADDRESS, &relayed);
            push_lifetime(builder, lifetime);
            push_xor_addr(builder, XOR_MAPPED_ADDRESS, client);
        }
        Grant::Refreshed { lifetime } => push_lifetime(builder, lifetime),
        Grant::Done => {}
    }
}

/// Appends the realm and the nonce, which challenge the client to authenticate (RFC 8489, section 9.2.4).
fn push_challenge(builder: &mut Builder<'_>, config: &Config)
    requires room { used_of builder.old + details_room ≤ capacity_of builder.old }
    requires realm { length (string_bytes config.now.realm) ≤ MAX_TEXT }
    ensures { Pushes (challenge config.now) longest_details builder.old builder.new }
{
    builder.push(REALM, &config.realm.as_bytes());
    builder.push(NONCE, &config.nonce.as_bytes());
}

/// Appends what follows ERROR-CODE in an error response.
fn push_details(builder: &mut Builder<'_>, config: &Config, message: &Message<'_>, error: ErrorCode)
    requires room { used_of builder.old + details_room ≤ capacity_of builder.old }
    requires realm { length (string_bytes config.now.realm) ≤ MAX_TEXT }
    ensures { Pushes (error_details config.now message.now error) longest_details builder.old builder.new }
{
    match error {
        ErrorCode::Unauthenticated | ErrorCode::StaleNonce => push_challenge(builder, config),
        ErrorCode::UnknownAttribute => push_unknown(builder, &unknown_types(message)),
        _ => {}
    }
}

/// Signs a reply under a key, if there is one.
fn sign_if(builder: &mut Builder<'_>, key: Option<Key>)
    requires room { used_of builder.old + 27 ≤ capacity_of builder.old }
    ensures parts { parts_of builder.new ≡ signed_if (option_map key_bytes key) (parts_of builder.old) }
    ensures room { capacity_of builder.new ≡ capacity_of builder.old }
    ensures longer { used_of builder.old ≤ used_of builder.new }
    ensures kept { IsKeptFrom (used_of builder.new) (bytes_of builder.old) (bytes_of builder.new) }
    ensures same_buffer { SameBuffer builder.old builder.new }
{
    if let Some(key) = key {
        push_integrity(builder, &key);
    }
}

/// Writes the success response to a request over the first bytes of a buffer, and returns its length.
fn write_grant(out: &mut [u8], reply: &Reply<'_>, grant: Grant) -> usize
    requires room { REPLY_BYTES ≤ length out.old }
    requires port { HasPort reply.now.config.now grant }
    ensures some { 0 < result }
    ensures inside { result ≤ length out.new }
    ensures rest { drop result out.new ≡ drop result out.old }
    ensures bytes { take result out.new ≡ parts_bytes (reply_to reply.now.config.now reply.now.request reply.now.client
        reply.now.message.now (option_map key_bytes reply.now.key) (Ok grant)) }
{
    let kind = reply.request.kind(Class::Success);
    begin(out, kind, &reply.message.tx()).unwrap();
    let mut builder = Builder::resume(out);
    push_grant(&mut builder, reply.config, &reply.client, grant);
    sign_if(&mut builder, reply.key);
    builder.finish()
}

/// Writes the error response to a request over the first bytes of a buffer, and returns its length.
fn write_error(out: &mut [u8], reply: &Reply<'_>, error: ErrorCode) -> usize
    requires room { REPLY_BYTES ≤ length out.old }
    requires realm { length (string_bytes reply.now.config.now.realm) ≤ MAX_TEXT }
    ensures some { 0 < result }
    ensures inside { result ≤ length out.new }
    ensures rest { drop result out.new ≡ drop result out.old }
    ensures bytes { take result out.new ≡ parts_bytes (reply_to reply.now.config.now reply.now.request reply.now.client
        reply.now.message.now (option_map key_bytes reply.now.key) (Err error)) }
{
    let kind = reply.request.kind(Class::Error);
    begin(out, kind, &reply.message.tx()).unwrap();
    let mut builder = Builder::resume(out);
    push_error(&mut builder, error);
    push_details(&mut builder, reply.config, reply.message, error);
    sign_if(&mut builder, reply.key);
    builder.finish()
}

/// Writes the reply to a request over the first bytes of a buffer, and returns its length.
pub(crate) fn write_reply(
    out: &mut [u8],
    reply: &Reply<'_>,
    decision: Result<Grant, ErrorCode>,
) -> usize
    requires room { REPLY_BYTES ≤ length out.old }
    requires realm { length (string_bytes reply.now.config.now.realm) ≤ MAX_TEXT }
    requires port { IfOk decision (HasPort reply.now.config.now) }
    ensures some { 0 < result }
    ensures inside { result ≤ length out.new }
    ensures rest { drop result out.new ≡ drop result out.old }
    ensures bytes { take result out.new ≡ parts_bytes (reply_to reply.now.config.now reply.now.request reply.now.client
        reply.now.message.now (option_map key_bytes reply.now.key) decision) }
{
    match decision {
        Ok(grant) => write_grant(out, reply, grant),
        Err(error) => write_error(out, reply, error),
    }
}
