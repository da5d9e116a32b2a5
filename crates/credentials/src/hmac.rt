//! HMAC over SHA-1 (RFC 2104).

ghost use Rattle.std.specs.Prelude.{◌≡◌, ◌≤◌, ◌++◌, ℕ, List, length, map, drop};
ghost use Rattle.std.specs.List.{concat};
ghost use Rattle.sha1.specs.Sha1.{Holds};
ghost use Rattle.credentials.specs.Hmac.{short_key, block_of, block_with_pad, hmac};

use sha1::Sha1;

/// The length of a block of the hash, in bytes.
const BLOCK: usize = 64;

const INNER_PAD: u8 = 0x36;

const OUTER_PAD: u8 = 0x5c;

/// Overwrites the first bytes of a slice.
fn write_front(bytes: &mut [u8], front: &[u8])
    requires { length front.now ≤ length bytes.old }
    ensures { bytes.new ≡ front.now ++ drop (length front.now) bytes.old }
{
    let (begin, _) = bytes.split_at_mut(front.len());
    begin.copy_from_slice(front);
}

/// Returns a key of at most a block, filled with zeros to a block.
fn filled(key: &[u8]) -> [u8; BLOCK]
    requires { length key.now ≤ 64 }
    ensures { result ≡ block_of key.now }
{
    let mut block = [0; BLOCK];
    write_front(&mut block, key);
    block
}

/// Returns a key, hashed where it is longer than a block, filled with zeros to a block.
fn block_of(key: &[u8]) -> [u8; BLOCK]
    ensures { result ≡ block_of (short_key key.now) }
{
    if key.len() <= BLOCK {
        filled(key)
    } else {
        filled(&Sha1::digest(key))
    }
}

/// Xors each byte with a pad.
fn pad_bytes(bytes: &mut [u8], pad: u8)
    ensures { bytes.new ≡ block_with_pad pad bytes.old }
{
    for byte in bytes.iter_mut() {
        *byte ^= pad;
    }
}

/// Returns a block with each byte xored with a pad.
fn padded(pad: u8, mut block: [u8; BLOCK]) -> [u8; BLOCK]
    ensures { result ≡ block_with_pad pad block }
{
    pad_bytes(&mut block, pad);
    block
}

/// Hashes pieces, one after the other.
fn update_all(hash: &mut Sha1, pieces: &[&[u8]])
    ensures { (m : List ℕ) → Holds hash.old m → Holds hash.new (m ++ concat (map (λ piece. piece.now) pieces.now)) }
{
    for piece in pieces {
        hash.update(piece);
    }
}

/// Returns the HMAC of a message, given in pieces, under a key of any length (RFC 2104, sections 2 and 3).
#[tactic(auto, unfolding(crate::specs::Hmac::hmac))]
pub fn hmac_sha1(key: &[u8], pieces: &[&[u8]]) -> [u8; 20]
    ensures { result ≡ hmac key.now (concat (map (λ piece. piece.now) pieces.now)) }
{
    let block = block_of(key);
    let mut inner = Sha1::new();
    inner.update(&padded(INNER_PAD, block));
    update_all(&mut inner, pieces);
    let mut outer = Sha1::new();
    outer.update(&padded(OUTER_PAD, block));
    outer.update(&inner.finalize());
    outer.finalize()
}
