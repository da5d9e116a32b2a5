//! Stores (RFC 9669, section 5).

ghost use Rattle.std.specs.Prelude.{◌≡◌, ◌≤◌, ◌+◌, ℕ, Some, map, take, length};
ghost use Rattle.insn.specs.Codes.{byte_count};
ghost use Rattle.insn.specs.Endian.{little_bytes};
ghost use Rattle.semantics.specs.Access.{overlay, written_at, IsInside};
ghost use Rattle.semantics.specs.Views.{memory_with};

use crate::access::Location;
use crate::stack::{StackMemory, put_bytes};
use insn::{Size, write_little_endian};

/// Writes bytes into stack cells, from an index on.
#[tactic(auto, using(crate::specs::laws::Access::put_none))]
pub fn put_cells(cells: &mut [Option<u8>], index: usize, bytes: &[u8])
    requires { index + length bytes.now ≤ length cells.old }
    ensures { cells.new ≡ overlay index (map Some bytes.now) cells.old }
{
    for i in 0..bytes.len() {
        cells[index + i] = Some(bytes[i]);
    }
}

/// Writes the low `n` bytes of a number into bytes, least first, from an index on.
fn put_number(bytes: &mut [u8], index: usize, n: usize, value: u64)
    requires few { n ≤ 8 }
    requires inside { index + n ≤ length bytes.old }
    ensures { bytes.new ≡ overlay index (little_bytes n value) bytes.old }
{
    write_little_endian(&mut bytes[index..index + n], value);
}

/// Returns eight bytes that begin with the low `n` bytes of a number, least first.
fn low_bytes(n: usize, value: u64) -> [u8; 8]
    requires { n ≤ 8 }
    ensures { take n result ≡ little_bytes n value }
{
    let mut bytes = [0; 8];
    write_little_endian(&mut bytes[..n], value);
    bytes
}

/// Stores the low bytes of a number at a location: in the cells of the stack, or in headroom, datagram and tailroom.
pub fn store(stack: &mut StackMemory, bytes: &mut [u8], at: Location, size: Size, value: u64)
    requires { IsInside (memory_with stack.old bytes.old 0) (byte_count size) at }
    ensures { (n : ℕ) → memory_with stack.new bytes.new n
        ≡ written_at (memory_with stack.old bytes.old n) at (little_bytes (byte_count size) value) }
{
    let n = size.bytes();
    match at {
        Location::InStack(index) => {
            put_bytes(stack, index, &low_bytes(n, value)[..n]);
        }
        Location::InBytes(index) => put_number(bytes, index, n, value),
    }
}
