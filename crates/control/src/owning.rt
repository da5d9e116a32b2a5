//! The allocation of a client.

ghost use Rattle.std.specs.Prelude.{◌≡◌, ◌<◌, IfOk, length};
ghost use Rattle.tables.specs.Rows.{rows_at};
ghost use Rattle.control.specs.Control.{own_allocation, error_of};

use attributes::Addr;
use stun::registry::ErrorCode;
use tables::{Allocation, TableError, Tables, Uncounted};

/// Returns the allocation of a client, which must be the user's.
///
/// # Errors
/// 437 where the client has none; 441 where it is another user's.
pub(crate) fn own_allocation(
    tables: &Tables,
    client: Addr,
    user: usize,
    now: u64,
) -> Result<Allocation, ErrorCode>
    ensures allocation { result ≡ own_allocation client user (rows_at now tables.now) }
    ensures inside { IfOk result (λ a. a.slot < length tables.now.slots) }
{
    let Some(allocation) = tables.allocation_of(client, now, &mut Uncounted) else {
        return Err(ErrorCode::AllocationMismatch);
    };
    if allocation.user != user {
        return Err(ErrorCode::WrongCredentials);
    }
    Ok(allocation)
}

/// Returns the error of a refused change.
pub(crate) fn error_of(error: TableError) -> ErrorCode
    ensures { result ≡ error_of error }
{
    match error {
        TableError::Mismatch | TableError::NoAllocation => ErrorCode::AllocationMismatch,
        TableError::Capacity => ErrorCode::InsufficientCapacity,
        TableError::Conflict => ErrorCode::BadRequest,
        TableError::Family => ErrorCode::PeerAddressFamilyMismatch,
    }
}
