//! Why a relay can't be made, or a nonce or users not be set.

use control::Field;
use thiserror::Error;

/// Why a relay can't be made, or a nonce or users not be set.
#[derive(Clone, Copy, Debug, PartialEq, Eq, Error)]
pub enum RelayError {
    /// The first field of the configuration that lies outside its limits.
    #[error("refused {0}")]
    BadConfig(Field),
    /// Memory ran out.
    #[error("out of memory")]
    Memory,
}
