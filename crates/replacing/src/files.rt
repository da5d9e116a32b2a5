//! Files that are read while a server runs.

use std::fs;
use std::io::Read;
use std::rt::Files;
use thiserror::Error;

/// Why a file isn't read.
#[derive(Clone, Copy, Debug, PartialEq, Eq, Error)]
pub(crate) enum UnusableFile {
    /// It is a folder, a pipe or a device: to open it may take forever.
    #[error("not a regular file")]
    Kind,
    /// It has more bytes than this.
    #[error("more than {0} bytes")]
    Long(u64),
}

/// Reads a regular file of at most so many bytes. `None` is one that can't be read.
/// See docs/DECISIONS.md, "Only regular files are read while a server runs".
///
/// # Errors
/// Where it is no regular file, and where it has more bytes.
pub(crate) fn read_regular<R: Files + AllocGlobal>(
    rt: &R,
    path: &str,
    most: u64,
) -> Result<Option<Vec<u8>>, UnusableFile> {
    let Ok(metadata) = fs::metadata(rt, path) else {
        return Ok(None);
    };
    if !metadata.is_file() {
        return Err(UnusableFile::Kind);
    }
    if metadata.len() > most {
        return Err(UnusableFile::Long(most));
    }
    let Ok(file) = fs::open(rt, path) else {
        return Ok(None);
    };
    let mut bytes = Vec::new(rt.alloc());
    match file.take(most.saturating_add(1)).read_to_end(&mut bytes) {
        Ok(n) if n as u64 > most => Err(UnusableFile::Long(most)),
        Ok(_) => Ok(Some(bytes)),
        Err(_) => Ok(None),
    }
}
