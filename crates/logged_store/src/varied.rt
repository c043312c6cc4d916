//! Bytes that differ by their places.
ghost use Rattle.std.specs.Prelude.{◌≤◌, ◌^◌};

use std::alloc::{AllocError, Global};

/// Bytes of which neighbours differ, and those at the same place of two pages.
pub fn varied_bytes(alloc: Global, count: usize) -> Result<Vec<u8>, AllocError>
    requires { count ≤ 2 ^ 32 }
{
    let mut bytes = Vec::with_capacity(alloc, count)?;
    for place in 0..count {
        bytes.push(((167 * place + 13 * (place / 256) + 5) % 256) as u8)?;
    }
    Ok(bytes)
}
