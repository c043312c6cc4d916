//! What is left of a file.
ghost use Rattle.std.specs.Prelude.{◌≤◌, ◌+◌, length};
ghost use Rattle.code_items.specs.Limits.{code_limit};

/// What is left of a file, and the place of its first byte in the file, counted from 0.
#[derive(Clone, Copy)]
pub struct Rest<'a> {
    pub at: u64,
    pub bytes: &'a [u8],
    ghost bounded: { at + length bytes.now ≤ code_limit },
}
