//! What runs of the program are given.
use std::alloc::{AllocError, Global};

/// These words.
pub fn words_of(alloc: Global, words: &[&str]) -> Result<Vec<String>, AllocError> {
    let mut owned = Vec::new(alloc);
    for word in words {
        owned.push(String::from_str(alloc, word)?)?;
    }
    Ok(owned)
}

/// So many bytes of a source, which differ from place to place.
pub fn source_of(alloc: Global, length: usize) -> Option<Vec<u8>> {
    let mut source = Vec::with_capacity(alloc, length).ok()?;
    for place in 0..length {
        source
            .push((place % 251) as u8 ^ (place / 251 % 241) as u8)
            .ok()?;
    }
    Some(source)
}
