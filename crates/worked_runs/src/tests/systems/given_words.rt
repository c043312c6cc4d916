//! The words that the system gives: each as it is, an empty one too, and one that isn't text.
use std::alloc::Global;
use std::env::FillError;
use std::rt::Env;
use system_files::{Words, words_of};

// A system that gives these words, the program's name first.
#[derive(Drop)]
struct Given(&'static [&'static [u8]]);

impl Env for Given {
    fn arg(&self, i: usize, buf: &mut [u8]) -> Result<usize, FillError> {
        let Some(word) = self.0.get(i) else {
            return Err(FillError::NotPresent);
        };
        if word.len() > buf.len() {
            return Err(FillError::TooLong);
        }
        buf[..word.len()].copy_from_slice(word);
        Ok(word.len())
    }

    fn var(&self, _name: &str, _buf: &mut [u8]) -> Result<usize, FillError> {
        Err(FillError::NotPresent)
    }

    fn var_at(&self, _i: usize, _buf: &mut [u8]) -> Result<usize, FillError> {
        Err(FillError::NotPresent)
    }
}

// Whether these are the words, exactly.
fn are(words: &[String], want: &[&str]) -> bool {
    for (place, word) in words.iter().enumerate() {
        if want.get(place) != Some(&word.as_str()) {
            return false;
        }
    }
    words.len() == want.len()
}

// Whether the words behind the program's name are handed on exactly.
fn gives(alloc: Global, given: &'static [&'static [u8]], want: &[&str]) -> bool {
    match words_of(&(Given(given), alloc)) {
        Words::Given(words) => are(&words, want),
        _ => false,
    }
}

// An empty word, capitals, outer blanks, letters beyond ASCII, and a blank that isn't a space.
const GIVEN: &[&[u8]] = &[b"lif", b"", b"SEND", b" a b ", b"\xc3\x84\xc3\x9f", b"\t"];

const WANT: &[&str] = &["", "SEND", " a b ", "\u{c4}\u{df}", "\t"];

// Words of which the last, or the first, isn't text.
const LAST_NO_TEXT: &[&[u8]] = &[b"lif", b"order", b"\xff"];

const FIRST_NO_TEXT: &[&[u8]] = &[b"lif", b"\xc3", b"order"];

// Whether words aren't handed on, since one isn't text.
fn has_no_text(alloc: Global, given: &'static [&'static [u8]]) -> bool {
    matches!(words_of(&(Given(given), alloc)), Words::NotText)
}

#[test]
fn words_are_handed_on(rt: HostRuntime) {
    assert!(rt; gives(rt.alloc(), GIVEN, WANT));
    assert!(rt; has_no_text(rt.alloc(), LAST_NO_TEXT));
    assert!(rt; has_no_text(rt.alloc(), FIRST_NO_TEXT));
}
