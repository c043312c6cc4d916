//! What the words of a line say.
ghost use Rattle.std.specs.Prelude.{◌≡◌};
ghost use Rattle.net_reader.specs.Said.{Says};
ghost use Rattle.net_reader.specs.Statements.{count_of, fail_each_of, field_of, link_of, pattern_of, rate_of, sink_of, source_of, statement_of};
ghost use Rattle.net_reader.specs.Words.{texts_of};

use crate::digits::number_to;
use net_model::{HIGHEST_RATE, MOST_LINKS};

const FIELD: &[u8] = b"field";

const RATE: &[u8] = b"rate";

const SOURCE: &[u8] = b"source";

const SINK: &[u8] = b"sink";

const LINK: &[u8] = b"link";

const PATTERN: &[u8] = b"pattern";

const FAIL_EACH: &[u8] = b"fail-each";

const EIGHT: &[u8] = b"8";

const SIXTEEN: &[u8] = b"16";

/// What a line says.
pub(crate) enum Said<'a, 'w> {
    Field(u32),
    Rate(u32),
    Source(&'a [u8]),
    Sink(&'a [u8]),
    /// A link, or a bundle of so many.
    Link {
        name: &'a [u8],
        tail: &'a [u8],
        head: &'a [u8],
        bundle: Option<u32>,
    },
    Pattern {
        name: &'a [u8],
        links: &'w [&'a [u8]],
    },
    FailEach,
}

fn field_of<'a, 'w>(words: &'w [&'a [u8]]) -> Option<Said<'a, 'w>>
    ensures { Says (field_of (texts_of words.now)) result }
{
    let [bits] = words else {
        return None;
    };
    if *bits == EIGHT {
        Some(Said::Field(8))
    } else if *bits == SIXTEEN {
        Some(Said::Field(16))
    } else {
        None
    }
}

fn rate_of<'a, 'w>(words: &'w [&'a [u8]]) -> Option<Said<'a, 'w>>
    ensures { Says (rate_of (texts_of words.now)) result }
{
    let [rate] = words else {
        return None;
    };
    let rate = number_to(HIGHEST_RATE, rate)?;
    Some(Said::Rate(rate))
}

fn source_of<'a, 'w>(words: &'w [&'a [u8]]) -> Option<Said<'a, 'w>>
    ensures { Says (source_of (texts_of words.now)) result }
{
    match words {
        [node] => Some(Said::Source(node)),
        _ => None,
    }
}

fn sink_of<'a, 'w>(words: &'w [&'a [u8]]) -> Option<Said<'a, 'w>>
    ensures { Says (sink_of (texts_of words.now)) result }
{
    match words {
        [node] => Some(Said::Sink(node)),
        _ => None,
    }
}

// How many links a bundle has.
fn count_of(word: &[u8]) -> Option<u32>
    ensures { result ≡ count_of word.now }
{
    match word {
        [b'x', digits @ ..] => number_to(MOST_LINKS as u32, digits),
        _ => None,
    }
}

fn link_of<'a, 'w>(words: &'w [&'a [u8]]) -> Option<Said<'a, 'w>>
    ensures { Says (link_of (texts_of words.now)) result }
{
    match words {
        [name, tail, head] => Some(Said::Link {
            name,
            tail,
            head,
            bundle: None,
        }),
        [name, tail, head, count] => {
            let count = count_of(count)?;
            Some(Said::Link {
                name,
                tail,
                head,
                bundle: Some(count),
            })
        }
        _ => None,
    }
}

fn pattern_of<'a, 'w>(words: &'w [&'a [u8]]) -> Option<Said<'a, 'w>>
    ensures { Says (pattern_of (texts_of words.now)) result }
{
    match words {
        [name, _, ..] => Some(Said::Pattern {
            name,
            links: &words[1..],
        }),
        _ => None,
    }
}

fn fail_each_of<'a, 'w>(words: &'w [&'a [u8]]) -> Option<Said<'a, 'w>>
    ensures { Says (fail_each_of (texts_of words.now)) result }
{
    match words {
        [] => Some(Said::FailEach),
        _ => None,
    }
}

/// What words say, if they say anything.
pub(crate) fn statement_of<'a, 'w>(first: &[u8], words: &'w [&'a [u8]]) -> Option<Said<'a, 'w>>
    ensures { Says (statement_of first.now (texts_of words.now)) result }
{
    if first == FIELD {
        field_of(words)
    } else if first == RATE {
        rate_of(words)
    } else if first == SOURCE {
        source_of(words)
    } else if first == SINK {
        sink_of(words)
    } else if first == LINK {
        link_of(words)
    } else if first == PATTERN {
        pattern_of(words)
    } else if first == FAIL_EACH {
        fail_each_of(words)
    } else {
        None
    }
}
