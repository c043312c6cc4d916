//! The lines of a text, and their words.
ghost use Rattle.std.specs.Prelude.{◌≡◌, ◌==◌, ◌||◌, not, IfOk, map};
ghost use Rattle.std.specs.List.{list_all, prefix_len, slice_split};
ghost use Rattle.net_reader.specs.Lines.{pieces_of, lines_of, without_return, content_of, is_text, words_of};
ghost use Rattle.net_reader.specs.Words.{texts_of};

use std::alloc::{AllocError, Global};

// A text cut at each line feed.
fn pieces_of<'a>(alloc: Global, text: &'a [u8]) -> Result<Vec<&'a [u8]>, AllocError>
    ensures { IfOk result (λ pieces. texts_of pieces.items ≡ pieces_of text.now) }
{
    text.split(|byte| *byte == b'\n').collect(alloc)
}

/// The lines of a text: a last one that is empty is none.
pub(crate) fn lines_of<'a>(alloc: Global, text: &'a [u8]) -> Result<Vec<&'a [u8]>, AllocError>
    ensures { IfOk result (λ lines. texts_of lines.items ≡ lines_of text.now) }
{
    let mut lines = pieces_of(alloc, text)?;
    let Some(last) = lines.pop() else {
        return Ok(lines);
    };
    if last.is_empty() {
        return Ok(lines);
    }
    lines.push(last)?;
    Ok(lines)
}

// A line without a carriage return at its end.
fn without_return<'a>(line: &'a [u8]) -> &'a [u8]
    ensures { result.now ≡ without_return line.now }
{
    match line.split_last() {
        Some((last, front)) => { if *last == b'\r' { front } else { line } }
        None => line,
    }
}

// Where the comment of a line begins, or the line's end.
fn comment_of(line: &[u8]) -> usize
    ensures { result ≡ prefix_len (λ byte. not (byte == 35)) line.now }
{
    for (i, byte) in line.iter().enumerate() {
        if *byte == b'#' {
            return i;
        }
    }
    line.len()
}

/// What is left of a line: no carriage return at its end, and no comment.
pub(crate) fn content_of<'a>(line: &'a [u8]) -> &'a [u8]
    ensures { result.now ≡ content_of line.now }
{
    let line = without_return(line);
    &line[..comment_of(line)]
}

/// Whether all bytes are tabs or from the space to the tilde.
pub(crate) fn are_text(bytes: &[u8]) -> bool
    ensures { result ≡ list_all is_text bytes.now }
{
    bytes.iter().all(|byte| is_text(*byte))
}

fn is_text(byte: u8) -> bool
    ensures { result ≡ is_text byte }
{
    byte == b'\t' || (b' '..=b'~').contains(&byte)
}

/// The words between spaces and tabs.
pub(crate) fn words_of<'a>(alloc: Global, content: &'a [u8]) -> Result<Vec<&'a [u8]>, AllocError>
    ensures { IfOk result (λ words. texts_of words.items ≡ words_of content.now) }
{
    content
        .split(|byte| *byte == b' ' || *byte == b'\t')
        .filter(|word| !word.is_empty())
        .collect(alloc)
}
