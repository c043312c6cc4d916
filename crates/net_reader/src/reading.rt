//! The lines of a text, one after another.
ghost use Rattle.net_reader.specs.Lines.{lines_of};
ghost use Rattle.net_reader.specs.Said.{statement_in};
ghost use Rattle.net_reader.specs.State.{Hears, IsState, with_line, with_lines, with_statement, with_words};
ghost use Rattle.net_reader.specs.Statements.{IsCounted};
ghost use Rattle.net_reader.specs.Words.{texts_of};

use crate::ReadRefusal;
use crate::lines::{are_text, content_of, lines_of, words_of};
use crate::state::{
    State, note_fail_each, note_field, note_link, note_pattern, note_rate, note_sink, note_source,
};
use crate::statements::{Said, statement_of};
use std::alloc::Global;

// Notes a statement, if it is good.
fn note<'a>(
    alloc: Global,
    state: &mut State<'a>,
    line: u64,
    said: Said<'a, '_>,
) -> Result<(), ReadRefusal>
    requires state { IsState state.old }
    requires counted { IsCounted (statement_in said) }
    ensures { Hears result state.old state.new (with_statement line (statement_in said.entry)) }
{
    match said {
        Said::Field(bits) => note_field(state, line, bits),
        Said::Rate(rate) => note_rate(state, line, rate),
        Said::Source(node) => note_source(state, line, node),
        Said::Sink(node) => note_sink(state, line, node),
        Said::Link {
            name,
            tail,
            head,
            bundle,
        } => note_link(alloc, state, line, name, tail, head, bundle),
        Said::Pattern { name, links } => note_pattern(alloc, state, line, name, links),
        Said::FailEach => note_fail_each(state, line),
    }
}

// Notes what words say.
fn read_words<'a>(
    alloc: Global,
    state: &mut State<'a>,
    line: u64,
    words: &[&'a [u8]],
) -> Result<(), ReadRefusal>
    requires { IsState state.old }
    ensures { Hears result state.old state.new (with_words line (texts_of words.now)) }
{
    let Some((first, rest)) = words.split_first() else {
        return Ok(());
    };
    let Some(said) = statement_of(first, rest) else {
        return Err(ReadRefusal::BadLine { line });
    };
    note(alloc, state, line, said)
}

// Notes what a line says.
fn read_line<'a>(
    alloc: Global,
    state: &mut State<'a>,
    line: u64,
    bytes: &'a [u8],
) -> Result<(), ReadRefusal>
    requires { IsState state.old }
    ensures { Hears result state.old state.new (with_line line bytes.now) }
{
    let content = content_of(bytes);
    if !are_text(content) {
        return Err(ReadRefusal::BadByte { line });
    }
    let words = words_of(alloc, content)?;
    read_words(alloc, state, line, &words)
}

// Notes what lines say, the first of which has the number 1.
fn read_lines<'a>(
    alloc: Global,
    state: &mut State<'a>,
    lines: &[&'a [u8]],
) -> Result<(), ReadRefusal>
    requires { IsState state.old }
    ensures { Hears result state.old state.new (with_lines (texts_of lines.now)) }
{
    for (i, line) in lines.iter().enumerate() {
        read_line(alloc, state, i as u64 + 1, line)?;
    }
    Ok(())
}

/// Notes what the lines of a text say.
pub(crate) fn read_text<'a>(
    alloc: Global,
    state: &mut State<'a>,
    text: &'a [u8],
) -> Result<(), ReadRefusal>
    requires { IsState state.old }
    ensures { Hears result state.old state.new (with_lines (lines_of text.now)) }
{
    let lines = lines_of(alloc, text)?;
    read_lines(alloc, state, &lines)
}
