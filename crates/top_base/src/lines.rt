//! The lines that are said.
ghost use Rattle.std.specs.Prelude.{◌≡◌, ◌<◌, ◌≤◌, ◌+◌, ◌*◌, ◌++◌, ◌∷◌, [], IfSome, IfNone, codes, decimal, flat_map, length, vec_capacity, vec_len};
ghost use Rattle.std.specs.Option.{option_map_or};
ghost use Rattle.failure_patterns.specs.Demands.{demand_of};
ghost use Rattle.name_texts.specs.Names.{demand_text};
ghost use Rattle.net_model.specs.Demands.{demand_count};
ghost use Rattle.net_model.specs.Limits.{longest_name};
ghost use Rattle.top_base.specs.Given.{demo_given_in};
ghost use Rattle.top_base.specs.Lines.{accepted_line, check_failed_line, code_refused_line, code_text, compiled_line, demo_lines, detail_text, finished_line, link_fault_line, migrated_line, net_refused_line, not_decoding_line, out_of_memory_line, rate_over_line, received_line, relayed_line, stream_refused_line, stream_why_text, bad_blocks_line, bad_split_line, unknown_link_line, unknown_node_line, read_fault_line, same_path_line, sent_both_line, sent_line, served_text, too_long_line, too_many_demands_line, twin_refused_line, twinned_line, unknown_pattern_line, usage_line, write_fault_line};

use crate::demo_words::DemoWords;
use crate::status::TwinWhy;
use crate::text::{ROOM, ShortText, Text};
use arrayvec::ArrayVec;
use code_file::CodeRefusal;
use failure_patterns::{demand_at, demands};
use generation_frame::StreamWhy;
use itoa::Buffer;
use name_texts::{link_name, pattern_name, sink_name};
use net_model::{Demand, Net};
use net_reader::ReadRefusal;
use node_program::Code;
use std::marker::Model;

/// A line: a text of its own, and where it ends with a text of the words of the call, that text.
#[derive(Drop)]
pub struct Line<'a> {
    text: Text,
    quoted: Option<&'a str>,
}

impl<'a> Model for Line<'a> {
    ghost use Rattle.std.specs.Prelude.{ℕ, List, [], ◌∷◌, ◌++◌};
    ghost use Rattle.std.specs.Option.{option_map_or};
    ghost use Rattle.top_base.specs.LineText.{text_bytes};

    ghost Value = { List ℕ };

    ghost view = { λ line. text_bytes line.text
        ++ option_map_or (λ quoted. quoted.now ++ 10 ∷ []) line.quoted [] };
}

// Adds bytes to a text that has room for them.
fn push(text: &mut ShortText, bytes: &[u8])
    requires { length text.old.items + length bytes.now ≤ ROOM }
    ensures text { text.new.items ≡ text.old.items ++ bytes.now }
    ensures grown { length text.new.items ≡ length text.old.items + length bytes.now }
{
    let _ = text.try_extend_from_slice(bytes);
}

// Adds the digits of a number to a text that has room for them.
fn push_number(text: &mut ShortText, number: u64)
    requires { length text.old.items + 20 ≤ ROOM }
    ensures text { text.new.items ≡ text.old.items ++ decimal number }
    ensures grown { length text.new.items ≤ length text.old.items + 20 }
{
    let mut digits = Buffer::new();
    push(text, digits.format(number).as_bytes());
}

// Adds a word and a number to a text that has room for them.
fn push_field(text: &mut ShortText, word: &[u8], number: u64)
    requires word { length word.now ≤ 16 }
    requires room { length text.old.items + 36 ≤ ROOM }
    ensures text { text.new.items ≡ text.old.items ++ word.now ++ decimal number }
    ensures grown { length text.new.items ≤ length text.old.items + length word.now + 20 }
{
    push(text, word);
    push_number(text, number);
}

// A line that begins with these words.
fn begin(words: &[u8]) -> ShortText
    requires { length words.now ≤ ROOM }
    ensures text { result.items ≡ words.now }
    ensures as_long { length result.items ≡ length words.now }
{
    let mut text = ArrayVec::new();
    push(&mut text, words);
    text
}

// Adds a space and a word to a text that has room for them.
fn push_word(text: &mut ShortText, word: &[u8])
    requires word { length word.now ≤ longest_name }
    requires room { length text.old.items + 33 ≤ ROOM }
    ensures text { text.new.items ≡ text.old.items ++ codes " " ++ word.now }
    ensures grown { length text.new.items ≤ length text.old.items + 33 }
{
    push(text, b" ");
    push(text, word);
}

// Adds what stands behind the name of a refusal, if anything does: of what there are too many, how many patterns there are, or
// the name of the node or the link that it is of.
fn push_detail(text: &mut ShortText, why: ReadRefusal, name: &[u8])
    requires name { length name.now ≤ longest_name }
    requires room { length text.old.items + 33 ≤ ROOM }
    ensures text { text.new.items ≡ text.old.items ++ detail_text name.now why }
    ensures grown { length text.new.items ≤ length text.old.items + 33 }
{
    match why {
        ReadRefusal::TooMany { what, .. } => push_word(text, what.name().as_bytes()),
        ReadRefusal::SinkIsSource { .. } | ReadRefusal::PatternNamed { .. } => {
            push_word(text, name)
        }
        ReadRefusal::TooManyPatterns { count } => {
            push(text, b" ");
            push_number(text, count);
        }
        _ => {}
    }
}

// Adds why a file isn't a stream of a link.
fn push_stream_why(text: &mut ShortText, why: StreamWhy)
    requires { length text.old.items + 64 ≤ ROOM }
    ensures text { text.new.items ≡ text.old.items ++ stream_why_text why }
    ensures grown { length text.new.items ≤ length text.old.items + 56 }
{
    match why {
        StreamWhy::BadLength { bytes } => push_field(text, b"BadLength ", bytes),
        StreamWhy::BadFrame { at } => push_field(text, b"BadFrame ", at),
        StreamWhy::OtherLink { at } => push_field(text, b"OtherLink ", at),
        StreamWhy::Conflict { at } => push_field(text, b"Conflict ", at),
        StreamWhy::Missing { generation, piece } => {
            push_field(text, b"Missing ", u64::from(generation));
            push(text, b" ");
            push_number(text, u64::from(piece));
        }
        StreamWhy::OutOfMemory => push(text, b"OutOfMemory"),
    }
}

// The names of a demand's sink and pattern.
fn push_demand(text: &mut ShortText, net: &Net, demand: u32)
    requires demand { demand < demand_count net.now }
    requires room { length text.old.items + 65 ≤ ROOM }
    ensures text { text.new.items
        ≡ text.old.items ++ demand_text net.now (demand_of net.now demand) }
    ensures grown { length text.new.items ≤ length text.old.items + 65 }
{
    let Demand { sink, pattern } = demand_at(net, u64::from(demand));
    push(text, sink_name(net, sink as usize));
    push(text, b" ");
    push(text, pattern_name(net, pattern as usize));
}

// Adds elements, each behind a space, to a text that has room for them.
fn push_elements(text: &mut ShortText, elements: &[u32])
    requires { length text.old.items + 21 * length elements.now ≤ ROOM }
    ensures text { text.new.items ≡ text.old.items ++ flat_map (λ x. 32 ∷ decimal x) elements.now }
    ensures grown { length text.new.items
        ≤ length text.old.items + 21 * length elements.now }
{
    for element in elements {
        push(text, b" ");
        push_number(text, u64::from(*element));
    }
}

// Adds the field of a code and how many demands it serves to a text that has room for them.
fn push_served(text: &mut ShortText, code: &Code)
    requires { length text.old.items + 100 ≤ ROOM }
    ensures { text.new.items
        ≡ text.old.items ++ served_text code.now.field (demand_count code.now.net) }
{
    push(text, b" field ");
    push_number(text, u64::from(code.field.mark()));
    push(text, b" demands ");
    push_number(text, demands(&code.net));
    push(text, b"\n");
}

// What was sent.
fn sent_text(bytes: u64, generations: u64, sinks: u64) -> ShortText
    ensures { result.items ≡ sent_line bytes generations sinks }
{
    let mut text = begin(b"sent ");
    push_number(&mut text, bytes);
    push(&mut text, b" bytes in ");
    push_number(&mut text, generations);
    push(&mut text, b" generations to ");
    push_number(&mut text, sinks);
    push(&mut text, b" sinks\n");
    text
}

impl<'a> Line<'a> {
    // A line that is this text.
    fn of(text: ShortText) -> Line<'a>
        ensures { result ≡ text.items }
    {
        Line {
            text: Text::Short(text),
            quoted: None,
        }
    }

    /// A line, or lines, in memory.
    pub fn long(text: Vec<u8>) -> Line<'a>
        ensures { result ≡ text.items }
    {
        Line {
            text: Text::Long(text),
            quoted: None,
        }
    }

    // A line that begins with these words and ends with a text of the words of the call.
    fn quoting(words: &[u8], quoted: &'a str) -> Line<'a>
        requires { length words.now ≤ ROOM }
        ensures { result ≡ words.now ++ quoted.now ++ 10 ∷ [] }
    {
        Line {
            text: Text::Short(begin(words)),
            quoted: Some(quoted),
        }
    }

    /// The line's pieces: its own text, and the text that it ends with, behind which the line ends.
    pub fn pieces(&self) -> (&[u8], Option<&'a [u8]>)
        ensures none { IfNone result.1 (self.now ≡ result.0.now) }
        ensures some { IfSome result.1
            (λ quoted. self.now ≡ result.0.now ++ quoted.now ++ 10 ∷ []) }
    {
        let text = match &self.text {
            Text::Short(text) => text.as_slice(),
            Text::Long(text) => text.as_slice(),
        };
        (text, self.quoted.map(str::as_bytes))
    }

    /// The usage.
    pub fn usage() -> Line<'a>
        ensures { result ≡ usage_line }
    {
        Line::of(begin(
            b"usage: lif order NET | cuts NET | compile NET CODE REPORT | check CODE | send CODE PATTERN SEED SRC PREFIX | demo N K BYTES | migrate OLD NEW | relay CODE PATTERN NODE IN OUT | sink CODE PATTERN SINK IN DST | blind CODE SRC PREFIX LINK | finish DRAFT CODE | twin NET SECOND R1 R2 CODE REPORT | sendtwo CODE PATTERN SEED R1 SRC1 SRC2 PREFIX\n",
        ))
    }

    /// An input couldn't be read.
    pub fn read_fault() -> Line<'a>
        ensures { result ≡ read_fault_line }
    {
        Line::of(begin(b"read fault\n"))
    }

    /// An output couldn't be written.
    pub fn write_fault() -> Line<'a>
        ensures { result ≡ write_fault_line }
    {
        Line::of(begin(b"write fault\n"))
    }

    /// An input is longer than its limit.
    pub fn too_long() -> Line<'a>
        ensures { result ≡ too_long_line }
    {
        Line::of(begin(b"too long\n"))
    }

    /// There was no memory.
    pub fn out_of_memory() -> Line<'a>
        ensures { result ≡ out_of_memory_line }
    {
        Line::of(begin(b"out of memory\n"))
    }

    /// The links failed.
    pub fn link_fault() -> Line<'a>
        ensures { result ≡ link_fault_line }
    {
        Line::of(begin(b"link fault\n"))
    }

    /// The text of a network is refused; the name is that of the node or the link that the refusal is of.
    pub fn net_refused(why: ReadRefusal, name: &[u8]) -> Line<'a>
        requires { length name.now ≤ longest_name }
        ensures { result ≡ net_refused_line name.now why }
    {
        let mut text = begin(b"net refused: ");
        if let Some(line) = why.line() {
            push(&mut text, b"line ");
            push_number(&mut text, line);
            push(&mut text, b": ");
        }
        push(&mut text, why.name().as_bytes());
        push_detail(&mut text, why, name);
        push(&mut text, b"\n");
        Line::of(text)
    }

    /// The network has more demands than its field serves.
    pub fn too_many_demands(count: u64) -> Line<'a>
        ensures { result ≡ too_many_demands_line count }
    {
        let mut text = begin(b"too many demands: ");
        push_number(&mut text, count);
        push(&mut text, b"\n");
        Line::of(text)
    }

    /// The rate of the network is above 32: a demand has the least cut.
    pub fn rate_over(net: &Net, demand: u32, least: u32) -> Line<'a>
        requires { demand < demand_count net.now }
        ensures { result ≡ rate_over_line net.now demand least }
    {
        let mut text = begin(b"rate over 32: demand ");
        push_demand(&mut text, net, demand);
        push(&mut text, b" cut ");
        push_number(&mut text, u64::from(least));
        push(&mut text, b"\n");
        Line::of(text)
    }

    /// The bytes of a code are refused.
    pub fn code_refused(why: CodeRefusal) -> Line<'a>
        ensures { result ≡ code_refused_line why }
    {
        let mut text = begin(b"code refused: ");
        push(&mut text, why.name().as_bytes());
        if let Some(number) = why.number() {
            push(&mut text, b" ");
            push_number(&mut text, number);
        }
        push(&mut text, b"\n");
        Line::of(text)
    }

    /// A code isn't accepted: its check fails first at an entry of a demand's product.
    pub fn check_failed(net: &Net, demand: u32, row: u32, column: u32, found: u32) -> Line<'a>
        requires { demand < demand_count net.now }
        ensures { result ≡ check_failed_line net.now demand row column found }
    {
        let mut text = begin(b"check failed: demand ");
        push_demand(&mut text, net, demand);
        push(&mut text, b" row ");
        push_number(&mut text, u64::from(row));
        push(&mut text, b" column ");
        push_number(&mut text, u64::from(column));
        push(&mut text, b" found ");
        push_number(&mut text, u64::from(found));
        push(&mut text, b"\n");
        Line::of(text)
    }

    /// Two sources aren't joined.
    pub fn twin_refused(why: TwinWhy) -> Line<'a>
        ensures { result ≡ twin_refused_line why }
    {
        let mut text = begin(b"twin refused: ");
        push(&mut text, why.name().as_bytes());
        push(&mut text, b"\n");
        Line::of(text)
    }

    /// No pattern has this name.
    pub fn unknown_pattern(word: &'a str) -> Line<'a>
        ensures { result ≡ unknown_pattern_line word.now }
    {
        Line::quoting(b"unknown pattern: ", word)
    }

    /// No node has this name, or no sink.
    pub fn unknown_node(word: &'a str) -> Line<'a>
        ensures { result ≡ unknown_node_line word.now }
    {
        Line::quoting(b"unknown node: ", word)
    }

    /// No link has this name.
    pub fn unknown_link(word: &'a str) -> Line<'a>
        ensures { result ≡ unknown_link_line word.now }
    {
        Line::quoting(b"unknown link: ", word)
    }

    /// A demand of a draft doesn't decode, with a block that shows it.
    pub fn not_decoding(net: &Net, demand: u32, block: &[u32]) -> Line<'a>
        requires demand { demand < demand_count net.now }
        requires block { length block.now ≤ 32 }
        ensures { result ≡ not_decoding_line net.now demand block.now }
    {
        let mut text = begin(b"not decoding: demand ");
        push_demand(&mut text, net, demand);
        push(&mut text, b" block");
        push_elements(&mut text, block);
        push(&mut text, b"\n");
        Line::of(text)
    }

    /// The file of a link is refused as a stream of it.
    pub fn stream_refused(net: &Net, link: u32, why: StreamWhy) -> Line<'a>
        requires { link < length net.now.links }
        ensures { result ≡ stream_refused_line net.now link why }
    {
        let mut text = begin(b"stream refused: ");
        push(&mut text, link_name(net, link));
        push(&mut text, b" ");
        push_stream_why(&mut text, why);
        push(&mut text, b"\n");
        Line::of(text)
    }

    /// The count of a block that a sink decodes is wrong.
    pub fn bad_blocks(generation: u32, count: u64) -> Line<'a>
        ensures { result ≡ bad_blocks_line generation count }
    {
        let mut text = begin(b"bad blocks: generation ");
        push_number(&mut text, u64::from(generation));
        push(&mut text, b" count ");
        push_number(&mut text, count);
        push(&mut text, b"\n");
        Line::of(text)
    }

    /// The first of two sources has a rate that isn't below that of the code, or is 0.
    pub fn bad_split(rate: u32) -> Line<'a>
        ensures { result ≡ bad_split_line rate }
    {
        let mut text = begin(b"bad split: rate ");
        push_number(&mut text, u64::from(rate));
        push(&mut text, b"\n");
        Line::of(text)
    }

    /// A node wrote frames on its links.
    pub fn relayed(frames: u64, links: u64, generations: u64) -> Line<'a>
        ensures { result ≡ relayed_line frames links generations }
    {
        let mut text = begin(b"relayed ");
        push_number(&mut text, frames);
        push(&mut text, b" frames on ");
        push_number(&mut text, links);
        push(&mut text, b" links in ");
        push_number(&mut text, generations);
        push(&mut text, b" generations\n");
        Line::of(text)
    }

    /// A sink got bytes.
    pub fn received(bytes: u64, generations: u64) -> Line<'a>
        ensures { result ≡ received_line bytes generations }
    {
        let mut text = begin(b"received ");
        push_number(&mut text, bytes);
        push(&mut text, b" bytes in ");
        push_number(&mut text, generations);
        push(&mut text, b" generations\n");
        Line::of(text)
    }

    /// The path of an output is that of an input or of another output.
    pub fn same_path(path: &'a str) -> Line<'a>
        ensures { result ≡ same_path_line path.now }
    {
        Line::quoting(b"same path: ", path)
    }

    /// A code is accepted.
    pub fn accepted(code: &Code) -> Line<'a>
        ensures { result ≡ accepted_line code.now }
    {
        Line::of_code(b"accepted ", code)
    }

    /// A code was compiled.
    pub fn compiled(code: &Code) -> Line<'a>
        ensures { result ≡ compiled_line code.now.rate code.now.field (demand_count code.now.net) }
    {
        Line::of_code(b"compiled ", code)
    }

    /// A draft was finished.
    pub fn finished(code: &Code) -> Line<'a>
        ensures { result ≡ finished_line code.now.rate code.now.field (demand_count code.now.net) }
    {
        Line::of_code(b"finished ", code)
    }

    /// A code of two sources was made, of these rates.
    pub fn twinned(r1: u32, r2: u32, code: &Code) -> Line<'a>
        ensures { result ≡ twinned_line r1 r2 code.now.field (demand_count code.now.net) }
    {
        let mut text = begin(b"twinned rate ");
        push_number(&mut text, u64::from(r1));
        push(&mut text, b" ");
        push_number(&mut text, u64::from(r2));
        push_served(&mut text, code);
        Line::of(text)
    }

    /// A code was written anew.
    pub fn migrated(code: &Code) -> Line<'a>
        ensures { result ≡ migrated_line code.now }
    {
        Line::of_code(b"migrated ", code)
    }

    // A line that begins with a word and has the rate, the field and the demands of a code.
    fn of_code(word: &[u8], code: &Code) -> Line<'a>
        requires { length word.now ≤ 16 }
        ensures { result ≡ word.now ++ code_text code.now }
    {
        let mut text = begin(word);
        push(&mut text, b"rate ");
        push_number(&mut text, u64::from(code.rate));
        push_served(&mut text, code);
        Line::of(text)
    }

    /// A source was sent.
    pub fn sent(bytes: u64, generations: u64, sinks: u64) -> Line<'a>
        ensures { result ≡ sent_line bytes generations sinks }
    {
        Line::of(sent_text(bytes, generations, sinks))
    }

    /// Two sources were sent.
    pub fn sent_both(first: u64, second: u64, generations: u64, sinks: u64) -> Line<'a>
        ensures { result ≡ sent_both_line first second generations sinks }
    {
        let mut text = begin(b"sent ");
        push_number(&mut text, first);
        push(&mut text, b" and ");
        push_number(&mut text, second);
        push(&mut text, b" bytes in ");
        push_number(&mut text, generations);
        push(&mut text, b" generations to ");
        push_number(&mut text, sinks);
        push(&mut text, b" sinks\n");
        Line::of(text)
    }

    /// A source was sent, behind lines that have room for this one. It takes no memory.
    pub fn sent_behind(lines: Vec<u8>, bytes: u64, generations: u64, sinks: u64) -> Line<'a>
        requires { vec_len lines + ROOM ≤ vec_capacity lines }
        ensures { result ≡ lines.items ++ sent_line bytes generations sinks }
    {
        let mut lines = lines;
        let text = sent_text(bytes, generations, sinks);
        let _ = lines.extend_from_slice(text.as_slice());
        Line::long(lines)
    }

    /// A source went through the code of a combination network: in so many generations, by so many frames, and this is the
    /// sum of the bytes that came to the sinks.
    pub fn demo(words: &DemoWords, code: &Code, generations: u64, frames: u64, sum: u64) -> Line<'a>
        ensures { result ≡ demo_lines (demo_given_in words.now) code.now generations frames sum }
    {
        let mut text = begin(b"demo ");
        push_number(&mut text, u64::from(words.n));
        push(&mut text, b" ");
        push_number(&mut text, u64::from(words.k));
        push_field(&mut text, b"\nnodes ", code.net.nodes.len() as u64);
        push_field(&mut text, b"\nlinks ", code.net.links.len() as u64);
        push_field(&mut text, b"\ndemands ", demands(&code.net));
        push_field(&mut text, b"\nfield ", u64::from(code.field.mark()));
        push_field(&mut text, b"\nrate ", u64::from(code.rate));
        push_field(&mut text, b"\ngenerations ", generations);
        push_field(&mut text, b"\nframes ", frames);
        push_field(&mut text, b"\nbytes ", words.bytes);
        push_field(&mut text, b"\nsinks ", code.net.sinks.len() as u64);
        push_field(&mut text, b"\nsum ", sum);
        push(&mut text, b"\n");
        Line::of(text)
    }
}
