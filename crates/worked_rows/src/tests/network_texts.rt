//! Texts of networks that are refused, and the names of the nodes and links of a text.
use net_model::{Name, Net};
use net_reader::ReadRefusal::{
    BadByte, BadLine, BadName, DuplicateLink, DuplicatePattern, DuplicateSink, NoSink, NoSource,
    OutOfMemory, PatternNamed, RepeatedLink, SecondFailEach, SecondField, SecondRate, SecondSource,
    SelfLoop, SinkIsSource, TooMany, TooManyPatterns, UnknownLink,
};
use net_reader::{ReadRefusal, What, link_name, node_name, read_net};
use std::alloc::{AllocError, Global};

/// The network of a text, unless the text is long.
pub(crate) fn net_of(alloc: Global, text: &[u8]) -> Result<Net, ReadRefusal> {
    if text.len() > 4_194_304 {
        return Err(OutOfMemory);
    }
    read_net(alloc, text)
}

/// What a text is refused for.
pub(crate) fn refusal(alloc: Global, text: &[u8]) -> Option<ReadRefusal> {
    net_of(alloc, text).err()
}

// A text and its refusal.
type Refused = (&'static [u8], ReadRefusal);

// Lines with bytes or names that may not be, or of no form.
const ILL_FORMED: &[Refused] = &[
    (b"sink \x01\n", BadByte { line: 1 }),
    (b"\x1f\n", BadByte { line: 1 }),
    (b"\x7f", BadByte { line: 1 }),
    (b"sink \xc3\xa9\n", BadByte { line: 1 }),
    (b"source s\r\r\n", BadByte { line: 1 }),
    (b"source s\r # s\r\n", BadByte { line: 1 }),
    (b"source s\r#\n", BadByte { line: 1 }),
    (b"\rsource s\n", BadByte { line: 1 }),
    (b"sources s\n", BadLine { line: 1 }),
    (b"Sink s\n", BadLine { line: 1 }),
    (b"field", BadLine { line: 1 }),
    (b"field 9\n", BadLine { line: 1 }),
    (b"field 08\n", BadLine { line: 1 }),
    (b"field 8 8\n", BadLine { line: 1 }),
    (b"source # s\n", BadLine { line: 1 }),
    (b"source s s\n", BadLine { line: 1 }),
    (b"sink\n", BadLine { line: 1 }),
    (b"sink s t\n", BadLine { line: 1 }),
    (b"link\n", BadLine { line: 1 }),
    (b"link l s\n", BadLine { line: 1 }),
    (b"link l s t u\n", BadLine { line: 1 }),
    (b"link l s t x0\n", BadLine { line: 1 }),
    (b"link l s t x8193\n", BadLine { line: 1 }),
    (b"link l s t x2 3\n", BadLine { line: 1 }),
    (b"rate 33\n", BadLine { line: 1 }),
    (b"rate +1\n", BadLine { line: 1 }),
    (b"fail-each l\n", BadLine { line: 1 }),
    (b"pattern\n", BadLine { line: 1 }),
    (b"pattern p\n", BadLine { line: 1 }),
    (b"source a/b\n", BadName { line: 1 }),
    (b"sink a:b\n", BadName { line: 1 }),
    (b"link @ s t\n", BadName { line: 1 }),
    (b"link l [ t\n", BadName { line: 1 }),
    (b"link l s `\n", BadName { line: 1 }),
    (b"pattern { l\n", BadName { line: 1 }),
    (b"pattern p l ,\n", BadName { line: 1 }),
    (
        b"sink 123456789012345678901234567890123\n",
        BadName { line: 1 },
    ),
];

// Lines that contradict themselves or an earlier line, and texts that are wrong as a whole.
const SENSELESS: &[Refused] = &[
    (b"link l s t\nlink l t s\n", DuplicateLink { line: 2 }),
    (
        b"link l s t\nlink k s t\nlink l u v\n",
        DuplicateLink { line: 3 },
    ),
    (b"pattern none l\n", DuplicatePattern { line: 1 }),
    (
        b"link l s t\npattern p l\npattern q l\npattern p l\n",
        DuplicatePattern { line: 4 },
    ),
    (b"sink t\nsink t\n", DuplicateSink { line: 2 }),
    (b"sink t\nsink u\nsink t\n", DuplicateSink { line: 3 }),
    (b"source s\nsource s\n", SecondSource { line: 2 }),
    (b"source s\nsource t\n", SecondSource { line: 2 }),
    (b"link l s s\n", SelfLoop { line: 1 }),
    (b"pattern p l\nlink l s t\n", UnknownLink { line: 1 }),
    (b"link l s t\npattern p p\n", UnknownLink { line: 2 }),
    (b"link l s t\npattern p l l\n", RepeatedLink { line: 2 }),
    (
        b"link l s t\nlink k s t\npattern p l k l\n",
        RepeatedLink { line: 3 },
    ),
    (b"field 8\nfield 8\n", SecondField { line: 2 }),
    (b"field 16\n\nfield 8\n", SecondField { line: 3 }),
    (b"rate 2\nrate 02\n", SecondRate { line: 2 }),
    (b"fail-each\nfail-each\n", SecondFailEach { line: 2 }),
    (b"link l.1 s t\nlink l s t x2\n", DuplicateLink { line: 2 }),
    (b"link l s t x2\nlink l s t\n", DuplicateLink { line: 2 }),
    (
        b"link k s t x2\npattern p k k.2\n",
        RepeatedLink { line: 2 },
    ),
    (
        b"link k s t x8192\nlink l s t\n",
        TooMany {
            line: 2,
            what: What::Links,
        },
    ),
    (b"", NoSource),
    (b"\n\r\n# source s", NoSource),
    (b"sink t\nlink l s t\n", NoSource),
    (b"source s\r", NoSink),
    (b"source s\nlink l s t\n", NoSink),
    (b"source s\nsink s\n", SinkIsSource { sink: 0 }),
    (
        b"sink t\nlink l u s\nsink s\nsource s",
        SinkIsSource { sink: 2 },
    ),
    (SINK_IS_SOURCE, SinkIsSource { sink: 0 }),
    (
        b"source s\nsink t\nfail-each\nlink k s t\nlink l s t\npattern l k\n",
        PatternNamed { link: 1 },
    ),
    (
        b"source s\nsink t\nfail-each\nlink l s t x4096\n",
        TooManyPatterns { count: 4096 },
    ),
];

// The first bad line counts, and of its refusals the first.
const FIRST_REFUSALS: &[Refused] = &[
    (b"link l s s\nsink \x01\n", SelfLoop { line: 1 }),
    (b"sink t\n\nfield 9\nsink t\n", BadLine { line: 3 }),
    (b"field 8\nfield 8\nfield 9\n", SecondField { line: 2 }),
    (b"sink t\nsink t # no source\n", DuplicateSink { line: 2 }),
    (b"field 9 \x01\n", BadByte { line: 1 }),
    (b"sink t\nsink t \x01\n", BadByte { line: 2 }),
    (b"sink a/b c\n", BadLine { line: 1 }),
    (b"field 8\nfield 9\n", BadLine { line: 2 }),
    (b"source s\nsource\n", BadLine { line: 2 }),
    (b"source s\nsource a/b\n", BadName { line: 2 }),
    (b"link l s t\nlink l a/b a/b\n", BadName { line: 2 }),
    (b"link l s t\nlink l t t\n", DuplicateLink { line: 2 }),
    (b"pattern none a/b\n", BadName { line: 1 }),
    (b"pattern none l l\n", DuplicatePattern { line: 1 }),
    (
        b"link l s t\npattern p l\npattern p k\n",
        DuplicatePattern { line: 3 },
    ),
    (
        b"link l s t\npattern p l\npattern p l l\n",
        DuplicatePattern { line: 3 },
    ),
    (b"link l s t\npattern p l l k\n", UnknownLink { line: 2 }),
    (b"link l s t\npattern p k k\n", UnknownLink { line: 2 }),
    (b"sink t\n\n", NoSource),
    (b"# nothing", NoSource),
];

/// Nine lines of a good text, with comments and with line ends of two bytes.
pub(crate) const HEAD: &[u8] = b"# any bytes: \x00\xff\r\r\n\
    \r\n\
    \t \t\n\
    source\ts\t# the source\r\n\
    sink  t \r\n\
    #\n\
    link\t l s\tt\r\n\
    pattern p l#fails\r\n\
    field 8\r\n";

// What stands behind the nine lines, and the refusal.
const LATER_LINES: &[Refused] = &[
    (b"sink \x01\n", BadByte { line: 10 }),
    (b"\n\r\n#\x01\nsink u\r\r\n", BadByte { line: 13 }),
    (b"feld 8\r\n", BadLine { line: 10 }),
    (b"# l\r\n\tlink\tk s", BadLine { line: 11 }),
    (b"sink a/b\r\n", BadName { line: 10 }),
    (b"link l t s\r\n", DuplicateLink { line: 10 }),
    (b"\r\npattern p l", DuplicatePattern { line: 11 }),
    (b"pattern none l\r\n", DuplicatePattern { line: 10 }),
    (b"sink u\r\nsink\tt", DuplicateSink { line: 11 }),
    (b"source u\n", SecondSource { line: 10 }),
    (b"link k t s\n \nlink j u u", SelfLoop { line: 12 }),
    (b"pattern q l k\nlink k s t\n", UnknownLink { line: 10 }),
    (b"pattern q l\tl\r\n", RepeatedLink { line: 10 }),
    (b"#\n#\n#\nfield 16\r\n", SecondField { line: 13 }),
    (b"sink s\r\n", SinkIsSource { sink: 0 }),
];

// Whether a text, with another before it, is refused so.
fn is_refused(alloc: Global, before: &[u8], text: &[u8], why: ReadRefusal) -> bool {
    match [before, text].concat(alloc) {
        Ok(whole) => refusal(alloc, &whole) == Some(why),
        Err(_) => false,
    }
}

// The first row of a table that doesn't hold of its text with another before it.
fn wrong_row(alloc: Global, before: &[u8], table: &[Refused]) -> Option<usize> {
    for (row, &(text, why)) in table.iter().enumerate() {
        if !is_refused(alloc, before, text, why) {
            return Some(row);
        }
    }
    None
}

#[test]
fn ill_formed_lines_are_refused(rt: HostRuntime) {
    assert_eq!(rt; wrong_row(rt.alloc(), b"", ILL_FORMED), None);
}

#[test]
fn senseless_lines_are_refused(rt: HostRuntime) {
    assert_eq!(rt; wrong_row(rt.alloc(), b"", SENSELESS), None);
}

#[test]
fn the_first_refusal_of_the_first_bad_line_counts(rt: HostRuntime) {
    assert_eq!(rt; wrong_row(rt.alloc(), b"", FIRST_REFUSALS), None);
}

#[test]
fn later_lines_are_refused(rt: HostRuntime) {
    assert_eq!(rt; wrong_row(rt.alloc(), HEAD, LATER_LINES), None);
}

// The last line makes the source a sink.
const SINK_IS_SOURCE: &[u8] = b"source s\nsink t\nlink l s t\nsink s\n";

// A good text with a bundle.
const BUNDLED: &[u8] = b"source s\nsink t\nlink l s t\nlink k s t x2\n";

// A text, a number, and the name of the node or the link of that number.
type Named = (&'static [u8], u32, Option<&'static [u8]>);

const NODES: &[Named] = &[
    (SINK_IS_SOURCE, 0, Some(b"s")),
    (SINK_IS_SOURCE, 1, Some(b"t")),
    (SINK_IS_SOURCE, 2, None),
    (b"source s\nsink\n", 0, None),
];

const LINKS: &[Named] = &[
    (BUNDLED, 0, Some(b"l")),
    (BUNDLED, 1, Some(b"k.1")),
    (BUNDLED, 2, Some(b"k.2")),
    (BUNDLED, 3, None),
    (b"link l s t\nlink\n", 0, None),
];

// Whether this name was found, or none.
fn is_found(found: Result<Option<Name>, AllocError>, want: Option<&[u8]>) -> bool {
    match (found, want) {
        (Ok(Some(name)), Some(want)) => name.bytes() == want,
        (Ok(None), None) => true,
        _ => false,
    }
}

// The first row whose node has another name.
fn wrong_node(alloc: Global) -> Option<usize> {
    for (row, &(text, node, want)) in NODES.iter().enumerate() {
        if !is_found(node_name(alloc, text, node), want) {
            return Some(row);
        }
    }
    None
}

// The first row whose link has another name.
fn wrong_link(alloc: Global) -> Option<usize> {
    for (row, &(text, link, want)) in LINKS.iter().enumerate() {
        if !is_found(link_name(alloc, text, link), want) {
            return Some(row);
        }
    }
    None
}

#[test]
fn nodes_have_names(rt: HostRuntime) {
    assert_eq!(rt; wrong_node(rt.alloc()), None);
}

#[test]
fn links_have_names(rt: HostRuntime) {
    assert_eq!(rt; wrong_link(rt.alloc()), None);
}
