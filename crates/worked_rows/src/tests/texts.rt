//! The networks of texts, or their refusals, as the definitions give them.
ghost use Rattle.std.specs.Prelude.{◌≡◌, ◌++◌, List, ℕ, [], ◌∷◌, codes, Ok, Err};
ghost use Rattle.net_reader.specs.Text.{network_of, parts_of};
ghost use Rattle.net_reader.specs.declared.refusal.ReadRefusal.TheVariants.{BadByte, BadLine, BadName, DuplicateLink, DuplicatePattern, DuplicateSink, SecondSource, SelfLoop, UnknownLink, RepeatedLink, SecondField, NoSource, NoSink, SinkIsSource, SecondRate, SecondFailEach, PatternNamed};
ghost use Rattle.test_support.specs.OneLink.{one_link, wide_one_link};
ghost use Rattle.test_support.specs.Butterfly.{butterfly};
ghost use Rattle.test_support.specs.CutButterfly.{cut_butterfly};
ghost use Rattle.worked_rows.specs.Networks.{of_any_field, two_links, both_links, three_cores, three_links};

use test_support::texts::{BUTTERFLY_TEXT, ONE_LINK_TEXT, THREE_CORES_TEXT, TWO_LINKS_TEXT};

// One link, with no line on the field and with each.
fn one_link_is_read()
    ensures any { network_of ONE_LINK_TEXT.now ≡ Ok (of_any_field one_link.net) }
    ensures eight { network_of (ONE_LINK_TEXT.now ++ codes "field 8\n")
        ≡ Ok (parts_of one_link.net) }
    ensures sixteen { network_of (ONE_LINK_TEXT.now ++ codes "field 16\n")
        ≡ Ok (parts_of wide_one_link.net) }
{}

// The butterfly, and with the pattern `cut`. The last line may end with the text.
fn butterfly_is_read()
    ensures uncut { network_of BUTTERFLY_TEXT.now ≡ Ok (of_any_field butterfly.net) }
    ensures cut { network_of (BUTTERFLY_TEXT.now ++ codes "pattern cut s-a\nfield 8")
        ≡ Ok (parts_of cut_butterfly.net) }
{}

// Two links with their patterns.
fn two_links_are_read()
    ensures { network_of TWO_LINKS_TEXT.now ≡ Ok two_links }
{}

// The links of a pattern rise, in whatever order they are named; a link and a pattern may have the name of a node.
fn both_links_are_read()
    ensures { network_of (TWO_LINKS_TEXT.now ++ codes "pattern s q p\nlink s t s\n")
        ≡ Ok both_links }
{}

// Comments and line ends of two bytes.
fn three_cores_are_read()
    ensures { network_of THREE_CORES_TEXT.now ≡ Ok three_cores }
{}

// A bundle and a link beside it, a pattern by the bundle's name, each link alone, and a wanted rate.
fn bundle_is_read()
    ensures { network_of
        (codes "rate 02\nfail-each\nsource s\nsink t\nlink l s t x2\nlink m s t\npattern f l\n")
        ≡ Ok three_links }
{}

// The refusals of one link with lines of these forms.
fn refused_forms()
    ensures no_rate { network_of (ONE_LINK_TEXT.now ++ codes "rate 33\n") ≡ Err (BadLine 4) }
    ensures no_bundle { network_of (ONE_LINK_TEXT.now ++ codes "link k s t x0\n") ≡ Err (BadLine 4) }
    ensures made_name_taken { network_of (ONE_LINK_TEXT.now ++ codes "link l.1 s t\nlink l s t x2\n")
        ≡ Err (DuplicateLink 5) }
    ensures twice_by_bundle { network_of (ONE_LINK_TEXT.now ++ codes "link l.1 s t\nlink k s t x2\npattern f k k.2\n")
        ≡ Err (RepeatedLink 6) }
    ensures more_rates { network_of (ONE_LINK_TEXT.now ++ codes "rate 1\nrate 1\n")
        ≡ Err (SecondRate 5) }
    ensures said_twice { network_of (ONE_LINK_TEXT.now ++ codes "fail-each\nfail-each\n")
        ≡ Err (SecondFailEach 5) }
    ensures named_as_pattern { network_of (ONE_LINK_TEXT.now ++ codes "pattern l l\nfail-each\n")
        ≡ Err (PatternNamed 0) }
{}

// The refusal of one link with one more line, or with two.
fn refused_lines()
    ensures bad_byte { network_of (ONE_LINK_TEXT.now ++ codes "sink " ++ 1 ∷ 10 ∷ [])
        ≡ Err (BadByte 4) }
    ensures bad_field { network_of (ONE_LINK_TEXT.now ++ codes "field 9\n") ≡ Err (BadLine 4) }
    ensures no_links { network_of (ONE_LINK_TEXT.now ++ codes "pattern f\n") ≡ Err (BadLine 4) }
    ensures bad_name { network_of (ONE_LINK_TEXT.now ++ codes "link a/b s t\n") ≡ Err (BadName 4) }
    ensures same_link { network_of (ONE_LINK_TEXT.now ++ codes "link l a a\n")
        ≡ Err (DuplicateLink 4) }
    ensures pattern_none { network_of (ONE_LINK_TEXT.now ++ codes "pattern none l\n")
        ≡ Err (DuplicatePattern 4) }
    ensures same_sink { network_of (ONE_LINK_TEXT.now ++ codes "sink t\n") ≡ Err (DuplicateSink 4) }
    ensures more_sources { network_of (ONE_LINK_TEXT.now ++ codes "source s\n")
        ≡ Err (SecondSource 4) }
    ensures self_loop { network_of (ONE_LINK_TEXT.now ++ codes "link k a a\n") ≡ Err (SelfLoop 4) }
    ensures no_such_link { network_of (ONE_LINK_TEXT.now ++ codes "pattern f x\n")
        ≡ Err (UnknownLink 4) }
    ensures link_twice { network_of (ONE_LINK_TEXT.now ++ codes "pattern f l l\n")
        ≡ Err (RepeatedLink 4) }
    ensures more_fields { network_of (ONE_LINK_TEXT.now ++ codes "field 8\nfield 8\n")
        ≡ Err (SecondField 5) }
{}

// The refusal is that of the first line that isn't good, and of its refusals the first.
fn first_refusals()
    ensures of_line { network_of (codes "sink t\n\nfield 9\nsink t\n") ≡ Err (BadLine 3) }
    ensures of_two { network_of (ONE_LINK_TEXT.now ++ codes "link a/b s s\n") ≡ Err (BadName 4) }
    ensures of_whole { network_of (codes "link l s t # s\r\n") ≡ Err NoSource }
{}

// A comment may have any bytes, and a carriage return stands at the end of a line only.
fn bytes_of_lines()
    ensures comment { network_of (ONE_LINK_TEXT.now ++ codes "\t#" ++ 0 ∷ 255 ∷ [])
        ≡ Ok (of_any_field one_link.net) }
    ensures second_return { network_of (ONE_LINK_TEXT.now ++ codes "sink t2\r\r\n")
        ≡ Err (BadByte 4) }
{}

// The refusal of a text as a whole.
fn refused_texts()
    ensures no_source { network_of [] ≡ Err NoSource }
    ensures no_sink { network_of (codes "source s\n") ≡ Err NoSink }
    ensures source_as_sink { network_of (ONE_LINK_TEXT.now ++ codes "sink s\n")
        ≡ Err (SinkIsSource 0) }
{}
