//! Texts of networks.
use std::alloc::{AllocError, Global};

/// One link.
pub const ONE_LINK_TEXT: &[u8] = b"source s\n\
    sink t\n\
    link l s t\n";

/// The butterfly.
pub const BUTTERFLY_TEXT: &[u8] = b"source s\n\
    sink t1\n\
    sink t2\n\
    link s-a s a\n\
    link s-b s b\n\
    link a-t1 a t1\n\
    link b-t2 b t2\n\
    link a-c a c\n\
    link b-c b c\n\
    link c-d c d\n\
    link d-t1 d t1\n\
    link d-t2 d t2\n";

/// Two links side by side, each of which may fail.
pub const TWO_LINKS_TEXT: &[u8] = b"source s\n\
    sink t\n\
    link p s t\n\
    link q s t\n\
    pattern f1 p\n\
    pattern f2 q\n";

/// Three cores between a head end and two edges, with comments and with two bytes at each line's end.
pub const THREE_CORES_TEXT: &[u8] = b"# two edges, three cores\r\n\
    source head   # the head end\r\n\
    sink edge1\r\n\
    sink edge2\r\n\
    link h-c1 head c1\r\n\
    link h-c2 head c2\r\n\
    link h-c3 head c3\r\n\
    link c1-e1 c1 edge1\r\n\
    link c2-e1 c2 edge1\r\n\
    link c3-e1 c3 edge1\r\n\
    link c1-e2 c1 edge2\r\n\
    link c2-e2 c2 edge2\r\n\
    link c3-e2 c3 edge2\r\n\
    pattern no-c1 h-c1\r\n\
    pattern no-c2 h-c2\r\n\
    pattern no-c3 h-c3\r\n";

/// Lines of numbers from 0 on, behind others.
pub fn numbered(
    alloc: Global,
    front: &str,
    before: &str,
    behind: &str,
    count: u64,
) -> Result<String, AllocError> {
    let mut text = String::from_str(alloc, front)?;
    for number in 0..count {
        write!(text, "{before}{number}{behind}")?;
    }
    Ok(text)
}
