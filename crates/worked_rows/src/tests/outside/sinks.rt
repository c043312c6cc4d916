//! A sink in memory, of which the second put fails.
use lif_outside::{Failed, MemSink, Sink};
use std::alloc::{AllocError, Global};

// Bytes to put, with the answers, and with all that the sink holds then.
const PUTS: &[(&[u8], Result<(), Failed>, &[u8])] = &[
    (&[1, 2], Ok(()), &[1, 2]),
    (&[3], Err(Failed), &[1, 2]),
    (&[], Ok(()), &[1, 2]),
    (&[4, 1], Ok(()), &[1, 2, 4, 1]),
];

fn say<S: Sink>(sink: &mut S, bytes: &[u8]) -> Result<(), Failed> {
    sink.put(bytes)
}

// The first row of the puts that isn't so.
fn wrong_put(sink: &mut MemSink) -> Option<usize> {
    for (row, &(bytes, answer, want)) in PUTS.iter().enumerate() {
        if say(sink, bytes) != answer || sink.bytes() != want {
            return Some(row);
        }
    }
    None
}

fn first_wrong_put(alloc: Global) -> Result<Option<usize>, AllocError> {
    let mut sink = MemSink::new(alloc, vec![in alloc; 2]?);
    Ok(wrong_put(&mut sink))
}

#[test]
fn a_put_fails_where_listed(rt: HostRuntime) {
    assert_eq!(rt; first_wrong_put(rt.alloc()), Ok(None));
}
