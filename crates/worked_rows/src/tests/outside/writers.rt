//! What no clause says: that there is a put that is done, and how often one is counted.
use lif_outside::Sink;
use std::alloc::Global;
use std::io;
use system_files::WriterSay;

fn is_put(rt: &HostRuntime) -> bool {
    let mut say = WriterSay::new(io::writer(rt));
    say.put(b"a line of the test\n").is_ok() && say.faulted() == 0
}

#[test]
fn puts_a_line(rt: HostRuntime) {
    assert!(rt; is_put(&rt));
}

fn are_put(alloc: Global) -> bool {
    let mut say = WriterSay::new(Vec::new(alloc));
    say.put(&[b'.'; 70_000]).is_ok()
        && say.put(b"\n").is_ok()
        && (say.writer().len(), say.faulted()) == (70_001, 0)
}

#[test]
fn puts_all_bytes(rt: HostRuntime) {
    assert!(rt; are_put(rt.alloc()));
}
