//! The program over a system in memory: its words, its files, which may be pipes, and its output, which may be closed.
use super::failing::{MOST_CALLS, SENT, TWO_SINKS, WORDS};
use lif_top::launch;
use logged_store::{MemFiles, varied_bytes};
use std::alloc::Global;
use std::io;
use std::process::ExitCode;
use std::test::Fail;
use std::thread::Threads;

// A system with the code, which gives these words, and of which the call of this number fails.
fn system(alloc: Global, failing: u64, words: &[&str]) -> io::Result<MemFiles> {
    let mut files = MemFiles::new(alloc, failing, 9)?;
    files.put("code", TWO_SINKS)?;
    for word in words {
        files.add_word(word)?;
    }
    Ok(files)
}

// Words, the number that the program ends with, and what it says.
const SAID: &[(&[&str], u8, &[u8])] = &[
    (
        &["check", "code"],
        0,
        b"accepted rate 2 field 8 demands 2\n",
    ),
    (&["check", "missing"], 10, b"read fault\n"),
    (
        &["send", "code", "f", "1", "code", "out"],
        9,
        b"unknown pattern: f\n",
    ),
    (
        &["send", "code", "none", "1", "code", "out"],
        0,
        b"sent 92 bytes in 1 generations to 2 sinks\n",
    ),
    (
        &["sendtwo", "code", "none", "1", "1", "code", "code", "out"],
        0,
        b"sent 92 and 92 bytes in 1 generations to 2 sinks\n",
    ),
    (
        &["sendtwo", "code", "none", "1", "2", "code", "code", "out"],
        23,
        b"bad split: rate 2\n",
    ),
    (&["demo", "4", "2", "67108865"], 2, USAGE),
    (&["check", "code", "code"], 2, USAGE),
    (&["send", "code", "none", "1", "code"], 2, USAGE),
    (&["send", "code", "none", "1", "code", "out", ""], 2, USAGE),
    (
        &["sendtwo", "code", "none", "1", "1", "code", "out"],
        2,
        USAGE,
    ),
    (&[], 2, USAGE),
];

const USAGE: &[u8] =
    b"usage: lif order NET | cuts NET | compile NET CODE REPORT | check CODE | send CODE PATTERN SEED SRC PREFIX | demo N K BYTES | migrate OLD NEW | relay CODE PATTERN NODE IN OUT | sink CODE PATTERN SINK IN DST | blind CODE SRC PREFIX LINK | finish DRAFT CODE | twin NET SECOND R1 R2 CODE REPORT | sendtwo CODE PATTERN SEED R1 SRC1 SRC2 PREFIX\n";

// Whether words end with a number, and that is said.
fn says<R: Threads + Sync>(
    rt: &R,
    alloc: Global,
    words: &[&str],
    number: u8,
    said: &[u8],
) -> io::Result<bool> {
    let files = system(alloc, 0, words)?;
    Ok(launch(&files, rt) == ExitCode::from(number) && files.has_said(said))
}

// The first words that don't, by their place.
fn first_wrong_words<R: Threads + Sync>(rt: &R, alloc: Global) -> io::Result<Option<usize>> {
    for (place, (words, number, said)) in SAID.iter().enumerate() {
        if !says(rt, alloc, words, *number, said)? {
            return Ok(Some(place));
        }
    }
    Ok(None)
}

#[test]
fn all_words_are_handed_on(rt: HostRuntime) -> Result<(), Fail> {
    let wrong = first_wrong_words(&rt, rt.alloc())?;
    assert_eq!(rt; wrong, None);
    Ok(())
}

// Whether each sink's file holds the source, or a front of it where it needn't be whole.
fn has_files(files: &MemFiles, source: &[u8], whole: bool) -> bool {
    files.holds("out.t1", source, whole) && files.holds("out.t2", source, whole)
}

// Whether a run ended with a status that tells what came of it.
fn is_told(status: ExitCode, files: &MemFiles, source: &[u8]) -> bool {
    if status == ExitCode::SUCCESS {
        return files.has_said(SENT) && has_files(files, source, true);
    }
    if status == ExitCode::from(10) {
        return files.has_said(b"read fault\n") && has_files(files, source, false);
    }
    status == ExitCode::from(11)
        && if files.has_said(b"write fault\n") {
            has_files(files, source, false)
        } else {
            // The line was put in part, or was put and not flushed.
            (files.has_said(b"") || files.has_said(SENT)) && has_files(files, source, true)
        }
}

// Whether a run in which the call of this number fails is told; whether it failed; and whether the call was made.
fn goes<R: Threads + Sync>(
    rt: &R,
    alloc: Global,
    failing: u64,
    source: &[u8],
) -> io::Result<(bool, bool, bool)> {
    let files = system(alloc, failing, WORDS)?;
    files.put("source", source)?;
    let status = launch(&files, rt);
    Ok((
        is_told(status, &files, source),
        status != ExitCode::SUCCESS,
        failing <= files.calls(),
    ))
}

// How many calls lead to a fault that is told, where each call that fails leads to a status that tells what came of it.
fn told_faults<R: Threads + Sync>(rt: &R, alloc: Global, source: &[u8]) -> io::Result<Option<u32>> {
    let mut faults = 0u32;
    for failing in 1..MOST_CALLS {
        match goes(rt, alloc, failing, source)? {
            (true, failed, true) => faults = faults.saturating_add(failed as u32),
            (true, false, false) => return Ok(Some(faults)),
            _ => return Ok(None),
        }
    }
    Ok(None)
}

#[test]
fn each_call_below_the_program_may_fail(rt: HostRuntime) -> Result<(), Fail> {
    let source = varied_bytes(rt.alloc(), 10_000)?;
    let faults = told_faults(&rt, rt.alloc(), &source)?;
    assert!(rt;
        faults.is_some_and(|count| count > 40),
        "{faults:?} faults are told"
    );
    Ok(())
}

// Whether a source comes to the sinks' files, whichever of standard input, output and error are closed, and where the
// output is, that is the fault.
fn sends_with<R: Threads + Sync>(
    rt: &R,
    alloc: Global,
    closed: &[usize],
    source: &[u8],
) -> io::Result<bool> {
    let files = system(alloc, 0, WORDS)?;
    files.put("source", source)?;
    for number in closed {
        files.close_standard(*number);
    }
    let (status, said) = if closed.contains(&1) {
        (ExitCode::from(11), b"".as_slice())
    } else {
        (ExitCode::SUCCESS, SENT)
    };
    Ok(launch(&files, rt) == status && files.has_said(said) && has_files(&files, source, true))
}

// Whether a source that a pipe gives comes to a file and to a pipe.
fn sends_by_pipes<R: Threads + Sync>(rt: &R, alloc: Global, source: &[u8]) -> io::Result<bool> {
    let files = system(alloc, 0, WORDS)?;
    files.put_pipe("source", source)?;
    files.put_pipe("out.t1", b"")?;
    Ok(
        launch(&files, rt) == ExitCode::SUCCESS
            && files.has_said(SENT)
            && has_files(&files, source, true),
    )
}

// Which of standard input, output and error are closed, by their numbers.
const CLOSED: &[&[usize]] = &[&[], &[0], &[1], &[2], &[0, 1], &[0, 2], &[1, 2], &[0, 1, 2]];

// Whether a source is sent so with each of these closed, and through pipes.
fn are_sent<R: Threads + Sync>(rt: &R, alloc: Global, source: &[u8]) -> io::Result<bool> {
    for closed in CLOSED {
        if !sends_with(rt, alloc, closed, source)? {
            return Ok(false);
        }
    }
    sends_by_pipes(rt, alloc, source)
}

#[test]
fn closed_streams_and_pipes_serve(rt: HostRuntime) -> Result<(), Fail> {
    let source = varied_bytes(rt.alloc(), 10_000)?;
    assert!(rt; are_sent(&rt, rt.alloc(), &source)?);
    Ok(())
}
