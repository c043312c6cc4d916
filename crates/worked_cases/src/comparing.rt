//! What came of a run beside what was wanted.
use case_reader::differences::Differences;
use case_reader::named::{Named, found};
use case_reader::scene::{Scene, Trouble};
use case_reader::wanted::{Content, Number, Wanted, WantedFile, WantedFrame, WantedNumber};
use lif_outside::{Call, Flight, MemStore};
use logged_store::Event;
use test_support::watched::Calls;

/// What came of a run: its status, what was said, the store with the calls on it, and those on the links.
#[derive(Clone, Copy)]
pub struct Came<'a> {
    pub status: u8,
    pub said: &'a [u8],
    pub store: &'a MemStore,
    pub log: &'a [Event],
    /// Whether there was memory for all of the log.
    pub is_logged: bool,
    pub calls: &'a Calls,
    pub may_carry: bool,
}

// A path as text. Each path of a store is.
fn text_of(path: &[u8]) -> &str {
    str::from_utf8(path).unwrap_or_default()
}

// What stands at a path.
fn file_at<'a>(store: &'a MemStore, path: &[u8]) -> Option<&'a [u8]> {
    store.file(text_of(path))
}

// Which call an event is.
fn call_of(event: &Event) -> Call {
    match event {
        Event::Read { .. } | Event::ReadFailed { .. } => Call::Read,
        Event::Created { .. } | Event::CreateFailed { .. } => Call::Create,
        Event::Appended { .. } | Event::AppendFailed { .. } => Call::Append,
    }
}

// Whether an event is a call that failed.
fn has_failed(event: &Event) -> bool {
    matches!(
        event,
        Event::ReadFailed { .. } | Event::CreateFailed { .. } | Event::AppendFailed { .. }
    )
}

// How many calls of a kind were made on the store.
fn made(log: &[Event], call: Call) -> u64 {
    let mut count = 0u64;
    for event in log {
        if call_of(event) == call {
            count = count.saturating_add(1);
        }
    }
    count
}

// Whether a call on the store came behind one that failed.
fn has_late_call(log: &[Event]) -> bool {
    let mut is_late = false;
    for event in log {
        if is_late {
            return true;
        }
        is_late = has_failed(event);
    }
    false
}

// Whether a path is one of those that are told.
fn is_told(files: &[WantedFile], path: &[u8]) -> bool {
    for file in files {
        if file.path.as_slice() == path {
            return true;
        }
    }
    false
}

// Whether what stands at a path is what is told of it.
fn fits(file: &WantedFile, came: &[u8]) -> bool {
    match file.content {
        Content::These => file.bytes.as_slice() == came,
        Content::Any => true,
        Content::NoFile => false,
    }
}

// A file that is told.
fn compare_file(file: &WantedFile, came: Option<&[u8]>, differences: &mut Differences<'_>) {
    match came {
        Some(came) if fits(file, came) => {}
        Some(came) => {
            differences.tell_bytes(file.line, text_of(&file.path), &file.bytes, came);
        }
        None => {
            let is_so = matches!(file.content, Content::NoFile);
            differences.want(is_so, file.line, "no file is there");
        }
    }
}

// The files that are told.
fn compare_told(files: &[WantedFile], store: &MemStore, differences: &mut Differences<'_>) {
    for file in files {
        compare_file(file, file_at(store, &file.path), differences);
    }
}

// A file that isn't told: it is to stand as before.
fn compare_other(run: usize, file: &Named, came: Option<&[u8]>, differences: &mut Differences<'_>) {
    match came {
        Some(came) => differences.want_bytes(run, text_of(&file.name), &file.bytes, came),
        None => differences.tell(run, "a file is gone"),
    }
}

// The files that stood there and aren't told.
fn compare_others(
    wanted: &Wanted,
    before: &[Named],
    store: &MemStore,
    differences: &mut Differences<'_>,
) {
    for file in before {
        if !is_told(&wanted.files, &file.name) {
            compare_other(wanted.run, file, file_at(store, &file.name), differences);
        }
    }
}

// A file that a call made. It is to be one of those that are told or stood there.
fn compare_made(wanted: &Wanted, before: &[Named], path: &[u8], differences: &mut Differences<'_>) {
    if found(before, path).is_none() && !is_told(&wanted.files, path) {
        differences.tell_bytes(wanted.run, "a further file was made", b"", path);
    }
}

// The files that calls made.
fn compare_all_made(
    wanted: &Wanted,
    before: &[Named],
    log: &[Event],
    differences: &mut Differences<'_>,
) {
    for event in log {
        if let Event::Created { path } = event {
            compare_made(wanted, before, path.as_bytes(), differences);
        }
    }
}

// How many pairs have frames with these bytes from a place on.
fn count_with(puts: &[Flight], place: usize, bytes: &[u8]) -> u64 {
    let mut count = 0u64;
    for flight in puts {
        let behind = flight.frame.get(place..).unwrap_or_default();
        if behind.starts_with(bytes) {
            count = count.saturating_add(1);
        }
    }
    count
}

// How many pairs are on a link.
fn count_on(puts: &[Flight], link: u64) -> u64 {
    let mut count = 0u64;
    for flight in puts {
        if u64::from(flight.link) == link {
            count = count.saturating_add(1);
        }
    }
    count
}

// A pair whose frame has the front that is told of: it is on the link that the front names, and has this payload.
fn compare_put(frame: &WantedFrame, link: u32, payload: &[u8], differences: &mut Differences<'_>) {
    let (wanted, came) = (u64::from(frame.link), u64::from(link));
    differences.want_number(frame.line, "link", wanted, came);
    differences.want_bytes(frame.line, "payload", &frame.payload, payload);
}

// A frame that is told: one is put with this front.
fn compare_frame(frame: &WantedFrame, puts: &[Flight], differences: &mut Differences<'_>) {
    let count = count_with(puts, 0, &frame.front);
    differences.want_number(frame.line, "frames with these numbers", 1, count);
    for flight in puts {
        if let Some(payload) = flight.frame.strip_prefix(&frame.front) {
            compare_put(frame, flight.link, payload, differences);
        }
    }
}

// The frames that are told.
fn compare_frames(frames: &[WantedFrame], puts: &[Flight], differences: &mut Differences<'_>) {
    for frame in frames {
        compare_frame(frame, puts, differences);
    }
}

// The number that came.
fn number_of(number: Number, came: &Came<'_>) -> u64 {
    let calls = came.calls;
    match number {
        Number::OnStore(call) => made(came.log, call),
        Number::OnLinks => u64::from(!calls.are_none()),
        Number::Opens => u64::from(calls.opens),
        Number::Seed => calls.opened.unwrap_or((0, 0)).0,
        Number::Room => u64::from(calls.opened.unwrap_or((0, 0)).1),
        Number::Frames => calls.puts.len() as u64,
        Number::FramesOn(link) => count_on(&calls.puts, link),
        Number::FramesOf(generation) => count_with(&calls.puts, 8, &generation),
        Number::Takes => u64::from(calls.takes),
    }
}

// A number that is told.
fn compare_number(wanted: &WantedNumber, came: &Came<'_>, differences: &mut Differences<'_>) {
    let number = number_of(wanted.of, came);
    if matches!(wanted.of, Number::OnLinks) {
        differences.want(number == wanted.number, wanted.line, wanted.what);
    } else {
        differences.want_number(wanted.line, wanted.what, wanted.number, number);
    }
}

// The numbers that are told.
fn compare_numbers(numbers: &[WantedNumber], came: &Came<'_>, differences: &mut Differences<'_>) {
    for number in numbers {
        compare_number(number, came, differences);
    }
}

// Whether each of these calls, counted from 1, was made.
fn are_made(calls: &[u64], count: u64) -> bool {
    for nth in calls {
        if *nth > count {
            return false;
        }
    }
    true
}

// Whether each call on the store that is to fail was made.
fn store_calls_made(trouble: &Trouble, log: &[Event]) -> bool {
    for fail in &trouble.fails {
        if fail.nth > made(log, fail.call) {
            return false;
        }
    }
    true
}

// Whether each take that is to change a payload was made.
fn spoils_made(trouble: &Trouble, takes: u64) -> bool {
    for spoil in &trouble.spoils {
        if spoil.nth > takes {
            return false;
        }
    }
    true
}

// Whether each call that is to fail, keep its pair or change it was made.
fn all_made(trouble: &Trouble, came: &Came<'_>) -> bool {
    let (puts, takes) = (came.calls.puts.len() as u64, u64::from(came.calls.takes));
    store_calls_made(trouble, came.log)
        && are_made(&trouble.put_fails, puts)
        && are_made(&trouble.take_fails, takes)
        && are_made(&trouble.keeps, takes)
        && spoils_made(trouble, takes)
}

// What holds of the calls of every run.
fn compare_order(
    run: usize,
    trouble: &Trouble,
    came: &Came<'_>,
    differences: &mut Differences<'_>,
) {
    let is_late = has_late_call(came.log) || came.calls.late > 0;
    let is_fit = came.may_carry || came.calls.are_none();
    differences.want(came.is_logged, run, "out of memory for the calls");
    differences.want(!is_late, run, "a call came behind one that failed");
    differences.want(is_fit, run, "a call was made on the links");
    let are_made = all_made(trouble, came);
    differences.want(are_made, run, "a call that is told of wasn't made");
}

// The status that is told.
fn compare_status(wanted: &Wanted, status: u8, differences: &mut Differences<'_>) {
    match wanted.status {
        Some((line, number)) => {
            differences.want_number(line, "status", number, u64::from(status));
        }
        None => differences.tell(wanted.run, "no status is told"),
    }
}

/// Tells all in which what came of a run differs from what was wanted.
pub fn compare(scene: &Scene<'_>, came: &Came<'_>, differences: &mut Differences<'_>) {
    let (wanted, before) = (&scene.wanted, scene.files.as_slice());
    compare_status(wanted, came.status, differences);
    differences.want_bytes(wanted.run, "said", &wanted.said, came.said);
    compare_told(&wanted.files, came.store, differences);
    compare_others(wanted, before, came.store, differences);
    compare_all_made(wanted, before, came.log, differences);
    compare_numbers(&wanted.numbers, came, differences);
    compare_frames(&wanted.frames, &came.calls.puts, differences);
    compare_order(wanted.run, &scene.trouble, came, differences);
}
