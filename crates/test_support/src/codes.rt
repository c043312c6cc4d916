//! The codes of files, and their checks.
use code_checker::{CheckRefusal, Checked, check};
use code_file::{CODE_LIMIT, CodeRefusal, Draft, read_code, read_draft};
use lif_outside::NoGate;
use node_program::Code;
use std::alloc::Global;
use std::thread::Threads;

/// The code of a file. One that is longer than code files may be counts as one for which there was no memory.
pub fn code_of(alloc: Global, file: &[u8]) -> Result<Code, CodeRefusal> {
    if file.len() > CODE_LIMIT {
        return Err(CodeRefusal::OutOfMemory);
    }
    read_code(alloc, file)
}

/// The draft of a file. One that is longer than such files may be counts as one for which there was no memory.
pub fn draft_of(alloc: Global, file: &[u8]) -> Result<Draft, CodeRefusal> {
    if file.len() > CODE_LIMIT {
        return Err(CodeRefusal::OutOfMemory);
    }
    read_draft(alloc, file)
}

// The check of a code, without the code where it is refused.
fn checked<R: Threads + Sync>(rt: &R, alloc: Global, code: Code) -> Result<Checked, CheckRefusal> {
    match check(rt, alloc, code, &NoGate) {
        Ok(checked) => Ok(checked),
        Err(refused) => Err(refused.why),
    }
}

/// The check of the code of a file. A file that isn't read counts as one for which there was no memory.
pub fn checked_of<R: Threads + Sync>(
    rt: &R,
    alloc: Global,
    file: &[u8],
) -> Result<Checked, CheckRefusal> {
    match code_of(alloc, file) {
        Ok(code) => checked(rt, alloc, code),
        Err(_) => Err(CheckRefusal::OutOfMemory),
    }
}
