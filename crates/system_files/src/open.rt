//! The files of a system that are open, and those that are known.
ghost use Rattle.std.specs.Prelude.{◌≡◌, ◌<◌, IsTrue, ℕ, List, None};

use crate::kept::KeptFiles;
use crate::known::KnownFiles;
use std::alloc::Global;
use std::fs::OpenOptions;
use std::io;
use std::rt::Files;

// Why no more files can be open: the system, or this process, has no handle left.
const NONE_IN_SYSTEM: i32 = 23;

const NONE_IN_PROCESS: i32 = 24;

/// Files that are open, those that are read apart from those that are appended to, and which files are known.
#[derive(Drop)]
pub struct OpenFiles<F> {
    pub sources: KeptFiles<F>,
    pub sinks: KeptFiles<F>,
    pub known: KnownFiles,
}

// Whether a file wasn't opened for want of a handle.
fn lacks_handle<F>(opened: &io::Result<F>) -> bool {
    match opened {
        Ok(_) => false,
        Err(error) => matches!(error.raw_os_error(), Some(NONE_IN_SYSTEM | NONE_IN_PROCESS)),
    }
}

impl<F: Drop> OpenFiles<F> {
    ghost use Rattle.system_files.specs.Kept.{handle_of};
    ghost use Rattle.system_files.specs.Open.{sources_of, sinks_of, open_count, OnlyClosesAny};

    /// None.
    pub fn new(alloc: Global) -> OpenFiles<F>
        ensures sources { (path : List ℕ) → handle_of (sources_of result) path ≡ None }
        ensures sinks { (path : List ℕ) → handle_of (sinks_of result) path ≡ None }
    {
        OpenFiles {
            sources: KeptFiles::new(alloc),
            sinks: KeptFiles::new(alloc),
            known: KnownFiles::new(alloc),
        }
    }

    // Closes one of the files that may be closed, and answers whether there was one.
    fn close_one(&mut self) -> bool
        ensures fewer { IsTrue result → open_count self.new < open_count self.old }
        ensures rest { OnlyClosesAny self.old self.new }
    {
        self.sinks.close_first() || self.sources.close_first()
    }

    /// Opens a file. For want of a handle, one that may be closed is, and it is tried again.
    pub fn open<R: Files<File = F>>(
        &mut self,
        rt: &R,
        how: &OpenOptions,
        path: &str,
    ) -> io::Result<F>
        ensures { OnlyClosesAny self.old self.new }
    {
        let mut opened = how.open(rt, path);
        while lacks_handle(&opened) && self.close_one() {
            opened = how.open(rt, path);
        }
        opened
    }
}
