//! Which regular files are known, whatever path leads to them.
ghost use Rattle.std.specs.Prelude.{◌≡◌, ◌↔◌, None, Some, false, IsTrue, IsFalse, IfOk, OnOk};

use indexmap::IndexMap;
use std::alloc::{AllocError, Global};
use std::fs::Metadata;
use std::os::unix::fs::MetadataExt;

/// A regular file: its device, and its number there.
pub type FileId = (u64, u64);

/// Which file this is said of, where it is a regular one. A system that numbers no files gives 0 for each.
pub fn id_of(metadata: &Metadata) -> Option<FileId> {
    if metadata.is_file() && metadata.ino() != 0 {
        Some((metadata.dev(), metadata.ino()))
    } else {
        None
    }
}

/// How a file is known.
#[derive(Drop)]
pub enum Known {
    /// By this path alone, which was named or made.
    By(String),
    /// It was read, or two paths lead to it: it isn't made anew.
    Fixed,
}

/// The files that are known.
pub struct KnownFiles {
    files: IndexMap<FileId, Known>,
}

// Whoever lets them go makes this one call, in place of going through all that a map is made of.
impl Drop for KnownFiles {
    fn drop(self) {
        let KnownFiles { files: _files } = self;
    }
}

impl KnownFiles {
    ghost use Rattle.system_files.specs.declared.known.Known.TheVariants.{Fixed};
    ghost use Rattle.system_files.specs.Known.{FileId, known_as, KeepsOtherFiles, MayMake, IsKnownBy};

    /// None.
    pub fn new(alloc: Global) -> KnownFiles
        ensures { (id : FileId) → known_as result id ≡ None }
    {
        KnownFiles {
            files: IndexMap::new(alloc),
        }
    }

    /// Whether a file may be made under a path: it isn't known, or by that path alone.
    pub fn may_make(&self, id: FileId, path: &str) -> bool
        ensures { IsTrue result ↔ MayMake (known_as self.now id) path.now }
    {
        match self.files.get(&id) {
            None => true,
            Some(Known::By(own)) => own.as_str() == path,
            Some(Known::Fixed) => false,
        }
    }

    /// Notes that a path leads to a file, and answers whether the file may be made under it.
    pub fn name(&mut self, alloc: Global, id: FileId, path: &str) -> Result<bool, AllocError>
        ensures alone { IfOk result (λ alone. IsTrue alone ↔ MayMake (known_as self.old id) path.now) }
        ensures own { IfOk result (λ alone. IsTrue alone → IsKnownBy path.now (known_as self.new id)) }
        ensures fixed { IfOk result (λ alone. IsFalse alone → known_as self.new id ≡ Some Fixed) }
        ensures others { KeepsOtherFiles id self.old self.new }
    {
        let alone = self.may_make(id, path);
        let known = if alone {
            Known::By(String::from_str(alloc, path)?)
        } else {
            Known::Fixed
        };
        self.files.insert(id, known)?;
        Ok(alone)
    }

    /// Notes that a file was read.
    pub fn fix(&mut self, id: FileId) -> Result<(), AllocError>
        ensures fixed { OnOk result (known_as self.new id ≡ Some Fixed) }
        ensures others { KeepsOtherFiles id self.old self.new }
    {
        self.files.insert(id, Known::Fixed)?;
        Ok(())
    }
}
