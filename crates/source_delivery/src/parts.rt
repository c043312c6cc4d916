//! How the rows of a code's blocks are shared among the sources that are sent.
ghost use Rattle.std.specs.Prelude.{◌≡◌, ◌*◌, ◌≤◌, length};
ghost use Rattle.generation_frame.specs.Blocks.{row_bytes};
ghost use Rattle.source_delivery.specs.Parts.{first_rows, rows_of, sink_of};

use generation_frame::ROW;

/// How the rows of a code's blocks are shared among the sources that are sent.
#[derive(Clone, Copy, Debug, PartialEq, Eq)]
pub enum Parts {
    /// All are those of one source, and each sink has one file.
    One,
    /// So many from the first on are those of one source, and the others those of another: each sink has two files, which
    /// stand one after the other.
    Two(u32),
}

impl Parts {
    // The sink of a file, by the place of the file among those of all sinks.
    pub(crate) fn sink(self, file: usize) -> usize
        ensures { result ≡ sink_of self file }
    {
        match self {
            Parts::One => file,
            Parts::Two(_) => file / 2,
        }
    }

    // Of the rows of a block, those of the source of a file.
    pub(crate) fn rows<'b>(self, file: usize, block: &'b [u8]) -> &'b [u8]
        requires { first_rows self * row_bytes ≤ length block.now }
        ensures { result.now ≡ rows_of self file block.now }
    {
        match self {
            Parts::One => block,
            Parts::Two(rows) => {
                let (first, second) = block.split_at(rows as usize * ROW);
                if file % 2 == 0 { first } else { second }
            }
        }
    }
}
