//! How many cases went, and what was told of them.
use crate::differences::Differences;
use std::alloc::Global;

/// How many cases went, how many of them differ, and the lines that tell it, as far as there was memory for them.
#[derive(Drop)]
pub struct Tally {
    pub cases: u64,
    pub differ: u64,
    text: String,
    is_whole: bool,
}

impl Tally {
    /// No case yet.
    pub fn none(alloc: Global) -> Tally {
        Tally {
            cases: 0,
            differ: 0,
            text: String::new(alloc),
            is_whole: true,
        }
    }

    /// Counts a case that went.
    pub fn add(&mut self, differences: &Differences<'_>) {
        self.cases = self.cases.saturating_add(1);
        if differences.count() > 0 {
            self.differ = self.differ.saturating_add(1);
            self.is_whole &= self.text.push_str(differences.text()).is_ok();
        }
    }

    /// The lines, or that there was no memory for them.
    pub fn text(&self) -> &str {
        if self.is_whole {
            self.text.as_str()
        } else {
            "out of memory\n"
        }
    }
}
