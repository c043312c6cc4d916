//! Gates that tell which jobs enter them.
ghost use Rattle.std.specs.Prelude.{◌<◌};

use lif_outside::Gate;
use std::sync::atomic::{AtomicU64, Ordering};

// How often a job turns at most.
const MOST_TURNS: u32 = 1_000_000_000;

// What an entry of a job counts: those of job 0 are the last digit, those of job 1 the digit before it.
fn one_of(job: u32) -> u64 {
    10u64.saturating_pow(job)
}

/// A gate that counts the entries of each job: those of job 0 are the last digit, those of job 1 the digit before it.
#[derive(Drop)]
pub struct Entries {
    counted: AtomicU64,
}

impl Entries {
    /// One that no job has entered.
    pub fn new() -> Entries {
        Entries {
            counted: AtomicU64::new(0),
        }
    }

    /// What was counted.
    pub fn counted(&self) -> u64 {
        self.counted.load(Ordering::SeqCst)
    }
}

impl Gate for Entries {
    fn enter(&self, job: u32) {
        self.counted.fetch_add(one_of(job), Ordering::SeqCst);
    }
}

/// A gate at which each job turns until another one has entered. It counts the entries as `Entries` does, and the jobs
/// that no other one met.
#[derive(Drop)]
pub struct Meeting {
    entries: Entries,
    alone: AtomicU64,
    most: u32,
}

impl Meeting {
    /// One that no job has entered.
    pub fn new() -> Meeting {
        Meeting::of_turns(MOST_TURNS)
    }

    /// The same, at which a job turns so often at most.
    pub fn of_turns(most: u32) -> Meeting {
        Meeting {
            entries: Entries::new(),
            alone: AtomicU64::new(0),
            most,
        }
    }

    /// Whether the entries are these, and each job met another one.
    pub fn is_met(&self, counted: u64) -> bool {
        self.entries.counted() == counted && self.alone.load(Ordering::SeqCst) == 0
    }
}

impl Gate for Meeting {
    fn enter(&self, job: u32) {
        self.entries.enter(job);
        for _turn in 0..self.most {
            if self.entries.counted() != one_of(job) {
                return;
            }
        }
        self.alone.fetch_add(1, Ordering::SeqCst);
    }
}

/// A gate at which a job that enters for the n-th time turns until some other job has entered n times. So a job meets only
/// those of its own stage, where each job enters once for each stage. It counts as `Entries` does, up to nine entries of a
/// job, and the jobs that no other one met.
#[derive(Drop)]
pub struct Pairing {
    counted: AtomicU64,
    alone: AtomicU64,
    most: u32,
}

impl Pairing {
    /// One that no job has entered.
    pub fn new() -> Pairing {
        Pairing::of_turns(MOST_TURNS)
    }

    /// The same, at which a job turns so often at most.
    pub fn of_turns(most: u32) -> Pairing {
        Pairing {
            counted: AtomicU64::new(0),
            alone: AtomicU64::new(0),
            most,
        }
    }

    /// Whether each job met another one.
    pub fn all_meet(&self) -> bool {
        self.alone.load(Ordering::SeqCst) == 0
    }
}

// How often a job has entered.
fn times(counted: u64, job: u32) -> u64
    ensures { result < 10 }
{
    counted.checked_div(one_of(job)).unwrap_or(0) % 10
}

impl Gate for Pairing {
    fn enter(&self, job: u32) {
        let before = self.counted.fetch_add(one_of(job), Ordering::SeqCst);
        let nth = times(before, job) + 1;
        for _turn in 0..self.most {
            let counted = self.counted.load(Ordering::SeqCst);
            if (0..19).any(|other| other != job && times(counted, other) >= nth) {
                return;
            }
        }
        self.alone.fetch_add(1, Ordering::SeqCst);
    }
}
