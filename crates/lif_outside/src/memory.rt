//! A store and a sink in memory. They tell their content, and fail where they are told to.
ghost use Rattle.std.specs.Prelude.{◌≡◌, ◌⊎◌, ◌↔◌, ◌≤◌, ◌<◌, ◌-◌, ◌∷◌, [], ℕ, List, min, length, drop, option_map, unwrap_or, Contains, IfOk, IfSome, OnOk, OnErr, IsErr, IsSome};
ghost use Rattle.lif_outside.specs.AccountLaws.{accounts_none, accounts_then, puts_none, puts_then};
ghost use Rattle.lif_outside.specs.Accounts.{StoreAccounts, SinkAccounts};
ghost use Rattle.lif_outside.specs.Counts.{one_more};
ghost use Rattle.lif_outside.specs.Events.{read_event, create_event, append_event};
ghost use Rattle.lif_outside.specs.Files.{SameFiles};
ghost use Rattle.lif_outside.specs.Limits.{last_place};
ghost use Rattle.lif_outside.specs.Puts.{put_event};

pub mod parts;

use crate::{Failed, Sink, Store};
use parts::{add_bytes, count_one, empty_file, failed, keep_of, read_part};
use std::alloc::{AllocError, Global};
use std::collections::BTreeMap;

/// A kind of call on a store.
#[derive(Clone, Copy, Debug, PartialEq, Eq)]
pub enum Call {
    Read,
    Create,
    Append,
}

/// A call that is to fail: the `nth` of its kind, counted from 1. A failing append keeps the first `keep`
/// bytes, all where there are fewer, and none where memory runs out.
#[derive(Clone, Copy, Debug, PartialEq, Eq)]
pub struct Fail {
    pub call: Call,
    pub nth: u64,
    pub keep: usize,
}

/// Files in memory. A call fails where it is listed and where memory runs out, and a read where no file is.
#[derive(Drop)]
pub struct MemStore {
    alloc: Global,
    files: BTreeMap<String, Vec<u8>>,
    most: usize,
    fails: Vec<Fail>,
    reads: u64,
    creates: u64,
    appends: u64,
    faults: u64,
    ghost some_room: { 1 ≤ most },
}

/// Bytes in memory. A put fails where it is listed and where memory runs out, and adds nothing then.
#[derive(Drop)]
pub struct MemSink {
    bytes: Vec<u8>,
    fails: Vec<u64>,
    puts: u64,
    faults: u64,
}

impl MemStore {
    ghost use Rattle.lif_outside.specs.declared.memory.Call.{Call};
    ghost use Rattle.lif_outside.specs.Memory.{files_in, most_of, fails_of, calls_of, faults_of, listing, CountsCall, SameCalls, SetsFile};

    /// A store without files. A read gives at most `most` bytes, and the calls of `fails` fail. It takes
    /// no memory.
    pub fn new(alloc: Global, most: usize, fails: Vec<Fail>) -> MemStore
        requires { 1 ≤ most }
        ensures empty { (path : List ℕ) → files_in result path ≡ None }
        ensures most { most_of result ≡ most }
        ensures fails { fails_of result ≡ fails.items }
        ensures calls { (call : Call) → calls_of result call ≡ 0 }
        ensures faults { faults_of result ≡ 0 }
    {
        MemStore {
            alloc,
            files: BTreeMap::new(alloc),
            most,
            fails,
            reads: 0,
            creates: 0,
            appends: 0,
            faults: 0,
        }
    }

    /// Sets a file. It counts as no call. It fails where memory runs out, and then leaves all files as
    /// they were.
    pub fn put_file(&mut self, alloc: Global, path: &str, bytes: &[u8]) -> Result<(), AllocError>
        ensures ok { OnOk result
            (SetsFile path.now bytes.now (files_in self.old) (files_in self.new)) }
        ensures err { OnErr result (SameFiles (files_in self.old) (files_in self.new)) }
        ensures calls { SameCalls self.old self.new }
    {
        let content = Vec::from_slice(alloc, bytes)?;
        self.files.insert(String::from_str(alloc, path)?, content)?;
        Ok(())
    }

    /// What a path holds, where a file is there.
    pub fn file(&self, path: &str) -> Option<&[u8]>
        ensures { option_map (λ bytes. bytes.now) result ≡ files_in self.now path.now }
    {
        self.files.get(path).map(|file| file.as_slice())
    }

    // Counts a call. Where it is listed to fail, says how many bytes it keeps.
    fn count_call(&mut self, call: Call) -> Option<usize>
        ensures listed { result ≡ listing self.old call }
        ensures call { CountsCall call self.old self.new }
        ensures files { SameFiles (files_in self.old) (files_in self.new) }
        ensures faults { faults_of self.new ≡ faults_of self.old }
    {
        let nth = match call {
            Call::Read => count_one(&mut self.reads),
            Call::Create => count_one(&mut self.creates),
            Call::Append => count_one(&mut self.appends),
        };
        keep_of(&self.fails, call, nth)
    }
}

impl Store for MemStore {
    ghost use Rattle.std.specs.Prelude.{Some};
    ghost use Rattle.lif_outside.specs.Memory.{files_in, HasFile, path_faults, most_of, faults_of, listing, CountsCall, KeepsAsListed, SetsFile, calls_in};

    ghost files = { λ store. Some (files_in store) };

    ghost read_faults = { path_faults };

    ghost write_faults = { path_faults };

    ghost made = { HasFile };

    ghost calls = { calls_in };

    ghost no_calls = { accounts_none
        (λ store. Some (files_in store)) path_faults path_faults HasFile };

    ghost more_calls = { accounts_then
        (λ store. Some (files_in store)) path_faults path_faults HasFile };

    ghost accounts = { λ _ _ _ h. h };

    fn read(&mut self, path: &str, at: u64, into: &mut [u8]) -> Result<usize, Failed>
        requires { at ≤ last_place }
        ensures count { IfOk result (λ n. n ≤ length into.old) }
        ensures rest { IfOk result (λ n. drop n into.new ≡ drop n into.old) }
        ensures call { calls_in
            (read_event path.now at (length into.old) result into.new ∷ []) self.old self.new }

        // How many bytes come, and when it fails.
        ensures given { IfOk result (λ n. n ≡ min (most_of self.old) (min (length into.old)
            (length (unwrap_or (files_in self.old path.now) []) - at))) }
        ensures fails { IsErr result
            ↔ (IsSome (listing self.old Call.Read) ⊎ (files_in self.old path.now ≡ None)) }
        ensures err { OnErr result (into.new ≡ into.old) }
        ensures counted { CountsCall Call.Read self.old self.new }
        ensures faults_ok { OnOk result (faults_of self.new ≡ faults_of self.old) }
        ensures faults_err { OnErr result (faults_of self.new ≡ one_more (faults_of self.old)) }
    {
        if self.count_call(Call::Read).is_some() {
            return Err(failed(&mut self.faults));
        }
        let Some(file) = self.files.get(path) else {
            return Err(failed(&mut self.faults));
        };
        Ok(read_part(file, at as usize, self.most, into))
    }

    fn create(&mut self, path: &str) -> Result<(), Failed>
        ensures call { calls_in (create_event path.now result ∷ []) self.old self.new }

        // When it fails: only a new path takes memory.
        ensures listed { IsSome (listing self.old Call.Create) → IsErr result }
        ensures memory { IsErr result
            → IsSome (listing self.old Call.Create) ⊎ (files_in self.old path.now ≡ None) }
        ensures err { OnErr result (SameFiles (files_in self.old) (files_in self.new)) }
        ensures counted { CountsCall Call.Create self.old self.new }
        ensures faults_ok { OnOk result (faults_of self.new ≡ faults_of self.old) }
        ensures faults_err { OnErr result (faults_of self.new ≡ one_more (faults_of self.old)) }
    {
        if self.count_call(Call::Create).is_some()
            || empty_file(self.alloc, &mut self.files, path).is_err()
        {
            return Err(failed(&mut self.faults));
        }
        Ok(())
    }

    fn append(&mut self, path: &str, bytes: &[u8]) -> Result<(), Failed>
        requires { HasFile self.old path.now }
        ensures call { calls_in (append_event path.now bytes.now result ∷ []) self.old self.new }

        // When it fails, and what it keeps: no bytes take no memory.
        ensures listed { IfSome (listing self.old Call.Append) (λ keep. IsErr result) }
        ensures memory { IsErr result
            → IsSome (listing self.old Call.Append) ⊎ (0 < length bytes.now) }
        ensures kept { OnErr result (KeepsAsListed (listing self.old Call.Append) path.now bytes.now
            (files_in self.old) (files_in self.new)) }
        ensures counted { CountsCall Call.Append self.old self.new }
        ensures faults_ok { OnOk result (faults_of self.new ≡ faults_of self.old) }
        ensures faults_err { OnErr result (faults_of self.new ≡ one_more (faults_of self.old)) }
    {
        let listed = self.count_call(Call::Append);
        let Some(file) = self.files.get_mut(path) else {
            unreachable!();
        };
        let added = add_bytes(file, bytes, listed);
        if listed.is_some() || added.is_err() {
            return Err(failed(&mut self.faults));
        }
        Ok(())
    }
}

impl MemSink {
    ghost use Rattle.lif_outside.specs.Memory.{bytes_in, put_fails_of, puts_of, put_faults_of};

    /// A sink without bytes. The puts of `fails` fail, counted from 1. It takes no memory.
    pub fn new(alloc: Global, fails: Vec<u64>) -> MemSink
        ensures empty { bytes_in result ≡ [] }
        ensures fails { put_fails_of result ≡ fails.items }
        ensures puts { puts_of result ≡ 0 }
        ensures faults { put_faults_of result ≡ 0 }
    {
        MemSink {
            bytes: Vec::new(alloc),
            fails,
            puts: 0,
            faults: 0,
        }
    }

    /// The bytes that were put.
    pub fn bytes(&self) -> &[u8]
        ensures { result.now ≡ bytes_in self.now }
    {
        self.bytes.as_slice()
    }
}

impl Sink for MemSink {
    ghost use Rattle.std.specs.Prelude.{Some};
    ghost use Rattle.lif_outside.specs.Memory.{bytes_in, put_fails_of, puts_of, put_faults_of, puts_in};

    ghost written = { λ sink. Some (bytes_in sink) };

    ghost faults = { put_faults_of };

    ghost puts = { puts_in };

    ghost no_puts = { puts_none (λ sink. Some (bytes_in sink)) put_faults_of };

    ghost more_puts = { puts_then (λ sink. Some (bytes_in sink)) put_faults_of };

    ghost accounts = { λ _ _ _ h. h };

    fn put(&mut self, bytes: &[u8]) -> Result<(), Failed>
        ensures put { puts_in (put_event bytes.now result ∷ []) self.old self.new }

        // When it fails: no bytes take no memory. Nothing is kept then.
        ensures listed { Contains (put_fails_of self.old) (one_more (puts_of self.old))
            → IsErr result }
        ensures memory { IsErr result
            → Contains (put_fails_of self.old) (one_more (puts_of self.old))
            ⊎ (0 < length bytes.now) }
        ensures err { OnErr result (bytes_in self.new ≡ bytes_in self.old) }
        ensures counted { puts_of self.new ≡ one_more (puts_of self.old) }
        ensures fails { put_fails_of self.new ≡ put_fails_of self.old }
        ensures faults_ok { OnOk result (put_faults_of self.new ≡ put_faults_of self.old) }
        ensures faults_err { OnErr result
            (put_faults_of self.new ≡ one_more (put_faults_of self.old)) }
    {
        let nth = count_one(&mut self.puts);
        if self.fails.contains(&nth) || self.bytes.extend_from_slice(bytes).is_err() {
            return Err(failed(&mut self.faults));
        }
        Ok(())
    }
}
