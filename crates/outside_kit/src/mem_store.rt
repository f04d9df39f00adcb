//! Files in memory.

ghost use Rattle.std.specs.Prelude.{◌≡◌, ◌≢◌, ◌≤◌, ◌-◌, ◌↔◌, ℕ, List, min, length, take, drop, Contains, Some, None, IfOk, IfSome, OnOk, OnErr, IsErrOf};
ghost use Rattle.bound_base.specs.Outside.{contents_under, CountsOnlyFailed, IsReadOf, Rose};
ghost use Rattle.outside_kit.specs.Calls.{no_calls, failing_at, after_call};

use crate::calls::{Bytes64, Calls};
use bound_base::{Bytes, NoMemory, Store, StoreFault};
use std::alloc::Global;
use std::collections::BTreeMap;

/// Named bytes in memory, some of whose reads can be made to fail. It tells what it holds.
#[derive(Drop)]
pub struct MemStore {
    alloc: Global,
    files: BTreeMap<String, Bytes>,
    calls: Calls,
}

impl MemStore {
    ghost use Rattle.outside_kit.specs.MemStore.{store_files, store_calls, IsHeldAs};

    /// A store that holds nothing. It takes no memory.
    pub fn new(alloc: Global) -> MemStore
        ensures files { (name : List ℕ) → store_files result name ≡ None }
        ensures calls { store_calls result ≡ no_calls }
    {
        MemStore {
            alloc,
            files: BTreeMap::new(alloc),
            calls: Calls::new(alloc),
        }
    }

    /// Holds a copy of the bytes under the name, in place of what was held under it. Where there is no memory for
    /// it, what is held stays as it was.
    pub fn hold(&mut self, name: &str, bytes: &[u8]) -> Result<(), NoMemory>
        ensures ok { OnOk result
            (IsHeldAs (store_files self.old) (store_files self.new) name.now bytes.now) }
        ensures err { OnErr result (store_files self.new ≡ store_files self.old) }
        ensures calls { store_calls self.new ≡ store_calls self.old }
    {
        let name = String::from_str(self.alloc, name)?;
        let mut copy = Bytes::new(self.alloc);
        copy.extend_from_slice(bytes)?;
        self.files.insert(name, copy)?;
        Ok(())
    }

    /// From here on the reads of these numbers fail, counted from 0 since the store was made, and no others.
    pub fn fail(&mut self, calls: Bytes64)
        ensures calls { store_calls self.new ≡ failing_at (store_calls self.old) calls }
        ensures files { store_files self.new ≡ store_files self.old }
    {
        self.calls.fail(calls);
    }
}

impl Store for MemStore {
    ghost use Rattle.outside_kit.specs.MemStore.{store_files, store_calls, has_failed};

    ghost held = { λ store. Some (store_files store) };

    ghost faults = { λ store. (store_calls store).faults };

    /// It takes no memory, and fails just where the call is one of those that are to fail.
    fn read(&mut self, name: &str, at: u64, into: &mut [u8]) -> Result<usize, StoreFault>
        ensures within { IfOk result (λ n. n ≤ length into.old) }
        ensures answer { IsReadOf (contents_under (Some (store_files self.old)) name.now)
            at into.new result }
        ensures failed { IsErrOf result StoreFault.Failed
            → Rose (store_calls self.old).faults (store_calls self.new).faults }
        ensures uncounted { CountsOnlyFailed result
            (store_calls self.old).faults (store_calls self.new).faults }
        ensures count { (store_calls self.old).faults ≤ (store_calls self.new).faults }
        ensures kept { Some (store_files self.new) ≡ Some (store_files self.old) }

        ensures fails { IsErrOf result StoreFault.Failed
            ↔ Contains (store_calls self.old).failing (store_calls self.old).next }
        ensures calls { store_calls self.new
            ≡ after_call (store_calls self.old) (has_failed result) }
        ensures no_memory { result ≢ Err StoreFault.Memory }
        ensures untouched { OnErr result (into.new ≡ into.old) }
        ensures full { IfOk result (λ n. IfSome (store_files self.old name.now)
            (λ contents. n ≡ min (length into.old) (length contents - at))) }
    {
        if self.calls.is_to_fail() {
            self.calls.count_fault();
            return Err(StoreFault::Failed);
        }
        self.calls.count();
        match self.files.get(name) {
            None => Err(StoreFault::Absent),
            Some(contents) => Ok(copy_from(contents.as_slice(), at, into)),
        }
    }
}

/// Copies the contents from the offset on to the front of `into`, as many as there are and as it has room for, and
/// answers how many.
fn copy_from(contents: &[u8], at: u64, into: &mut [u8]) -> usize
    ensures count { result ≡ min (length into.old) (length contents.now - at) }
    ensures bytes { take result into.new ≡ take result (drop at contents.now) }
{
    let rest = match usize::try_from(at) {
        Ok(at) if at < contents.len() => &contents[at..],
        _ => &[],
    };
    let count = rest.len().min(into.len());
    into[..count].copy_from_slice(&rest[..count]);
    count
}
