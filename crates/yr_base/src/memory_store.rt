//! Files in memory.

ghost use Rattle.std.specs.Prelude.{◌≡◌, ℕ, ◌+◌, ◌≤◌, ◌<◌, ◌^◌, ◌-◌, min, List, [], ◌∷◌, ◌++◌, ◌↔◌, map, length, IfOk, OnOk, OnErr, IsTrue, Some, None, IfSome, IfNone, Contains, ◌⊎◌};
ghost use Rattle.std.specs.Option.{option_map};
ghost use Rattle.yr_base.specs.Told.{told_more};
ghost use Rattle.yr_base.specs.Store.{read_entries, Reads, write_entries, Writes};
ghost use Rattle.yr_base.specs.Memory.{stored, entry_of, file_in, FailsHere, IsToFail, after_read, after_write};

use crate::memory::NoMemory;
use crate::store::{ReadAnswer, Store, WriteAnswer};
use std::alloc::Global;
use std::marker::Model;

/// A file's name and its bytes.
#[derive(Drop)]
pub struct StoredFile {
    name: String,
    bytes: Vec<u8>,
}

/// A call that was made.
#[derive(Drop)]
pub struct Call {
    writes: bool,
    name: String,
    failed: bool,
}

/// Files in memory, calls of which can be made to fail.
#[derive(Drop)]
pub struct MemoryStore {
    stored_files: Vec<StoredFile>,
    calls: Vec<Call>,
    to_fail: Vec<u64>,
    fault_count: u64,
}

impl Model for MemoryStore {
    ghost use Rattle.std.specs.Prelude.{map};
    ghost use Rattle.yr_base.specs.Memory.{MemoryView, stored, entry_of};

    ghost Value = { MemoryView };

    ghost view = { λ s. record {
      files = map stored s.stored_files.items;
      trace = map entry_of s.calls.items;
      failing = s.to_fail.items;
      faults = s.fault_count;
    } };
}

/// The bytes of the first file of this name.
fn find<'a>(files: &'a [StoredFile], name: &str) -> Option<&'a [u8]>
    ensures { option_map (λ b. b.now) result ≡ file_in (map stored files.now) name.now }
{
    for file in files {
        if file.name.as_str() == name {
            return Some(file.bytes.as_slice());
        }
    }
    None
}

/// Whether the call after so many is to fail.
fn is_to_fail(to_fail: &[u64], calls: usize) -> bool
    ensures { IsTrue result ↔ IsToFail to_fail.now calls }
{
    to_fail.contains(&(calls as u64).saturating_add(1))
}

/// The bytes of a file, unless the call after so many is to fail.
fn find_unless_failing<'a>(
    files: &'a [StoredFile],
    to_fail: &[u64],
    calls: usize,
    name: &str,
) -> Option<&'a [u8]>
    ensures found { IfSome result (λ b. (file_in (map stored files.now) name.now ≡ Some b.now) × (¬ IsToFail to_fail.now calls)) }
    ensures none { IfNone result (IsToFail to_fail.now calls ⊎ (file_in (map stored files.now) name.now ≡ None)) }
{
    if is_to_fail(to_fail, calls) {
        None
    } else {
        find(files, name)
    }
}

/// Notes a call.
fn note(
    calls: &mut Vec<Call>,
    alloc: Global,
    writes: bool,
    name: &str,
    failed: bool,
) -> Result<(), NoMemory>
    ensures ok { OnOk result (map entry_of calls.new.items ≡ map entry_of calls.old.items ++ record { writes = writes; name = name.now; failed = failed } ∷ []) }
    ensures err { OnErr result (map entry_of calls.new.items ≡ map entry_of calls.old.items) }
{
    let Ok(name) = String::from_str(alloc, name) else {
        return Err(NoMemory);
    };
    match calls.push(Call {
        writes,
        name,
        failed,
    }) {
        Ok(()) => Ok(()),
        Err(_) => Err(NoMemory),
    }
}

impl MemoryStore {
    /// No files, and no call that is to fail.
    pub fn new(alloc: Global) -> Result<MemoryStore, NoMemory>
        ensures { IfOk result (λ s. s ≡ record { files = []; trace = []; failing = []; faults = 0 }) }
    {
        Ok(MemoryStore {
            stored_files: Vec::new(alloc),
            calls: Vec::new(alloc),
            to_fail: Vec::new(alloc),
            fault_count: 0,
        })
    }

    /// Sets a file.
    pub fn add(&mut self, alloc: Global, name: &str, bytes: &[u8]) -> Result<(), NoMemory>
        ensures ok { OnOk result (self.new ≡ record self.old { files = (name.now, bytes.now) ∷ self.old.files }) }
        ensures err { OnErr result (self.new ≡ self.old) }
    {
        let Ok(name) = String::from_str(alloc, name) else {
            return Err(NoMemory);
        };
        let Ok(bytes) = Vec::from_slice(alloc, bytes) else {
            return Err(NoMemory);
        };
        match self.stored_files.insert(0, StoredFile { name, bytes }) {
            Ok(()) => Ok(()),
            Err(_) => Err(NoMemory),
        }
    }

    /// Makes a call fail, by the number that it will have in the list of calls, from 1 on.
    pub fn fail_at(&mut self, alloc: Global, call: u64) -> Result<(), NoMemory>
        ensures ok { OnOk result (self.new ≡ record self.old { failing = self.old.failing ++ call ∷ [] }) }
        ensures err { OnErr result (self.new ≡ self.old) }
    {
        match self.to_fail.push(call) {
            Ok(()) => Ok(()),
            Err(_) => Err(NoMemory),
        }
    }

    /// The bytes of a file.
    pub fn get(&self, name: &str) -> Option<&[u8]>
        ensures { option_map (λ b. b.now) result ≡ file_in self.now.files name.now }
    {
        find(&self.stored_files, name)
    }
}

impl Store for MemoryStore {
    ghost files = { λ s. Some (file_in s.files) };

    ghost trace = { λ s. Some s.trace };

    ghost faults = { λ s. s.faults };

    fn read_file(&mut self, alloc: Global, name: &str, limit: u32, into: &mut Vec<u8>) -> ReadAnswer
        requires empty { into.old.items ≡ [] }
        requires small { limit < 2 ^ 32 - 1 }
        ensures files { Some (file_in self.new.files) ≡ Some (file_in self.old.files) }
        ensures trace { Some self.new.trace ≡ told_more (Some self.old.trace) (read_entries name.now result) }
        ensures later { self.old.faults ≤ self.new.faults }
        ensures reads { Reads (Some (file_in self.old.files)) name.now limit result into.new.items self.old.faults self.new.faults }

        // It fails where it was asked to, or the name stands for no file, and nowhere else.
        ensures fails { result ≡ ReadAnswer.Failed → FailsHere self.old name.now }
        ensures only_there { FailsHere self.old name.now → (result ≡ ReadAnswer.Failed) ⊎ (result ≡ ReadAnswer.NoMemory) }
        ensures after { self.new ≡ after_read self.old name.now result }
    {
        match find_unless_failing(&self.stored_files, &self.to_fail, self.calls.len(), name) {
            Some(bytes) => {
                let is_long = bytes.len() > limit as usize;
                let front = if is_long {
                    &bytes[..limit as usize + 1]
                } else {
                    bytes
                };
                if into.extend_from_slice(front).is_err() {
                    return ReadAnswer::NoMemory;
                }
                if note(&mut self.calls, alloc, false, name, false).is_err() {
                    into.clear();
                    return ReadAnswer::NoMemory;
                }
                if is_long {
                    ReadAnswer::Long
                } else {
                    ReadAnswer::Done
                }
            }
            None => {
                if note(&mut self.calls, alloc, false, name, true).is_err() {
                    return ReadAnswer::NoMemory;
                }
                self.fault_count = self.fault_count.saturating_add(1);
                ReadAnswer::Failed
            }
        }
    }

    fn write_file(&mut self, alloc: Global, name: &str, bytes: &[u8]) -> WriteAnswer
        ensures trace { Some self.new.trace ≡ told_more (Some self.old.trace) (write_entries name.now result) }
        ensures later { self.old.faults ≤ self.new.faults }
        ensures writes { Writes (Some (file_in self.old.files)) (Some (file_in self.new.files)) name.now bytes.now result self.old.faults self.new.faults }

        // It fails where it was asked to, and nowhere else.
        ensures fails { result ≡ WriteAnswer.Failed → IsToFail self.old.failing (length self.old.trace) }
        ensures only_there { IsToFail self.old.failing (length self.old.trace) → (result ≡ WriteAnswer.Failed) ⊎ (result ≡ WriteAnswer.NoMemory) }
        ensures after { self.new ≡ after_write self.old name.now bytes.now result }
    {
        if is_to_fail(&self.to_fail, self.calls.len()) {
            if note(&mut self.calls, alloc, true, name, true).is_err() {
                return WriteAnswer::NoMemory;
            }
            self.fault_count = self.fault_count.saturating_add(1);
            return WriteAnswer::Failed;
        }
        if self.add(alloc, name, bytes).is_err() {
            return WriteAnswer::NoMemory;
        }
        if note(&mut self.calls, alloc, true, name, false).is_err() {
            self.stored_files.remove(0);
            return WriteAnswer::NoMemory;
        }
        WriteAnswer::Done
    }
}
