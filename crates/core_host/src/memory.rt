ghost use Rattle.std.specs.Prelude.{◌≡◌, ◌≤◌, ◌<◌, ◌+◌, ◌-◌, ◌^◌, ◌↔◌, ◌⊎◌, ◌++◌, ℕ, List, [], min, length, get_or, slice_set, take, drop, vec_capacity, Option, None, Some, Ok, IfOk, OnOk, OnErr, IsErr, IsNone, IfNone, IfSome, IsTrue, if◌then◌else◌, nat_eq, true};
ghost use Rattle.std.specs.List.{list_any};
ghost use Rattle.core_host.specs.declared.host.Port.{Port};
ghost use Rattle.core_host.specs.Outside.{Rose, Appends, Opens, IsMissing, IsNameOf, Pulls, held};
ghost use Rattle.core_host.specs.Memory.{IsFresh, IsGiven, left_in, name_in, text_on, pairs, place, no_file, next_call, is_to_fail, one_more, called, read_failed, write_failed, moved_count};

use crate::{Host, HostFailed, List, Name, Port};
use std::alloc::{AllocError, Global};
use std::marker::Model;

/// A file in memory.
#[derive(Debug, Drop)]
pub struct MemFile {
    pub name: Name,
    pub bytes: List<u8>,
}

/// Files and ports in memory, with calls that fail by their number. It tells all it holds.
///
/// Calls are numbered from 1 over all three methods. A call whose number is listed fails. Else
/// a `find` of a name that is not held fails, and a `push` on a port that is full, and no other
/// call. No method takes memory.
#[derive(Debug, Drop)]
pub struct MemHost {
    files: Vec<MemFile>,
    given: Vec<bool>,
    taken: Vec<usize>,
    main: Vec<u8>,
    notes: Vec<u8>,
    fails: Vec<u32>,
    bite: u32,
    room: u32,
    calls: u64,
    read_faults: u64,
    write_faults: u64,
}

impl Model for MemHost {
    ghost use Rattle.std.specs.Prelude.{◌≡◌, ◌≤◌, ◌<◌, ◌^◌, length, vec_capacity};
    ghost use Rattle.core_host.specs.Memory.{Memory};

    ghost Value = { Memory };

    ghost view = { λ h. record {
      files = h.files.items;
      given = h.given.items;
      taken = h.taken.items;
      main = h.main.items;
      notes = h.notes.items;
      fails = h.fails.items;
      bite = h.bite;
      room = h.room;
      calls = h.calls;
      read_faults = h.read_faults;
      write_faults = h.write_faults;
    } };

    ghost invariant = { λ h. (length h.given.items ≡ length h.files.items) × (length h.taken.items ≡ length h.files.items)
        × (length h.files.items < 2 ^ 32) × (h.room ≤ vec_capacity h.main) × (h.room ≤ vec_capacity h.notes) };
}

impl MemHost {
    /// A host that holds these files, in which the calls of these numbers fail. A call moves at
    /// most `bite` bytes, or any number where `bite` is 0, and each port has room for `room`
    /// bytes. All memory is taken here.
    pub fn new(
        alloc: Global,
        files: Vec<MemFile>,
        fails: Vec<u32>,
        bite: u32,
        room: u32,
    ) -> Result<MemHost, AllocError>
        requires { length files.items < 2 ^ 32 }
        ensures { IfOk result (λ h. IsFresh files.items fails.items bite room h) }
    {
        let given = vec![in alloc; false; files.len()]?;
        let taken = vec![in alloc; 0; files.len()]?;
        let main = Vec::with_capacity(alloc, room as usize)?;
        let notes = Vec::with_capacity(alloc, room as usize)?;
        Ok(MemHost {
            files,
            given,
            taken,
            main,
            notes,
            fails,
            bite,
            room,
            calls: 0,
            read_faults: 0,
            write_faults: 0,
        })
    }

    /// The bytes pushed on a port.
    pub fn pushed(&self, port: Port) -> &Vec<u8>
        ensures { result.now.items ≡ text_on self.now port }
    {
        match port {
            Port::Main => &self.main,
            Port::Notes => &self.notes,
        }
    }
}

/// Counts a call, up to 2 ^ 32, and answers whether the call of that number is to fail.
fn count_call(calls: &mut u64, fails: &Vec<u32>) -> bool
    ensures counted { calls.new ≡ min (calls.old + 1) (2 ^ 32) }
    ensures listed { result ≡ list_any (λ n. nat_eq n calls.new) fails.now.items }
{
    let call = calls.saturating_add(1).min(1 << 32);
    *calls = call;
    fails.iter().any(|&n| u64::from(n) == call)
}

/// Counts a fault, up to the last `u64`.
pub(crate) fn count_fault(faults: &mut u64) -> HostFailed
    ensures { faults.new ≡ one_more faults.old }
{
    *faults = faults.saturating_add(1);
    HostFailed
}

/// The place of the first file of a name.
fn place_of(files: &Vec<MemFile>, name: &str) -> Option<usize>
    ensures place { result ≡ place name.now files.now.items }
    ensures none { IfNone result (held name.now (pairs files.now.items) ≡ None) }
    ensures bound { IfSome result (λ i. i < length files.now.items) }
    ensures named { IfSome result (λ i. (get_or files.now.items i no_file).name ≡ name.now) }
    ensures held { IfSome result (λ i. held name.now (pairs files.now.items)
        ≡ Some (get_or files.now.items i no_file).bytes) }
{
    for (i, file) in files.iter().enumerate() {
        if file.name.is(name) {
            return Some(i);
        }
    }
    None
}

/// How many bytes are moved, of those asked for and those there. A bite of 0 sets no limit.
fn count_moved(asked: usize, there: usize, bite: u32) -> usize
    ensures { result ≡ moved_count asked there bite }
{
    let most = asked.min(there);
    if bite == 0 {
        return most;
    }
    most.min(bite as usize)
}

/// Copies bytes from the front of the one to the front of the other.
fn move_bytes(from: &[u8], into: &mut [u8], bite: u32) -> usize
    ensures count { result ≡ moved_count (length into.old) (length from.now) bite }
    ensures moved { into.new ≡ take result from.now ++ drop result into.old }
{
    let count = count_moved(into.len(), from.len(), bite);
    into[..count].copy_from_slice(&from[..count]);
    count
}

/// Copies bytes that were not yet taken, and counts them as taken.
fn pull_bytes(bytes: &[u8], taken: &mut usize, into: &mut [u8], bite: u32) -> usize
    requires { 0 < length into.old }
    ensures count { result ≡ moved_count (length into.old) (length (drop taken.old bytes.now)) bite }
    ensures left { drop taken.new bytes.now ≡ drop result (drop taken.old bytes.now) }
    ensures moved { into.new ≡ take result (drop taken.old bytes.now) ++ drop result into.old }
    ensures within { result ≤ length (drop taken.old bytes.now) }
    ensures ends { result ≡ 0 → drop taken.old bytes.now ≡ [] }
{
    let start = (*taken).min(bytes.len());
    let count = move_bytes(&bytes[start..], into, bite);
    *taken = start + count;
    count
}

/// Appends bytes from the front of `bytes`, unless the port is full.
pub(crate) fn append(port: &mut Vec<u8>, room: u32, bite: u32, bytes: &[u8]) -> Option<usize>
    requires kept { room ≤ vec_capacity port.old }
    requires some { 0 < length bytes.now }
    ensures kept { room ≤ vec_capacity port.new }
    ensures full { IsNone result ↔ (room ≤ length port.old.items) }
    ensures none { IfNone result (port.new.items ≡ port.old.items) }
    ensures count { IfSome result (λ k. k ≡ moved_count (length bytes.now) (room - length port.old.items) bite) }
    ensures some { IfSome result (λ k. (0 < k) × (k ≤ length bytes.now)) }
    ensures added { IfSome result (λ k. port.new.items ≡ port.old.items ++ take k bytes.now) }
{
    let room = room as usize;
    if room <= port.len() {
        return None;
    }
    let count = count_moved(bytes.len(), room - port.len(), bite);
    match port.extend_from_slice(&bytes[..count]) {
        Ok(()) => Some(count),
        Err(_) => None,
    }
}

impl Host for MemHost {
    ghost use Rattle.std.specs.Prelude.{Some};
    ghost use Rattle.core_host.specs.Memory.{IsGiven, left_in, name_in, text_on, pairs};

    ghost files = { λ h. Some (pairs h.files) };

    ghost left = { λ h n. left_in h n };

    ghost given = { λ h n. IsGiven h n };

    ghost opened = { λ h n. name_in h n };

    ghost pushed = { λ h p. Some (text_on h p) };

    ghost read_faults = { λ h. h.read_faults };

    ghost write_faults = { λ h. h.write_faults };

    /// Answers the place of the first file of this name, which begins anew.
    fn find(&mut self, name: &str) -> Result<u32, HostFailed>
        ensures gave { IfOk result (λ n. IsGiven self.new n) }
        ensures begins { IfOk result (λ n. held name.now (pairs self.old.files) ≡ Some (left_in self.new n)) }
        ensures again { IfOk result (λ n. IsGiven self.old n → name_in self.old n ≡ Some name.now) }
        ensures named { IfOk result (λ n. IsNameOf name.now (name_in self.new n)) }
        ensures others { (m : ℕ) → ¬ (result ≡ Ok m) → left_in self.new m ≡ left_in self.old m }
        ensures cause { OnErr result (Rose self.old.read_faults self.new.read_faults
            ⊎ IsMissing name.now (Some (pairs self.old.files))) }
        ensures files { Some (pairs self.new.files) ≡ Some (pairs self.old.files) }
        ensures numbers { (m : ℕ) → IsGiven self.old m → IsGiven self.new m }
        ensures names { (m : ℕ) → IsGiven self.old m → name_in self.new m ≡ name_in self.old m }
        ensures ports { (p : Port) → Some (text_on self.new p) ≡ Some (text_on self.old p) }
        ensures reads { self.old.read_faults ≤ self.new.read_faults }
        ensures writes { self.old.write_faults ≤ self.new.write_faults }
        // Exactly these calls fail, and this is what else changes.
        ensures fails { IsErr result ↔ (IsTrue (is_to_fail self.old)
            ⊎ (held name.now (pairs self.old.files) ≡ None)) }
        ensures failed { OnErr result (self.new
            ≡ (if is_to_fail self.old then read_failed self.old else called self.old)) }
        ensures place { IfOk result (λ n. place name.now self.old.files ≡ Some n) }
        ensures only { IfOk result (λ n. self.new
            ≡ record (called self.old) { given = slice_set self.old.given n true; taken = self.new.taken }) }
    {
        if count_call(&mut self.calls, &self.fails) {
            return Err(count_fault(&mut self.read_faults));
        }
        match place_of(&self.files, name) {
            Some(place) => {
                self.given[place] = true;
                self.taken[place] = 0;
                Ok(place as u32)
            }
            None => Err(HostFailed),
        }
    }

    /// Moves as many bytes as are asked for, are left, and the bite allows.
    fn pull(&mut self, file: u32, into: &mut [u8]) -> Result<usize, HostFailed>
        requires some { 0 < length into.old }
        requires open { IsGiven self.old file }
        ensures count { IfOk result (λ k. k ≤ length into.old) }
        ensures bytes { IfOk result (λ k. Pulls (Some (pairs self.old.files)) (left_in self.old file)
            (left_in self.new file) k into.old into.new) }
        ensures others { (m : ℕ) → ¬ (m ≡ file) → left_in self.new m ≡ left_in self.old m }
        ensures cause { OnErr result (Rose self.old.read_faults self.new.read_faults) }
        ensures files { Some (pairs self.new.files) ≡ Some (pairs self.old.files) }
        ensures numbers { (m : ℕ) → IsGiven self.old m → IsGiven self.new m }
        ensures names { (m : ℕ) → IsGiven self.old m → name_in self.new m ≡ name_in self.old m }
        ensures ports { (p : Port) → Some (text_on self.new p) ≡ Some (text_on self.old p) }
        ensures reads { self.old.read_faults ≤ self.new.read_faults }
        ensures writes { self.old.write_faults ≤ self.new.write_faults }
        // Exactly these calls fail, this many bytes are moved, and this is what else changes.
        ensures fails { IsErr result ↔ IsTrue (is_to_fail self.old) }
        ensures failed { OnErr result (self.new ≡ read_failed self.old) }
        ensures moved { IfOk result (λ k. k ≡ moved_count (length into.old)
            (length (left_in self.old file)) self.old.bite) }
        ensures only { OnOk result (self.new ≡ record (called self.old) { taken = self.new.taken }) }
    {
        if count_call(&mut self.calls, &self.fails) {
            return Err(count_fault(&mut self.read_faults));
        }
        let number = file as usize;
        let bytes = self.files[number].bytes.items().as_slice();
        let count = pull_bytes(bytes, &mut self.taken[number], into, self.bite);
        Ok(count)
    }

    /// Appends as many bytes as are there, find room, and the bite allows.
    fn push(&mut self, port: Port, bytes: &[u8]) -> Result<usize, HostFailed>
        requires { 0 < length bytes.now }
        ensures count { IfOk result (λ k. (0 < k) × (k ≤ length bytes.now)) }
        ensures bytes { IfOk result (λ k. Appends (Some (text_on self.old port)) (take k bytes.now)
            (Some (text_on self.new port))) }
        ensures unchanged { OnErr result (Some (text_on self.new port) ≡ Some (text_on self.old port)) }
        ensures cause { OnErr result (Rose self.old.write_faults self.new.write_faults) }
        ensures others { (p : Port) → ¬ (p ≡ port) → Some (text_on self.new p) ≡ Some (text_on self.old p) }
        ensures left { (m : ℕ) → left_in self.new m ≡ left_in self.old m }
        ensures files { Some (pairs self.new.files) ≡ Some (pairs self.old.files) }
        ensures numbers { (m : ℕ) → IsGiven self.old m → IsGiven self.new m }
        ensures names { (m : ℕ) → IsGiven self.old m → name_in self.new m ≡ name_in self.old m }
        ensures reads { self.old.read_faults ≤ self.new.read_faults }
        ensures writes { self.old.write_faults ≤ self.new.write_faults }
        // Exactly these calls fail, this many bytes are moved, and this is what else changes.
        ensures fails { IsErr result ↔ (IsTrue (is_to_fail self.old)
            ⊎ (self.old.room ≤ length (text_on self.old port))) }
        ensures failed { OnErr result (self.new ≡ write_failed self.old) }
        ensures moved { IfOk result (λ k. k ≡ moved_count (length bytes.now)
            (self.old.room - length (text_on self.old port)) self.old.bite) }
        ensures only { OnOk result (self.new
            ≡ record (called self.old) { main = self.new.main; notes = self.new.notes }) }
    {
        if count_call(&mut self.calls, &self.fails) {
            return Err(count_fault(&mut self.write_faults));
        }
        let added = match port {
            Port::Main => append(&mut self.main, self.room, self.bite, bytes),
            Port::Notes => append(&mut self.notes, self.room, self.bite, bytes),
        };
        match added {
            Some(count) => Ok(count),
            None => Err(count_fault(&mut self.write_faults)),
        }
    }
}
