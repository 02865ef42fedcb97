ghost use Rattle.std.specs.Prelude.{◌≡◌, ◌+◌, ◌++◌, ◌∷◌, ◌<◌, ◌≤◌, ◌^◌, [], length, Err, IfOk, IfSome, IsOk};
ghost use Rattle.stage_map.specs.declared.keys.StageRefusal.{StageRefusal};
ghost use Rattle.stage_map.specs.declared.keys.PlugUse.{PlugUse};
ghost use Rattle.stage_map.specs.Stages.{HasNoStageFault, HasStages, IsFirstStageFault, entry_at, name_at, writer_entry};

use crate::absent::first_absence;
use crate::config::copy_name;
use crate::order::{Misread, first_misread};
use crate::search::use_at;
use crate::twice::{Pair, first_pair};
use crate::{KeyUse, PlugUse, Stage, StageRefusal};
use std::alloc::{AllocError, Global};
use std::marker::Model;

/// The uses of keys by the entries of a configuration, in the stages of a pipeline. Contracts see the number of stages,
/// how many more uses can be noted without memory, and the uses in the order in which they were noted.
#[derive(Debug, Drop)]
pub struct StageMap {
    stages: u32,
    room: u32,
    uses: Vec<PlugUse>,
}

impl Model for StageMap {
    ghost use Rattle.std.specs.Prelude.{◌+◌, ◌≤◌, length, vec_capacity};
    ghost use Rattle.stage_map.specs.Stages.{StageMapValue};

    ghost Value = { StageMapValue };

    ghost view = { λ m. record { stages = m.stages; room = m.room; uses = m.uses.items } };

    ghost invariant = { λ m. length m.uses.items + m.room ≤ vec_capacity m.uses };
}

impl StageMap {
    /// A map of a pipeline with so many stages: no use, and room for `n`. With 2 stages the pipeline has decode and
    /// execute, with 3 also memory, with 4 also writeback.
    ///
    /// # Errors
    /// `AllocError` where memory was refused.
    pub fn with_room(alloc: Global, stages: u32, n: u32) -> Result<StageMap, AllocError>
        ensures { IfOk result (λ m. m ≡ record { stages = stages; room = n; uses = [] }) }
    {
        let uses = Vec::with_capacity(alloc, n as usize)?;
        Ok(StageMap {
            stages,
            room: n,
            uses,
        })
    }

    /// How many more uses can be noted.
    pub fn room(&self) -> u32
        ensures { result ≡ self.now.room }
    {
        self.room
    }

    /// The uses in the order in which they were noted.
    pub fn uses(&self) -> &Vec<PlugUse>
        ensures { result.now.items ≡ self.now.uses }
    {
        &self.uses
    }

    /// Notes a use of a key by the entry with this number. It takes no memory.
    pub fn note(&mut self, entry: u32, at: KeyUse)
        requires { 1 ≤ self.old.room }
        ensures uses { self.new.uses ≡ self.old.uses ++ record { entry = entry; at = at } ∷ [] }
        ensures room { self.new.room + 1 ≡ self.old.room }
        ensures stages { self.new.stages ≡ self.old.stages }
    {
        self.room -= 1;
        let _ = self.uses.push(PlugUse { entry, at });
    }

    /// Whether each stage that is named is in the pipeline, each key is read at its writer's stage or a later one, and
    /// each key is written by one entry. `places` has the stage of each entry that has one, by its number, and `commit`
    /// is the stage where instructions commit. Memory is taken for the name in a refusal alone.
    ///
    /// # Errors
    /// The first fault: `StageAbsent` of the commit, of the places by entry, of the uses by entry and then as they were
    /// noted; then `StageOrder` with the first such read; then `KeyTwice` with the least pair of entries.
    /// `NoMemory` where memory for the name was refused.
    #[tactic(auto, using(crate::proofs::Refused::order_refused, crate::proofs::Refused::absence_told))]
    pub fn check(
        &self,
        alloc: Global,
        places: &Vec<Option<Stage>>,
        commit: Stage,
    ) -> Result<(), StageRefusal>
        requires few { length places.now.items < 2 ^ 32 }
        ensures ok { IsOk result → HasNoStageFault self.now places.now.items commit }
        ensures told { HasNoStageFault self.now places.now.items commit → IsOk result }
        ensures memory { result ≡ Err StageRefusal.NoMemory → HasStages self.now.stages self.now.uses places.now.items commit }
        ensures refused { (r : StageRefusal) → result ≡ Err r → (r ≡ StageRefusal.NoMemory → ⊥) → IsFirstStageFault self.now places.now.items commit r }
    {
        let uses = self.uses.as_slice();
        if let Some(absence) = first_absence(self.stages, uses, places, commit) {
            return Err(StageRefusal::StageAbsent {
                plug: absence.plug,
                stage: absence.stage,
            });
        }
        if let Some(misread) = first_misread(uses) {
            return Err(order_refusal(alloc, uses, misread));
        }
        match first_pair(uses) {
            Some(pair) => Err(twice_refusal(alloc, uses, pair)),
            None => Ok(()),
        }
    }
}

/// The entry of a writer.
fn writer_entry(uses: &[PlugUse], writer: Option<usize>) -> Option<u32>
    requires { IfSome writer (λ w. w < length uses.now) }
    ensures { result ≡ writer_entry uses.now writer }
{
    match writer {
        Some(w) => Some(use_at(uses, w).entry),
        None => None,
    }
}

/// The refusal of this read.
fn order_refusal(alloc: Global, uses: &[PlugUse], read: Misread) -> StageRefusal
    requires at { read.at < length uses.now }
    requires from { IfSome read.from (λ w. w < length uses.now) }
    ensures { (result ≡ StageRefusal.NoMemory → ⊥)
        → result ≡ StageRefusal.StageOrder (name_at uses.now read.at) (entry_at uses.now read.at) (writer_entry uses.now read.from) }
{
    let writer = writer_entry(uses, read.from);
    let used = use_at(uses, read.at);
    match copy_name(alloc, &used.at.key.name) {
        Ok(key) => StageRefusal::StageOrder {
            key,
            reader: used.entry,
            writer,
        },
        Err(_) => StageRefusal::NoMemory,
    }
}

/// The refusal of this pair of writes.
fn twice_refusal(alloc: Global, uses: &[PlugUse], pair: Pair) -> StageRefusal
    requires at { pair.at < length uses.now }
    requires other { pair.other < length uses.now }
    ensures { (result ≡ StageRefusal.NoMemory → ⊥)
        → result ≡ StageRefusal.KeyTwice (name_at uses.now pair.at) (entry_at uses.now pair.at) (entry_at uses.now pair.other) }
{
    let a = use_at(uses, pair.at);
    let b = use_at(uses, pair.other);
    match copy_name(alloc, &a.at.key.name) {
        Ok(key) => StageRefusal::KeyTwice {
            key,
            a: a.entry,
            b: b.entry,
        },
        Err(_) => StageRefusal::NoMemory,
    }
}
