ghost use Rattle.std.specs.Prelude.{◌≡◌, ◌+◌, ◌≤◌, ◌<◌, ◌^◌, [], false, true, length, IfSome, OnOk, map};
ghost use Rattle.std.specs.List.{filter, find};
ghost use Rattle.std.specs.List.Sorted.{IsPartitionPoint};
ghost use Rattle.mw_isa.specs.Entries.{is_stale, left_by, order_of, stays, with_entry};
ghost use Rattle.mw_discipline.specs.Inside.{is_before};

use crate::order::{is_before, is_for, is_stale, order_of};
use mw_bits::Scope;
use mw_isa::{KeptEntry, Kind, StorageFault, Translated};
use std::alloc::{AllocError as NoMemory, Global};
use std::cmp::Ordering;
use std::marker::Model;

/// The translations that may be in use, seen as their list and how many more there is room for.
#[derive(Drop)]
pub struct Entries {
    /// Each translation once, in their order.
    items: Vec<KeptEntry>,
    /// Whether one may be leaving.
    leaving: bool,
}

impl Model for Entries {
    ghost use Rattle.std.specs.Prelude.{◌-◌};
    ghost use Rattle.std.specs.Vec.{vec_capacity, vec_len};
    ghost use Rattle.mw_discipline.specs.Inside.{AreKept, Listed};

    ghost Value = { Listed };

    ghost view = { λ e. record { items = e.items.items; room = vec_capacity e.items - vec_len e.items } };

    ghost invariant = { λ e. AreKept e.items.items e.leaving };
}

/// A translation behind an invalidation: it is leaving where that reaches it.
fn left_by(scope: Scope, entry: KeptEntry) -> KeptEntry
    ensures { result ≡ left_by scope entry }
{
    KeptEntry {
        leaving: scope.has(entry.pid, entry.page) || entry.leaving,
        ..entry
    }
}

/// Marks those that a scope reaches as leaving.
fn mark(items: &mut Vec<KeptEntry>, scope: Scope)
    ensures { items.new.items ≡ map (left_by scope) items.old.items }
{
    for place in 0..items.len() {
        items[place] = left_by(scope, items[place]);
    }
}

impl Entries {
    /// None. It takes no memory, and can't fail.
    pub fn new(alloc: Global) -> Entries
        ensures { result.items ≡ [] }
    {
        Entries {
            items: Vec::new(alloc),
            leaving: false,
        }
    }

    /// Takes memory for so many more. Where memory is wanting nothing changes.
    pub fn reserve(&mut self, count: usize) -> Result<(), NoMemory>
        ensures items { self.new.items ≡ self.old.items }
        ensures ok { OnOk result (count ≤ self.new.room) }
    {
        self.items.reserve(count)
    }

    /// Keeps one more, or it in place of the same one.
    pub fn put(&mut self, entry: KeptEntry)
        requires room { 0 < self.old.room }
        requires low { entry.real < 2 ^ 52 }
        requires new { entry.leaving ≡ false }
        ensures items { self.new.items ≡ with_entry entry self.old.items }
        ensures room { self.old.room ≤ self.new.room + 1 }
    {
        let compare = |kept: &KeptEntry| -> Ordering
            ensures { result ≡ order_of kept.now entry }
        { order_of(kept, &entry) };
        match self.items.binary_search_by(compare) {
            Ok(place) => self.items[place] = entry,
            Err(place) => {
                let _ = self.items.insert(place, entry);
            }
        }
    }

    /// The place of the first of a page for a process, or where it would stand.
    fn first_of(&self, pid: u32, page: u64) -> usize
        ensures bound { result ≤ length self.now.items }
        ensures parted { IsPartitionPoint (λ kept. is_before pid page kept ≡ true) (λ kept. is_before pid page kept ≡ false) self.now.items result }
    {
        let before = |kept: &KeptEntry| -> bool
            ensures { result ≡ is_before pid page kept.now }
        { is_before(kept, pid, page) };
        self.items.partition_point(before)
    }

    /// The first of a page for a process that permits an access of a kind and has another real page than that comes to now.
    pub fn stale(
        &self,
        now: &Result<Translated, StorageFault>,
        kind: Kind,
        problem: bool,
        pid: u32,
        page: u64,
    ) -> Option<KeptEntry>
        ensures value { result ≡ find (is_stale now.now kind problem pid page) self.now.items }
        ensures low { IfSome result (λ entry. entry.real < 2 ^ 52) }
    {
        for place in self.first_of(pid, page)..self.items.len() {
            let entry = self.items[place];
            if !is_for(&entry, pid, page) {
                return None;
            }
            if is_stale(&entry, now, kind, problem, pid, page) {
                return Some(entry);
            }
        }
        None
    }

    /// Those that a scope reaches are leaving. It passes over all, but for a scope that reaches none.
    pub fn leave(&mut self, scope: Scope)
        ensures { self.new.items ≡ map (left_by scope) self.old.items }
    {
        match scope {
            Scope::Nothing => {}
            _ => {
                mark(&mut self.items, scope);
                self.leaving = true;
            }
        }
    }

    /// Those that are leaving are gone. It passes over none where none is.
    pub fn sync(&mut self)
        ensures { self.new.items ≡ filter stays self.old.items }
    {
        if self.leaving {
            self.items.retain(|entry| !entry.leaving);
            self.leaving = false;
        }
    }

    /// All are gone.
    pub fn clear(&mut self)
        ensures { self.new.items ≡ [] }
    {
        self.items.clear();
        self.leaving = false;
    }
}
