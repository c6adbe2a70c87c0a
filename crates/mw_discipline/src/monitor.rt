ghost use Rattle.std.specs.Prelude.{◌≡◌, ◌+◌, ◌<◌, ◌≤◌, None, Some, IfErr, IfOk, OnErr, OnOk, is_ok, length, option_map};
ghost use Rattle.mw_isa.specs.Discipline.{IsInRam, access_by, after, block_rule, block_why, deed_blocks, deed_entries, entry_in, fetch_touch, first_of, offends, page_rule, synced, used_by, why_by, with_some, with_used};
ghost use Rattle.mw_isa.specs.Translate.{translate_of};
ghost use Rattle.mw_discipline.specs.Monitored.{beginning};

use crate::blocks::Blocks;
use crate::entries::Entries;
use crate::order::{PAGE_SIZE, page_why};
use mw_bus::RAM_SIZE;
use mw_isa::{
    Access, BlockStatus, Deed, Kind, PR, Packet, Regs, StorageFault, Touch, Translated, Why,
    has_bit,
};
use mw_radix::{Tables, is_translated, quadrant_of, translate};
use std::alloc::{AllocError as NoMemory, Global};
use std::marker::Model;

/// What is kept beside the machine of changed code and of translations. Clauses see the record of that, and how many
/// translations were added to it.
#[derive(Drop)]
pub struct Monitor {
    /// The blocks of RAM.
    blocks: Blocks,
    /// The translations.
    entries: Entries,
    /// How many translations were added.
    added: u64,
}

impl Model for Monitor {
    ghost use Rattle.mw_discipline.specs.Monitored.{Monitored};

    ghost Value = { Monitored };

    ghost view = { λ m. record { kept = record { blocks = m.blocks; entries = m.entries.items }; added = m.added } };
}

/// Why a fetch at a real address breaks the discipline, by the status of its block, if it does.
fn block_why(real: u64, status: Option<BlockStatus>) -> Option<Why>
    ensures { result ≡ block_why real status }
{
    match status {
        None => None,
        Some(status) => Some(Why::Block {
            block: real - real % 64,
            status,
        }),
    }
}

/// The fetch of an instruction at an address.
fn fetch_touch(cia: u64) -> Touch
    ensures { result ≡ fetch_touch cia }
{
    Touch {
        kind: Kind::Fetch,
        ea: cia,
    }
}

/// Keeps the translation of an access, if there is one, and tells how many were added.
#[tactic(auto, unfolding(mw_isa::specs::Translate::translate_of))]
fn put_touch<T: Tables>(entries: &mut Entries, touch: Touch, tables: &mut T, regs: &Regs) -> u64
    requires { 0 < entries.old.room }
    ensures items { entries.new.items ≡ with_some (entry_in (translate_of (T.ram tables.old) regs.now touch.kind touch.ea)) entries.old.items }
    ensures room { entries.old.room ≤ entries.new.room + 1 }
    ensures few { result ≤ 1 }
    ensures stays { T.ram tables.new ≡ T.ram tables.old }
    ensures counted { T.reads tables.old ≤ T.reads tables.new }
{
    if !is_translated(touch.kind, regs.msr) {
        return 0;
    }
    let Ok(there) = translate(tables, regs, touch.kind, touch.ea) else {
        return 0;
    };
    let Some(entry) = there.kept else {
        return 0;
    };
    entries.put(entry);
    1
}

/// Keeps the translations of accesses, in order, and tells how many were added.
fn put_touches<T: Tables>(
    entries: &mut Entries,
    touches: &[Touch],
    tables: &mut T,
    regs: &Regs,
) -> u64
    requires room { length touches.now ≤ entries.old.room }
    requires few { length touches.now ≤ 2 }
    ensures items { entries.new.items ≡ with_used (T.ram tables.old) regs.now touches.now entries.old.items }
    ensures few { result ≤ 2 }
    ensures stays { T.ram tables.new ≡ T.ram tables.old }
    ensures counted { T.reads tables.old ≤ T.reads tables.new }
{
    let mut count = 0;
    for touch in touches {
        count += put_touch(entries, *touch, tables, regs);
    }
    count
}

/// Keeps the translations that an instruction used, and tells how many were added.
fn put_used<T: Tables>(entries: &mut Entries, packet: &Packet, tables: &mut T, regs: &Regs) -> u64
    requires { 3 ≤ entries.old.room }
    ensures items { entries.new.items ≡ with_used (T.ram tables.old) regs.now (used_by packet.now) entries.old.items }
    ensures few { result ≤ 3 }
    ensures stays { T.ram tables.new ≡ T.ram tables.old }
    ensures counted { T.reads tables.old ≤ T.reads tables.new }
{
    let fetched = put_touch(entries, fetch_touch(packet.cia), tables, regs);
    if packet.trap.is_some() {
        return fetched;
    }
    fetched + put_touches(entries, &packet.touches, tables, regs)
}

/// What a deed does to the blocks. Where memory is wanting nothing changes.
fn do_blocks(blocks: &mut Blocks, deed: &Deed) -> Result<(), NoMemory>
    requires { IsInRam deed.now }
    ensures ok { OnOk result (blocks.new ≡ deed_blocks deed.now blocks.old) }
    ensures err { OnErr result (blocks.new ≡ blocks.old) }
{
    match deed {
        Deed::Store { spans } => blocks.store(spans),
        Deed::Icbi { block } => blocks.invalidate(*block)?,
        _ => {}
    }
    Ok(())
}

/// What a deed does to the translations.
fn do_entries(entries: &mut Entries, deed: &Deed)
    ensures { entries.new.items ≡ deed_entries deed.now entries.old.items }
{
    match deed {
        Deed::Tlbie(scope) => entries.leave(*scope),
        Deed::NewTable => entries.clear(),
        _ => {}
    }
}

impl Monitor {
    /// Nothing is kept: every block is clean, and no translation is in use. The only error is want of memory.
    pub fn new(alloc: Global) -> Result<Monitor, NoMemory>
        ensures { IfOk result (λ monitor. monitor ≡ beginning) }
    {
        Ok(Monitor {
            blocks: Blocks::new(alloc)?,
            entries: Entries::new(alloc),
            added: 0,
        })
    }

    /// Why an access breaks the discipline of translations, by what it comes to, if it does.
    fn page_rule(
        &self,
        regs: &Regs,
        touch: Touch,
        now: &Result<Translated, StorageFault>,
    ) -> Option<Why>
        ensures { result ≡ page_rule self.now.kept regs.now touch now.now }
    {
        if !is_translated(touch.kind, regs.msr) {
            return None;
        }
        let Ok(pid) = quadrant_of(regs.pidr, touch.ea) else {
            return None;
        };
        let problem = has_bit(regs.msr, PR);
        match self
            .entries
            .stale(now, touch.kind, problem, pid, touch.ea / PAGE_SIZE)
        {
            None => None,
            Some(entry) => Some(page_why(touch.kind, now, &entry)),
        }
    }

    /// Why an access of a kind breaks the discipline of blocks, by what it comes to, if it does.
    fn block_rule(&self, kind: Kind, now: &Result<Translated, StorageFault>) -> Option<Why>
        ensures { result ≡ block_rule self.now.kept kind now.now }
    {
        if kind != Kind::Fetch {
            return None;
        }
        let Ok(there) = now else {
            return None;
        };
        if there.real >= RAM_SIZE as u64 {
            return None;
        }
        block_why(there.real, self.blocks.status((there.real / 64) as u32))
    }

    /// Why an access breaks the discipline, by what it comes to, if it does.
    fn why_by(
        &self,
        regs: &Regs,
        touch: Touch,
        now: &Result<Translated, StorageFault>,
    ) -> Option<Why>
        ensures { result ≡ why_by self.now.kept regs.now touch now.now }
    {
        match self.page_rule(regs, touch, now) {
            Some(why) => Some(why),
            None => self.block_rule(touch.kind, now),
        }
    }

    /// Looks at one access: whether those behind it are to be looked at, or that it breaks the discipline.
    fn examine<T: Tables>(&self, touch: Touch, tables: &mut T, regs: &Regs) -> Result<bool, Access>
        ensures ok { IfOk result (λ on. (why_by self.now.kept regs.now touch (translate_of (T.ram tables.old) regs.now touch.kind touch.ea) ≡ None) × (on ≡ is_ok (translate_of (T.ram tables.old) regs.now touch.kind touch.ea))) }
        ensures err { IfErr result (λ access. option_map (access_by touch) (why_by self.now.kept regs.now touch (translate_of (T.ram tables.old) regs.now touch.kind touch.ea)) ≡ Some access) }
        ensures stays { T.ram tables.new ≡ T.ram tables.old }
        ensures counted { T.reads tables.old ≤ T.reads tables.new }
    {
        let now = translate(tables, regs, touch.kind, touch.ea);
        match self.why_by(regs, touch, &now) {
            None => Ok(now.is_ok()),
            Some(why) => Err(Access {
                kind: touch.kind,
                ea: touch.ea,
                why,
            }),
        }
    }

    /// Looks at accesses in order, up to the first that has a fault or breaks the discipline.
    fn examine_all<T: Tables>(
        &self,
        touches: &[Touch],
        tables: &mut T,
        regs: &Regs,
    ) -> Result<(), Access>
        ensures ok { OnOk result (first_of self.now.kept (T.ram tables.old) regs.now touches.now ≡ None) }
        ensures err { IfErr result (λ access. first_of self.now.kept (T.ram tables.old) regs.now touches.now ≡ Some access) }
        ensures stays { T.ram tables.new ≡ T.ram tables.old }
        ensures counted { T.reads tables.old ≤ T.reads tables.new }
    {
        for touch in touches {
            match self.examine(*touch, tables, regs) {
                Err(access) => return Err(access),
                Ok(false) => return Ok(()),
                Ok(true) => {}
            }
        }
        Ok(())
    }

    /// The first access of an instruction that breaks the discipline, as the error, by the registers and the tables before
    /// it. The tables' RAM stays.
    pub fn check<T: Tables>(
        &self,
        packet: &Packet,
        tables: &mut T,
        regs: &Regs,
    ) -> Result<(), Access>
        ensures ok { OnOk result (offends self.now.kept (T.ram tables.old) regs.now packet.now ≡ None) }
        ensures err { IfErr result (λ access. offends self.now.kept (T.ram tables.old) regs.now packet.now ≡ Some access) }
        ensures stays { T.ram tables.new ≡ T.ram tables.old }
        ensures counted { T.reads tables.old ≤ T.reads tables.new }
    {
        if !self.examine(fetch_touch(packet.cia), tables, regs)? {
            return Ok(());
        }
        self.examine_all(&packet.touches, tables, regs)
    }

    /// Records an instruction before it takes effect: the translations that it used, by the registers and the tables before
    /// it, then its deed, and then, where it synchronizes or raises an interrupt, that. Where memory is wanting nothing
    /// changes.
    pub fn record<T: Tables>(
        &mut self,
        packet: &Packet,
        tables: &mut T,
        regs: &Regs,
    ) -> Result<(), NoMemory>
        requires allowed { offends self.old.kept (T.ram tables.old) regs.now packet.now ≡ None }
        requires within { IsInRam packet.now.deed }
        requires room { self.old.added ≤ 100000000 }
        ensures kept { OnOk result (self.new.kept ≡ after self.old.kept (T.ram tables.old) regs.now packet.now) }
        ensures added { OnOk result (self.old.added ≤ self.new.added × self.new.added ≤ self.old.added + 6) }
        ensures err { OnErr result (self.new ≡ self.old) }
        ensures stays { T.ram tables.new ≡ T.ram tables.old }
        ensures counted { T.reads tables.old ≤ T.reads tables.new }
    {
        self.entries.reserve(3)?;
        do_blocks(&mut self.blocks, &packet.deed)?;
        self.added += put_used(&mut self.entries, packet, tables, regs);
        do_entries(&mut self.entries, &packet.deed);
        if packet.trap.is_some() || matches!(packet.deed, Deed::Sync) {
            self.interrupted();
        }
        Ok(())
    }

    /// Records an interrupt that is taken between instructions, which synchronizes.
    pub fn interrupted(&mut self)
        ensures { self.new ≡ record self.old { kept = synced self.old.kept } }
    {
        self.blocks.sync();
        self.entries.sync();
    }
}
