ghost use Rattle.std.specs.Prelude.{◌≡◌, ◌%◌, ◌^◌, ◌<◌, ◌≤◌, IfOk};
ghost use Rattle.mw_isa.specs.Pages.{page_size};
ghost use Rattle.mw_isa.specs.Translate.{entry_of, found_by, is_marked, is_translated, leaf_gives, permits, permits_kind, quadrant_of, real_in, translate_of, translated, translated_in, untranslated};
ghost use Rattle.mw_isa.specs.Walk.{IsLeaf, walk_of};

use crate::tables::Tables;
use crate::walker::Walker;
use mw_bits::Rights;
use mw_isa::{
    DR, IR, KeptEntry, Kind, Leaf, PR, Regs, StorageFault, Translated, WalkFault, has_bit,
};

/// The process whose tree an effective address belongs to: that of PIDR in quadrant 0, process 0 in quadrant 3 (Book III,
/// radix tree translation). Another quadrant is a segment fault.
pub fn quadrant_of(pidr: u32, ea: u64) -> Result<u32, StorageFault>
    ensures { result ≡ quadrant_of pidr ea }
{
    match ea >> 62 {
        0 => Ok(pidr),
        3 => Ok(0),
        _ => Err(StorageFault::Segment),
    }
}

/// Whether rights permit an access of a kind in a privileged state.
fn permits_kind(rights: &Rights, kind: Kind) -> bool
    ensures { result ≡ permits_kind rights.now kind }
{
    match kind {
        Kind::Fetch => rights.execute,
        Kind::Load => rights.read || rights.write,
        Kind::Store => rights.write,
    }
}

/// Whether rights permit an access of a kind, in problem state or not (Book III, storage protection). It can't fail.
pub fn permits(rights: &Rights, kind: Kind, problem: bool) -> bool
    ensures { result ≡ permits rights.now kind problem }
{
    !(problem && rights.privileged) && permits_kind(rights, kind)
}

/// Whether a leaf is marked for an access of a kind.
fn is_marked(leaf: &Leaf, kind: Kind) -> bool
    ensures { result ≡ is_marked leaf.now kind }
{
    match kind {
        Kind::Fetch => leaf.referenced,
        Kind::Load => leaf.referenced,
        Kind::Store => leaf.referenced && leaf.rights.changed,
    }
}

/// Where a leaf puts an effective address, and the entry of it.
fn translated(leaf: &Leaf, pid: u32, ea: u64) -> Translated
    requires { IsLeaf leaf.now }
    ensures { result ≡ translated leaf.now pid ea }
{
    let real = leaf.base + ea % (1 << leaf.left);
    Translated {
        real,
        kept: Some(KeptEntry {
            pid,
            page: ea / 0x1000,
            real: real / 0x1000,
            rights: leaf.rights,
            leaving: false,
        }),
    }
}

/// What a leaf gives an access of a kind: first whether it permits it, then whether it is marked.
fn leaf_gives(
    leaf: &Leaf,
    kind: Kind,
    problem: bool,
    pid: u32,
    ea: u64,
) -> Result<Translated, StorageFault>
    requires { IsLeaf leaf.now }
    ensures { result ≡ leaf_gives leaf.now kind problem pid ea }
{
    if !permits(&leaf.rights, kind, problem) {
        Err(StorageFault::NotPermitted)
    } else if is_marked(leaf, kind) {
        Ok(translated(leaf, pid, ea))
    } else {
        Err(StorageFault::ReferenceOrChange)
    }
}

/// What the end of a walk gives an access of a kind, in problem state or not, for a process at an effective address
/// (Book III, storage protection, reference and change recording). It can't fail.
pub fn found_by(
    end: &Result<Leaf, WalkFault>,
    kind: Kind,
    problem: bool,
    pid: u32,
    ea: u64,
) -> Result<Translated, StorageFault>
    requires { IfOk end.now IsLeaf }
    ensures { result ≡ found_by end.now kind problem pid ea }
{
    match end {
        Ok(leaf) => leaf_gives(leaf, kind, problem, pid, ea),
        Err(WalkFault::Segment) => Err(StorageFault::Segment),
        Err(WalkFault::NoEntry) => Err(StorageFault::NoTranslation),
        Err(WalkFault::BadTree) => Err(StorageFault::BadTree),
    }
}

/// The end of the walk of an effective address in the tree of a process.
fn walked<T: Tables>(tables: &mut T, prtbl: u64, pid: u32, ea: u64) -> Result<Leaf, WalkFault>
    ensures value { result ≡ (walk_of (T.ram tables.old) prtbl pid ea).end }
    ensures stays { T.ram tables.new ≡ T.ram tables.old }
    ensures counted { T.reads tables.old ≤ T.reads tables.new }
    ensures leaf { IfOk result IsLeaf }
{
    let mut walker = Walker::start(prtbl, pid, ea);
    loop {
        if let Some(end) = walker.done() {
            return end;
        }
        if let Some(at) = walker.want() {
            walker.give(tables.doubleword(at));
        }
    }
}

/// What an effective address comes to in the tree of its quadrant's process.
fn translated_in<T: Tables>(
    tables: &mut T,
    regs: &Regs,
    kind: Kind,
    ea: u64,
) -> Result<Translated, StorageFault>
    ensures value { result ≡ translated_in (T.ram tables.old) regs.now kind ea (quadrant_of regs.now.pidr ea) }
    ensures stays { T.ram tables.new ≡ T.ram tables.old }
    ensures counted { T.reads tables.old ≤ T.reads tables.new }
{
    let pid = quadrant_of(regs.pidr, ea)?;
    let end = walked(tables, regs.prtbl, pid, ea);
    found_by(&end, kind, has_bit(regs.msr, PR), pid, ea)
}

/// Whether addresses of a kind are translated: those of fetches with IR, those of data with DR (Book III, machine state
/// register). It can't fail.
pub fn is_translated(kind: Kind, msr: u64) -> bool
    ensures { result ≡ is_translated kind msr }
{
    match kind {
        Kind::Fetch => has_bit(msr, IR),
        Kind::Load => has_bit(msr, DR),
        Kind::Store => has_bit(msr, DR),
    }
}

/// What an effective address comes to for an access of a kind, by the registers and the tables (Book III, address
/// translation): the real address and, while addresses of that kind are translated, the entry that may be kept of it;
/// or what is wrong with its page. The tables' RAM stays. It takes no memory.
#[tactic(auto, unfolding(mw_isa::specs::Translate::translate_of))]
pub fn translate<T: Tables>(
    tables: &mut T,
    regs: &Regs,
    kind: Kind,
    ea: u64,
) -> Result<Translated, StorageFault>
    ensures value { result ≡ translate_of (T.ram tables.old) regs.now kind ea }
    ensures stays { T.ram tables.new ≡ T.ram tables.old }
    ensures counted { T.reads tables.old ≤ T.reads tables.new }
{
    if is_translated(kind, regs.msr) {
        translated_in(tables, regs, kind, ea)
    } else {
        Ok(Translated {
            real: ea % 0x1000_0000_0000_0000,
            kept: None,
        })
    }
}
