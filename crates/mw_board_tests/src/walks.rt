use mw_bits::Rights;
use mw_bus::Ram;
use mw_isa::{KeptEntry, Kind, Regs, StorageFault, Translated};
use mw_radix::{Leaf, RamTables, WalkFault, Walker, found_by, permits, translate};
use std::alloc::{AllocError as NoMemory, Global};
use std::test::Fail;

/// The real address that an effective one comes to, or what is wrong with its page.
type Found = Result<u64, StorageFault>;

/// The address belongs to no tree.
const SEGMENT: Found = Err(StorageFault::Segment);

/// An entry isn't there.
const NOTHING: Found = Err(StorageFault::NoTranslation);

/// The entry doesn't permit the access.
const REFUSED: Found = Err(StorageFault::NotPermitted);

/// The tree isn't formed as it has to be.
const BAD_TREE: Found = Err(StorageFault::BadTree);

/// The entry isn't marked.
const UNMARKED: Found = Err(StorageFault::ReferenceOrChange);

/// Translation is on for fetches, IR, bit 58 of MSR.
const FETCHES: u64 = 1 << 5;

/// Translation is on for data, DR, bit 59.
const DATA: u64 = 1 << 4;

/// Problem state, PR, bit 49.
const PROBLEM: u64 = 1 << 14;

/// A real address, and the doubleword that stands there, most significant byte first.
#[derive(Clone, Copy)]
struct Word(u32, u64);

/// The tree of process 1, of 52 bits in levels of 13, 9, 9 and 9: page 0 is read, written and executed, and page 5 read
/// and written. Its process table of 4 KiB stands at 10000.
#[rattlefmt::skip]
static TREE: [Word; 6] = [
    Word(0x1_0010, 0x4000_0000_0002_00ad),
    Word(0x2_0000, 0x8000_0000_0003_0009),
    Word(0x3_0000, 0x8000_0000_0003_1009),
    Word(0x3_1000, 0x8000_0000_0003_2009),
    Word(0x3_2000, 0xc000_0000_0000_0187),
    Word(0x3_2028, 0xc000_0000_0000_5186),
];

/// Puts doublewords where they stand.
fn lay(ram: &mut Ram, words: &[Word]) {
    for Word(at, word) in words {
        ram.write(u64::from(*at), &word.to_be_bytes());
    }
}

/// Takes doublewords away again, and puts those of the tree back.
fn clear(ram: &mut Ram, words: &[Word]) {
    for Word(at, _) in words {
        ram.write(u64::from(*at), &[0; 8]);
    }
    lay(ram, &TREE);
}

/// RAM with the tree, and nothing else.
fn ram_with_tree(alloc: Global) -> Result<Ram, NoMemory> {
    let mut ram = Ram::new(alloc, &[])?;
    lay(&mut ram, &TREE);
    Ok(ram)
}

/// The start's registers, with bits of MSR set, and with PRTBL and PIDR.
fn regs_with(msr: u64, prtbl: u64, pidr: u32) -> Regs {
    let regs = Regs::new();
    Regs {
        msr: regs.msr | msr,
        prtbl,
        pidr,
        ..regs
    }
}

/// The real address that is found for an access.
fn found(ram: &Ram, regs: &Regs, kind: Kind, ea: u64) -> Found {
    let there = translate(&mut RamTables::new(ram), regs, kind, ea)?;
    Ok(there.real)
}

/// What a fetch, a load and a store find.
fn found_by_kinds(ram: &Ram, regs: &Regs, ea: u64) -> [Found; 3] {
    [
        found(ram, regs, Kind::Fetch, ea),
        found(ram, regs, Kind::Load, ea),
        found(ram, regs, Kind::Store, ea),
    ]
}

/// The doublewords that differ from the tree's, PRTBL, PIDR, an effective address, and what a load finds there.
struct Row {
    changed: &'static [Word],
    prtbl: u64,
    pid: u32,
    ea: u64,
    real: Found,
}

/// PRTBL and process entries with a field at an end, each beside a neighbour that translates.
#[rattlefmt::skip]
static PROCESSES: [Row; 43] = [
    // size field 0, 4 KiB: the last process in the table, and the one beyond, of which an entry stands there
    Row { changed: &[Word(0x1_0ff0, 0x4000_0000_0002_00ad), Word(0x1_1000, 0x4000_0000_0002_00ad)], prtbl: 0x1_0000, pid: 255, ea: 0x5123, real: Ok(0x5123) },
    Row { changed: &[Word(0x1_0ff0, 0x4000_0000_0002_00ad), Word(0x1_1000, 0x4000_0000_0002_00ad)], prtbl: 0x1_0000, pid: 256, ea: 0x5123, real: NOTHING },
    // size field 1, 8 KiB: the same process, the last one, and the one beyond
    Row { changed: &[Word(0x1_1000, 0x4000_0000_0002_00ad)], prtbl: 0x1_0001, pid: 256, ea: 0x5123, real: Ok(0x5123) },
    Row { changed: &[Word(0x1_1ff0, 0x4000_0000_0002_00ad)], prtbl: 0x1_0001, pid: 511, ea: 0x5123, real: Ok(0x5123) },
    Row { changed: &[Word(0x1_2000, 0x4000_0000_0002_00ad)], prtbl: 0x1_0001, pid: 512, ea: 0x5123, real: NOTHING },
    // a table of 2^32 processes whose last one stands at ff0, behind the last real address; one of 2^31
    Row { changed: &[Word(0xff0, 0x4000_0000_0002_00ad)], prtbl: 0x0fff_fff0_0000_1018, pid: 0xffff_ffff, ea: 0x5123, real: Ok(0x5123) },
    Row { changed: &[Word(0xff0, 0x4000_0000_0002_00ad)], prtbl: 0x0fff_fff0_0000_101f, pid: 0xffff_ffff, ea: 0x5123, real: Ok(0x5123) },
    Row { changed: &[Word(0xff0, 0x4000_0000_0002_00ad)], prtbl: 0x0fff_fff0_0000_1017, pid: 0xffff_ffff, ea: 0x5123, real: NOTHING },
    // a table at the last 4 KiB of real addresses, where all is ones, and behind them at 0
    Row { changed: &[Word(0, 0x4000_0000_0002_00ad)], prtbl: 0x0fff_ffff_ffff_f001, pid: 256, ea: 0x5123, real: Ok(0x5123) },
    Row { changed: &[Word(0, 0x4000_0000_0002_00ad)], prtbl: 0x0fff_ffff_ffff_f001, pid: 255, ea: 0x5123, real: BAD_TREE },
    // the lowest bit of the base, the highest one, and the bits that no field has
    Row { changed: &[Word(0x1_0010, 0), Word(0x1_1010, 0x4000_0000_0002_00ad)], prtbl: 0x1_1000, pid: 1, ea: 0x5123, real: Ok(0x5123) },
    Row { changed: &[], prtbl: 0x0800_0000_0001_0000, pid: 1, ea: 0x5123, real: BAD_TREE },
    Row { changed: &[], prtbl: 0xf000_0000_0001_0fe0, pid: 1, ea: 0x5123, real: Ok(0x5123) },
    Row { changed: &[Word(0x1_1000, 0x4000_0000_0002_00ad)], prtbl: 0xf000_0000_0001_0fe0, pid: 256, ea: 0x5123, real: NOTHING },
    // 52 bits: the last address in the tree, the one beyond, and the highest one that isn't the quadrant's
    Row { changed: &[Word(0x2_fff8, 0xc000_0000_0000_0184)], prtbl: 0x1_0000, pid: 1, ea: 0x000f_ffff_ffff_ffff, real: Ok(0x7f_ffff_ffff) },
    Row { changed: &[Word(0x2_fff8, 0xc000_0000_0000_0184)], prtbl: 0x1_0000, pid: 1, ea: 0x0010_0000_0000_0000, real: SEGMENT },
    Row { changed: &[], prtbl: 0x1_0000, pid: 1, ea: 0x2000_0000_0000_5123, real: SEGMENT },
    // 31 bits, 16 of them of the root: the 15 low bits of the leaf's address are the effective one's
    Row { changed: &[Word(0x1_0010, 0x0000_0000_0002_0010), Word(0x9_fff8, 0xc000_0000_0012_3184)], prtbl: 0x1_0000, pid: 1, ea: 0x7fff_ffff, real: Ok(0x12_7fff) },
    Row { changed: &[Word(0x1_0010, 0x0000_0000_0002_0010), Word(0x9_fff8, 0xc000_0000_0012_3184)], prtbl: 0x1_0000, pid: 1, ea: 0x8000_0000, real: SEGMENT },
    // 32 bits: the lowest bit of the size
    Row { changed: &[Word(0x1_0010, 0x0000_0000_0002_0030), Word(0x6_0000, 0xc000_0000_0012_3184)], prtbl: 0x1_0000, pid: 1, ea: 0x8000_0000, real: Ok(0x12_0000) },
    Row { changed: &[Word(0x1_0010, 0x0000_0000_0002_0030)], prtbl: 0x1_0000, pid: 1, ea: 0x1_0000_0000, real: SEGMENT },
    // 35 and 39 bits: where the two fields of the size meet
    Row { changed: &[Word(0x1_0010, 0x0000_0000_0002_0090), Word(0x9_fff8, 0xc000_0000_0012_3184)], prtbl: 0x1_0000, pid: 1, ea: 0x7_ffff_ffff, real: Ok(0x17_ffff) },
    Row { changed: &[Word(0x1_0010, 0x0000_0000_0002_0090)], prtbl: 0x1_0000, pid: 1, ea: 0x8_0000_0000, real: SEGMENT },
    Row { changed: &[Word(0x1_0010, 0x2000_0000_0002_0010), Word(0x9_fff8, 0xc000_0000_0912_3184)], prtbl: 0x1_0000, pid: 1, ea: 0x7f_ffff_ffff, real: Ok(0x97f_ffff) },
    Row { changed: &[Word(0x1_0010, 0x2000_0000_0002_0010)], prtbl: 0x1_0000, pid: 1, ea: 0x80_0000_0000, real: SEGMENT },
    // 61 bits, 13 of them of the root, and 62, behind which the next quadrant begins
    Row { changed: &[Word(0x1_0010, 0x6000_0000_0002_00cd), Word(0x2_fff8, 0xc1ff_ffff_ffff_f184)], prtbl: 0x1_0000, pid: 1, ea: 0x1fff_0000_0000_1234, real: Ok(0x01ff_0000_0000_1234) },
    Row { changed: &[Word(0x1_0010, 0x6000_0000_0002_00cd)], prtbl: 0x1_0000, pid: 1, ea: 0x2000_0000_0000_0000, real: SEGMENT },
    Row { changed: &[Word(0x1_0010, 0x6000_0000_0002_00ed), Word(0x2_fff8, 0xc1ff_ffff_ffff_f184)], prtbl: 0x1_0000, pid: 1, ea: 0x3ffe_0000_0000_1234, real: Ok(0x01fe_0000_0000_1234) },
    Row { changed: &[Word(0x1_0010, 0x6000_0000_0002_00ed), Word(0x2_fff8, 0xc1ff_ffff_ffff_f184)], prtbl: 0x1_0000, pid: 1, ea: 0x3fff_ffff_ffff_ffff, real: Ok(0x01ff_ffff_ffff_ffff) },
    Row { changed: &[Word(0x1_0010, 0x6000_0000_0002_00ed)], prtbl: 0x1_0000, pid: 1, ea: 0x4000_0000_0000_0000, real: SEGMENT },
    // the lowest bit of the root's address, the highest one, where all is ones, and the bits that no field has
    Row { changed: &[Word(0x1_0010, 0x4000_0000_0002_01ad), Word(0x2_0100, 0xc000_0080_0000_0184)], prtbl: 0x1_0000, pid: 1, ea: 0x1234, real: Ok(0x80_0000_1234) },
    Row { changed: &[Word(0x1_0010, 0x4800_0000_0002_00ad)], prtbl: 0x1_0000, pid: 1, ea: 0x1234, real: Ok(0x01ff_ff80_0000_1234) },
    Row { changed: &[Word(0x1_0010, 0xd000_0000_0002_00ad)], prtbl: 0x1_0000, pid: 1, ea: 0x5123, real: Ok(0x5123) },
    // the last 32 entries before the end of real addresses, and the one behind it at 0
    Row { changed: &[Word(0x1_0010, 0x4fff_ffff_ffff_ffad), Word(0, 0xc000_0080_0000_0184)], prtbl: 0x1_0000, pid: 1, ea: 0x1000_0000_1234, real: Ok(0x80_0000_1234) },
    Row { changed: &[Word(0x1_0010, 0x4fff_ffff_ffff_ffad), Word(0, 0xc000_0080_0000_0184)], prtbl: 0x1_0000, pid: 1, ea: 0x0f80_0000_1234, real: Ok(0x01ff_ff80_0000_1234) },
    // a root of 5 bits, and of 4, 0
    Row { changed: &[Word(0x1_0010, 0x4000_0000_0002_00a5), Word(0x2_0008, 0xc001_8000_0000_0184)], prtbl: 0x1_0000, pid: 1, ea: 0x8000_0000_1234, real: Ok(0x1_8000_0000_1234) },
    Row { changed: &[Word(0x1_0010, 0x4000_0000_0002_00a4), Word(0x2_0008, 0xc001_8000_0000_0184)], prtbl: 0x1_0000, pid: 1, ea: 0x1_0000_0000_1234, real: BAD_TREE },
    Row { changed: &[Word(0x1_0010, 0x4000_0000_0002_00a0), Word(0x2_0000, 0xc001_8000_0000_0184)], prtbl: 0x1_0000, pid: 1, ea: 0x1234, real: BAD_TREE },
    // a root of 16 bits, and of 17, 31
    Row { changed: &[Word(0x1_0010, 0x4000_0000_0002_00b0), Word(0x2_0008, 0xc000_0030_0000_0184)], prtbl: 0x1_0000, pid: 1, ea: 0x10_0000_1234, real: Ok(0x30_0000_1234) },
    Row { changed: &[Word(0x1_0010, 0x4000_0000_0002_00b1), Word(0x2_0008, 0xc000_0030_0000_0184)], prtbl: 0x1_0000, pid: 1, ea: 0x8_0000_1234, real: BAD_TREE },
    Row { changed: &[Word(0x1_0010, 0x4000_0000_0002_00bf)], prtbl: 0x1_0000, pid: 1, ea: 0x5123, real: BAD_TREE },
    // an entry of zeros: 31 bits, and a root of none, which is seen behind the tree's size
    Row { changed: &[], prtbl: 0x1_0000, pid: 2, ea: 0x7fff_ffff, real: BAD_TREE },
    Row { changed: &[], prtbl: 0x1_0000, pid: 2, ea: 0x8000_0000, real: SEGMENT },
];

/// Directories and leaves with a field at an end, each beside a neighbour that translates.
#[rattlefmt::skip]
static LEVELS: [Row; 33] = [
    // a second level of 5 bits of the 39 that are left, and of 4, 0
    Row { changed: &[Word(0x2_0000, 0x8000_0000_0003_0005), Word(0x3_0008, 0xc000_000c_0000_0184)], prtbl: 0x1_0000, pid: 1, ea: 0x4_0000_1234, real: Ok(0xc_0000_1234) },
    Row { changed: &[Word(0x2_0000, 0x8000_0000_0003_0004), Word(0x3_0008, 0xc000_000c_0000_0184)], prtbl: 0x1_0000, pid: 1, ea: 0x8_0000_1234, real: BAD_TREE },
    Row { changed: &[Word(0x2_0000, 0x8000_0000_0003_0000), Word(0x3_0000, 0xc000_000c_0000_0184)], prtbl: 0x1_0000, pid: 1, ea: 0x1234, real: BAD_TREE },
    // a second level of 16 bits, and of 17
    Row { changed: &[Word(0x2_0000, 0x8000_0000_0003_0010), Word(0x3_0008, 0xc000_0000_0180_0184)], prtbl: 0x1_0000, pid: 1, ea: 0x80_1234, real: Ok(0x180_1234) },
    Row { changed: &[Word(0x2_0000, 0x8000_0000_0003_0011), Word(0x3_0008, 0xc000_0000_0180_0184)], prtbl: 0x1_0000, pid: 1, ea: 0x40_1234, real: BAD_TREE },
    // 15 bits left behind a root of 16: a leaf; a level of 15, whose entry isn't there, or is a leaf; a level of 16
    Row { changed: &[Word(0x1_0010, 0x0000_0000_0002_0010), Word(0x2_0000, 0xc000_0000_0008_0184)], prtbl: 0x1_0000, pid: 1, ea: 0x1234, real: Ok(0x8_1234) },
    Row { changed: &[Word(0x1_0010, 0x0000_0000_0002_0010), Word(0x2_0000, 0x8000_0000_0003_000f)], prtbl: 0x1_0000, pid: 1, ea: 0x1234, real: NOTHING },
    Row { changed: &[Word(0x1_0010, 0x0000_0000_0002_0010), Word(0x2_0000, 0x8000_0000_0003_000f), Word(0x3_91a0, 0xc000_0000_0008_0184)], prtbl: 0x1_0000, pid: 1, ea: 0x1234, real: BAD_TREE },
    Row { changed: &[Word(0x1_0010, 0x0000_0000_0002_0010), Word(0x2_0000, 0x8000_0000_0003_0010)], prtbl: 0x1_0000, pid: 1, ea: 0x1234, real: BAD_TREE },
    // a leaf with 12 bits left, with 11, and none with 11
    Row { changed: &[], prtbl: 0x1_0000, pid: 1, ea: 0x5fff, real: Ok(0x5fff) },
    Row { changed: &[Word(0x3_1000, 0x8000_0000_0003_200a), Word(0x3_2050, 0xc000_0000_0000_5186)], prtbl: 0x1_0000, pid: 1, ea: 0x5123, real: BAD_TREE },
    Row { changed: &[Word(0x3_1000, 0x8000_0000_0003_200a)], prtbl: 0x1_0000, pid: 1, ea: 0x5123, real: NOTHING },
    // a leaf with 13 bits left: its thirteenth bit is the effective address's
    Row { changed: &[Word(0x3_1000, 0x8000_0000_0003_2008), Word(0x3_2010, 0xc000_0000_0000_9186)], prtbl: 0x1_0000, pid: 1, ea: 0x4123, real: Ok(0x8123) },
    Row { changed: &[Word(0x3_1000, 0x8000_0000_0003_2008), Word(0x3_2010, 0xc000_0000_0000_8186)], prtbl: 0x1_0000, pid: 1, ea: 0x5123, real: Ok(0x9123) },
    // 62 bits in levels of 5: a leaf with 12 bits left at the tenth, and 2 left behind the twelfth
    Row { changed: &[Word(0x1_0010, 0x6000_0000_0002_00e5), Word(0x2_0000, 0x8000_0000_0002_0005), Word(0x2_0008, 0xc000_0000_0000_7184)], prtbl: 0x1_0000, pid: 1, ea: 0x1123, real: Ok(0x7123) },
    Row { changed: &[Word(0x1_0010, 0x6000_0000_0002_00e5), Word(0x2_0000, 0x8000_0000_0002_0005), Word(0x2_0008, 0xc000_0000_0000_7184)], prtbl: 0x1_0000, pid: 1, ea: 3, real: BAD_TREE },
    // the lowest bit of the next table's address, the highest one, where all is ones, and the bits that no field has
    Row { changed: &[Word(0x2_0000, 0x8000_0000_0003_0109), Word(0x3_0100, 0xc000_0000_4000_0184)], prtbl: 0x1_0000, pid: 1, ea: 0x1234, real: Ok(0x4000_1234) },
    Row { changed: &[Word(0x2_0000, 0x8800_0000_0003_0009)], prtbl: 0x1_0000, pid: 1, ea: 0x1234, real: Ok(0x01ff_ffff_c000_1234) },
    Row { changed: &[Word(0x2_0000, 0xb000_0000_0003_00e9)], prtbl: 0x1_0000, pid: 1, ea: 0x5123, real: Ok(0x5123) },
    // the last entry in RAM, and the one behind it, which is all ones
    Row { changed: &[Word(0x2_0000, 0x8000_0000_00ff_ff09), Word(0xff_fff8, 0xc000_0000_4000_0184)], prtbl: 0x1_0000, pid: 1, ea: 0x7_c000_1234, real: Ok(0x4000_1234) },
    Row { changed: &[Word(0x2_0000, 0x8000_0000_00ff_ff09), Word(0xff_fff8, 0xc000_0000_4000_0184)], prtbl: 0x1_0000, pid: 1, ea: 0x8_0000_1234, real: Ok(0x01ff_ffff_c000_1234) },
    // the entry behind the last real address, at 0, and the one before it, which is all ones
    Row { changed: &[Word(0x2_0000, 0x8fff_ffff_ffff_ff09), Word(0, 0xc000_0000_4000_0184)], prtbl: 0x1_0000, pid: 1, ea: 0x8_0000_1234, real: Ok(0x4000_1234) },
    Row { changed: &[Word(0x2_0000, 0x8fff_ffff_ffff_ff09), Word(0, 0xc000_0000_4000_0184)], prtbl: 0x1_0000, pid: 1, ea: 0x7_c000_1234, real: Ok(0x01ff_ffff_c000_1234) },
    // a directory that isn't there; a leaf of 2^30 bytes that isn't there, and that is; another leaf; an entry of zeros
    Row { changed: &[Word(0x3_0000, 0x0000_0000_0003_1009)], prtbl: 0x1_0000, pid: 1, ea: 0x5123, real: NOTHING },
    Row { changed: &[Word(0x3_0000, 0x4000_0000_4003_1184)], prtbl: 0x1_0000, pid: 1, ea: 0x5123, real: NOTHING },
    Row { changed: &[Word(0x3_0000, 0xc000_0000_4003_1184)], prtbl: 0x1_0000, pid: 1, ea: 0x5123, real: Ok(0x4000_5123) },
    Row { changed: &[Word(0x3_2028, 0x4000_0000_0000_5186)], prtbl: 0x1_0000, pid: 1, ea: 0x5123, real: NOTHING },
    Row { changed: &[], prtbl: 0x1_0000, pid: 1, ea: 0x1123, real: NOTHING },
    Row { changed: &[], prtbl: 0x1_0000, pid: 1, ea: 0x0123, real: Ok(0x0123) },
    // the lowest bit of the leaf's address, the highest one, and the bits that no field has or that are ignored
    Row { changed: &[Word(0x3_2028, 0xc000_0000_0000_1186)], prtbl: 0x1_0000, pid: 1, ea: 0x5123, real: Ok(0x1123) },
    Row { changed: &[Word(0x3_2028, 0xc100_0000_0000_0186)], prtbl: 0x1_0000, pid: 1, ea: 0x5123, real: Ok(0x0100_0000_0000_0123) },
    Row { changed: &[Word(0x3_2028, 0xfe00_0000_0000_5ff6)], prtbl: 0x1_0000, pid: 1, ea: 0x5123, real: Ok(0x5123) },
    Row { changed: &[Word(0x3_2028, 0xc1ff_ffff_ffff_f186)], prtbl: 0x1_0000, pid: 1, ea: 0x5fff, real: Ok(0x01ff_ffff_ffff_ffff) },
];

#[test]
fn processes_have_their_trees(rt: HostRuntime) -> Result<(), Fail> {
    let mut ram = ram_with_tree(rt.alloc())?;
    for row in &PROCESSES {
        lay(&mut ram, row.changed);
        let regs = regs_with(DATA, row.prtbl, row.pid);
        assert_eq!(rt;
            found(&ram, &regs, Kind::Load, row.ea),
            row.real,
            "{:x} of process {} by {:x}",
            row.ea,
            row.pid,
            row.prtbl
        );
        clear(&mut ram, row.changed);
    }
    Ok(())
}

#[test]
fn levels_lead_to_leaves(rt: HostRuntime) -> Result<(), Fail> {
    let mut ram = ram_with_tree(rt.alloc())?;
    for row in &LEVELS {
        lay(&mut ram, row.changed);
        let regs = regs_with(DATA, row.prtbl, row.pid);
        assert_eq!(rt;
            found(&ram, &regs, Kind::Load, row.ea),
            row.real,
            "{:x} of process {} by {:x}",
            row.ea,
            row.pid,
            row.prtbl
        );
        clear(&mut ram, row.changed);
    }
    Ok(())
}

/// An access that a leaf at real address 7000 permits.
const ALLOWED: Found = Ok(0x7123);

/// The low bits of a leaf, which are R, C and EAA; what a fetch, a load and a store find with PR=0, and with PR=1.
struct Marks(u64, &'static [Found], &'static [Found]);

#[rattlefmt::skip]
static MARKS: [Marks; 17] = [
    // R and C are set: nothing, execute, read and write, read, all three
    Marks(0x180, &[REFUSED, REFUSED, REFUSED], &[REFUSED, REFUSED, REFUSED]),
    Marks(0x181, &[ALLOWED, REFUSED, REFUSED], &[ALLOWED, REFUSED, REFUSED]),
    Marks(0x182, &[REFUSED, ALLOWED, ALLOWED], &[REFUSED, ALLOWED, ALLOWED]),
    Marks(0x184, &[REFUSED, ALLOWED, REFUSED], &[REFUSED, ALLOWED, REFUSED]),
    Marks(0x187, &[ALLOWED, ALLOWED, ALLOWED], &[ALLOWED, ALLOWED, ALLOWED]),
    // the same with the privileged bit
    Marks(0x188, &[REFUSED, REFUSED, REFUSED], &[REFUSED, REFUSED, REFUSED]),
    Marks(0x189, &[ALLOWED, REFUSED, REFUSED], &[REFUSED, REFUSED, REFUSED]),
    Marks(0x18a, &[REFUSED, ALLOWED, ALLOWED], &[REFUSED, REFUSED, REFUSED]),
    Marks(0x18c, &[REFUSED, ALLOWED, REFUSED], &[REFUSED, REFUSED, REFUSED]),
    Marks(0x18f, &[ALLOWED, ALLOWED, ALLOWED], &[REFUSED, REFUSED, REFUSED]),
    // all three without C, without R, and without both
    Marks(0x107, &[ALLOWED, ALLOWED, UNMARKED], &[ALLOWED, ALLOWED, UNMARKED]),
    Marks(0x087, &[UNMARKED, UNMARKED, UNMARKED], &[UNMARKED, UNMARKED, UNMARKED]),
    Marks(0x007, &[UNMARKED, UNMARKED, UNMARKED], &[UNMARKED, UNMARKED, UNMARKED]),
    // the permission comes before R and C
    Marks(0x000, &[REFUSED, REFUSED, REFUSED], &[REFUSED, REFUSED, REFUSED]),
    Marks(0x104, &[REFUSED, ALLOWED, REFUSED], &[REFUSED, ALLOWED, REFUSED]),
    Marks(0x004, &[REFUSED, UNMARKED, REFUSED], &[REFUSED, UNMARKED, REFUSED]),
    Marks(0x00f, &[UNMARKED, UNMARKED, UNMARKED], &[REFUSED, REFUSED, REFUSED]),
];

#[test]
fn leaves_permit_and_are_marked(rt: HostRuntime) -> Result<(), Fail> {
    let mut ram = ram_with_tree(rt.alloc())?;
    for Marks(low, privileged, problem) in &MARKS {
        lay(&mut ram, &[Word(0x3_2000, 0xc000_0000_0000_7000 | *low)]);
        let regs = regs_with(FETCHES | DATA, 0x1_0000, 1);
        assert_eq!(rt;
            found_by_kinds(&ram, &regs, 0x123).as_slice(),
            *privileged,
            "{low:x} with PR=0"
        );
        let regs = regs_with(FETCHES | DATA | PROBLEM, 0x1_0000, 1);
        assert_eq!(rt;
            found_by_kinds(&ram, &regs, 0x123).as_slice(),
            *problem,
            "{low:x} with PR=1"
        );
    }
    Ok(())
}

/// Bits of MSR, PIDR, an effective address, and what a fetch, a load and a store find.
struct Quadrant(u64, u32, u64, &'static [Found]);

/// Addresses in each quadrant, with translation on and off. Process 0 has a page of 2^39 bytes at real address
/// 8000000000, and another one with the last of its addresses.
#[rattlefmt::skip]
static QUADRANTS: [Quadrant; 20] = [
    // quadrant 0 is the process's of PIDR, and 3 process 0's
    Quadrant(FETCHES | DATA, 1, 0x0000_0000_0000_0123, &[Ok(0x123), Ok(0x123), Ok(0x123)]),
    Quadrant(FETCHES | DATA, 0, 0x0000_0000_0000_0123, &[Ok(0x80_0000_0123), Ok(0x80_0000_0123), Ok(0x80_0000_0123)]),
    Quadrant(FETCHES | DATA, 1, 0xc000_0000_0000_0123, &[Ok(0x80_0000_0123), Ok(0x80_0000_0123), Ok(0x80_0000_0123)]),
    Quadrant(FETCHES | DATA, 0, 0xc000_0000_0000_0123, &[Ok(0x80_0000_0123), Ok(0x80_0000_0123), Ok(0x80_0000_0123)]),
    Quadrant(FETCHES | DATA, 256, 0xc000_0000_0000_0123, &[Ok(0x80_0000_0123), Ok(0x80_0000_0123), Ok(0x80_0000_0123)]),
    Quadrant(FETCHES | DATA, 256, 0x0000_0000_0000_0123, &[NOTHING, NOTHING, NOTHING]),
    // the ends of the quadrants
    Quadrant(FETCHES | DATA, 1, 0x3fff_ffff_ffff_ffff, &[SEGMENT, SEGMENT, SEGMENT]),
    Quadrant(FETCHES | DATA, 1, 0x4000_0000_0000_0123, &[SEGMENT, SEGMENT, SEGMENT]),
    Quadrant(FETCHES | DATA, 1, 0x7fff_ffff_ffff_ffff, &[SEGMENT, SEGMENT, SEGMENT]),
    Quadrant(FETCHES | DATA, 1, 0x8000_0000_0000_0123, &[SEGMENT, SEGMENT, SEGMENT]),
    Quadrant(FETCHES | DATA, 1, 0xbfff_ffff_ffff_ffff, &[SEGMENT, SEGMENT, SEGMENT]),
    Quadrant(FETCHES | DATA, 1, 0xc00f_ffff_ffff_ffff, &[Ok(0x1ff_ffff_ffff), Ok(0x1ff_ffff_ffff), Ok(0x1ff_ffff_ffff)]),
    Quadrant(FETCHES | DATA, 1, 0xc010_0000_0000_0000, &[SEGMENT, SEGMENT, SEGMENT]),
    Quadrant(FETCHES | DATA, 1, 0xffff_ffff_ffff_ffff, &[SEGMENT, SEGMENT, SEGMENT]),
    // translation is off for data, for fetches, for both: the low 60 bits, also in problem state
    Quadrant(FETCHES, 1, 0x9123_4567_89ab_cdef, &[SEGMENT, Ok(0x0123_4567_89ab_cdef), Ok(0x0123_4567_89ab_cdef)]),
    Quadrant(DATA, 1, 0x9123_4567_89ab_cdef, &[Ok(0x0123_4567_89ab_cdef), SEGMENT, SEGMENT]),
    Quadrant(0, 1, 0xffff_ffff_ffff_ffff, &[Ok(0x0fff_ffff_ffff_ffff), Ok(0x0fff_ffff_ffff_ffff), Ok(0x0fff_ffff_ffff_ffff)]),
    Quadrant(PROBLEM, 1, 0x4800_0000_0000_0123, &[Ok(0x0800_0000_0000_0123), Ok(0x0800_0000_0000_0123), Ok(0x0800_0000_0000_0123)]),
    Quadrant(FETCHES, 1, 0xc000_0000_0000_0123, &[Ok(0x80_0000_0123), Ok(0x123), Ok(0x123)]),
    Quadrant(DATA, 1, 0xc000_0000_0000_0123, &[Ok(0x123), Ok(0x80_0000_0123), Ok(0x80_0000_0123)]),
];

/// The doublewords of process 0: its entry, with a root at 40000, and that root's first and last entry.
#[rattlefmt::skip]
static PROCESS_0: [Word; 3] = [
    Word(0x1_0000, 0x4000_0000_0004_00ad),
    Word(0x4_0000, 0xc000_0080_0000_0187),
    Word(0x4_fff8, 0xc000_0180_0000_0187),
];

#[test]
fn quadrants_have_their_processes(rt: HostRuntime) -> Result<(), Fail> {
    let mut ram = ram_with_tree(rt.alloc())?;
    lay(&mut ram, &PROCESS_0);
    for Quadrant(msr, pidr, ea, want) in &QUADRANTS {
        let regs = regs_with(*msr, 0x1_0000, *pidr);
        assert_eq!(rt;
            found_by_kinds(&ram, &regs, *ea).as_slice(),
            *want,
            "{ea:x} of process {pidr} under {msr:x}"
        );
    }
    Ok(())
}

/// A leaf for page 0 of process 1 or 0, bits of MSR, a kind, an effective address, and what an access of PIDR 1 finds.
struct Kept(Word, u64, Kind, u64, Translated);

/// What may be kept of a translation.
#[rattlefmt::skip]
static KEPT: [Kept; 6] = [
    Kept(Word(0x3_2000, 0xc000_0000_0000_7187), FETCHES, Kind::Fetch, 0x123, Translated { real: 0x7123, kept: Some(KeptEntry { pid: 1, page: 0, real: 7, rights: Rights { privileged: false, read: true, write: true, execute: true, changed: true }, leaving: false }) }),
    Kept(Word(0x3_2000, 0xc000_0000_0000_7187), DATA, Kind::Store, 0x5fff, Translated { real: 0x5fff, kept: Some(KeptEntry { pid: 1, page: 5, real: 5, rights: Rights { privileged: false, read: true, write: true, execute: false, changed: true }, leaving: false }) }),
    // privileged, read, and not changed
    Kept(Word(0x3_2000, 0xc000_0000_0000_710c), DATA, Kind::Load, 0x123, Translated { real: 0x7123, kept: Some(KeptEntry { pid: 1, page: 0, real: 7, rights: Rights { privileged: true, read: true, write: false, execute: false, changed: false }, leaving: false }) }),
    // a page of 2^39 bytes of process 0, in its quadrant
    Kept(Word(0x4_0000, 0xc000_0080_0000_0181), FETCHES, Kind::Fetch, 0xc000_0012_3456_789a, Translated { real: 0x92_3456_789a, kept: Some(KeptEntry { pid: 0, page: 0xc_0000_0123_4567, real: 0x923_4567, rights: Rights { privileged: false, read: false, write: false, execute: true, changed: true }, leaving: false }) }),
    // nothing is kept while translation is off
    Kept(Word(0x3_2000, 0xc000_0000_0000_7187), FETCHES, Kind::Load, 0x123, Translated { real: 0x123, kept: None }),
    Kept(Word(0x3_2000, 0xc000_0000_0000_7187), DATA, Kind::Fetch, 0xf000_0000_0000_0123, Translated { real: 0x123, kept: None }),
];

#[test]
fn what_may_be_kept(rt: HostRuntime) -> Result<(), Fail> {
    let mut ram = ram_with_tree(rt.alloc())?;
    lay(&mut ram, &PROCESS_0);
    for Kept(leaf, msr, kind, ea, want) in &KEPT {
        lay(&mut ram, &[*leaf]);
        let regs = regs_with(*msr, 0x1_0000, 1);
        let there = translate(&mut RamTables::new(&ram), &regs, *kind, *ea);
        assert!(rt; there == Ok(*want), "{ea:x} under {msr:x}");
    }
    Ok(())
}

/// PRTBL, a process and an effective address; the doublewords that a walk wants, in order; its end, and what a load
/// finds by that.
struct Walk {
    prtbl: u64,
    pid: u32,
    ea: u64,
    given: &'static [Word],
    end: Result<Leaf, WalkFault>,
    real: Found,
}

#[rattlefmt::skip]
static WALKS: [Walk; 11] = [
    // the two pages of the tree
    Walk {
        prtbl: 0x1_0000, pid: 1, ea: 0x5123,
        given: &[Word(0x1_0010, 0x4000_0000_0002_00ad), Word(0x2_0000, 0x8000_0000_0003_0009), Word(0x3_0000, 0x8000_0000_0003_1009), Word(0x3_1000, 0x8000_0000_0003_2009), Word(0x3_2028, 0xc000_0000_0000_5186)],
        end: Ok(Leaf { base: 0x5000, left: 12, rights: Rights { privileged: false, read: true, write: true, execute: false, changed: true }, referenced: true }),
        real: Ok(0x5123),
    },
    Walk {
        prtbl: 0x1_0000, pid: 1, ea: 0x0fff,
        given: &[Word(0x1_0010, 0x4000_0000_0002_00ad), Word(0x2_0000, 0x8000_0000_0003_0009), Word(0x3_0000, 0x8000_0000_0003_1009), Word(0x3_1000, 0x8000_0000_0003_2009), Word(0x3_2000, 0xc000_0000_0000_0187)],
        end: Ok(Leaf { base: 0, left: 12, rights: Rights { privileged: false, read: true, write: true, execute: true, changed: true }, referenced: true }),
        real: Ok(0x0fff),
    },
    // the quadrant's bits index nothing
    Walk {
        prtbl: 0x1_0000, pid: 1, ea: 0xc000_0000_0000_5123,
        given: &[Word(0x1_0010, 0x4000_0000_0002_00ad), Word(0x2_0000, 0x8000_0000_0003_0009), Word(0x3_0000, 0x8000_0000_0003_1009), Word(0x3_1000, 0x8000_0000_0003_2009), Word(0x3_2028, 0xc000_0000_0000_5186)],
        end: Ok(Leaf { base: 0x5000, left: 12, rights: Rights { privileged: false, read: true, write: true, execute: false, changed: true }, referenced: true }),
        real: Ok(0x5123),
    },
    // entries 2, 3, 4 and 5 of the levels, and a leaf that isn't marked
    Walk {
        prtbl: 0x1_0000, pid: 1, ea: 0x100_c080_5678,
        given: &[Word(0x1_0010, 0x4000_0000_0002_00ad), Word(0x2_0010, 0x8000_0000_0003_0009), Word(0x3_0018, 0x8000_0000_0003_1009), Word(0x3_1020, 0x8000_0000_0003_2009), Word(0x3_2028, 0xc000_0000_0000_500c)],
        end: Ok(Leaf { base: 0x5000, left: 12, rights: Rights { privileged: true, read: true, write: false, execute: false, changed: false }, referenced: false }),
        real: UNMARKED,
    },
    // a leaf that the root has
    Walk {
        prtbl: 0x1_0000, pid: 1, ea: 0x100_1234_5678,
        given: &[Word(0x1_0010, 0x4000_0000_0002_00ad), Word(0x2_0010, 0xc000_0180_fff0_0104)],
        end: Ok(Leaf { base: 0x180_0000_0000, left: 39, rights: Rights { privileged: false, read: true, write: false, execute: false, changed: false }, referenced: true }),
        real: Ok(0x180_1234_5678),
    },
    // page 1, of which there is no leaf
    Walk {
        prtbl: 0x1_0000, pid: 1, ea: 0x1123,
        given: &[Word(0x1_0010, 0x4000_0000_0002_00ad), Word(0x2_0000, 0x8000_0000_0003_0009), Word(0x3_0000, 0x8000_0000_0003_1009), Word(0x3_1000, 0x8000_0000_0003_2009), Word(0x3_2008, 0)],
        end: Err(WalkFault::NoEntry),
        real: NOTHING,
    },
    // the last address in the tree, and the one beyond
    Walk {
        prtbl: 0x1_0000, pid: 1, ea: 0x000f_ffff_ffff_ffff,
        given: &[Word(0x1_0010, 0x4000_0000_0002_00ad), Word(0x2_fff8, 0)],
        end: Err(WalkFault::NoEntry),
        real: NOTHING,
    },
    Walk {
        prtbl: 0x1_0000, pid: 1, ea: 0x0010_0000_0000_0000,
        given: &[Word(0x1_0010, 0x4000_0000_0002_00ad)],
        end: Err(WalkFault::Segment),
        real: SEGMENT,
    },
    // a process beyond the table, of which nothing is read
    Walk {
        prtbl: 0x1_0000, pid: 256, ea: 0x5123,
        given: &[],
        end: Err(WalkFault::NoEntry),
        real: NOTHING,
    },
    // an entry of zeros
    Walk {
        prtbl: 0x1_0000, pid: 2, ea: 0x5123,
        given: &[Word(0x1_0020, 0)],
        end: Err(WalkFault::BadTree),
        real: BAD_TREE,
    },
    // 62 bits in levels of 5: twelve entries are read
    Walk {
        prtbl: 0x1_0000, pid: 1, ea: 3,
        given: &[
            Word(0x1_0010, 0x6000_0000_0002_00e5),
            Word(0x2_0000, 0x8000_0000_0002_0105), Word(0x2_0100, 0x8000_0000_0002_0205), Word(0x2_0200, 0x8000_0000_0002_0305), Word(0x2_0300, 0x8000_0000_0002_0405),
            Word(0x2_0400, 0x8000_0000_0002_0505), Word(0x2_0500, 0x8000_0000_0002_0605), Word(0x2_0600, 0x8000_0000_0002_0705), Word(0x2_0700, 0x8000_0000_0002_0805),
            Word(0x2_0800, 0x8000_0000_0002_0905), Word(0x2_0900, 0x8000_0000_0002_0a05), Word(0x2_0a00, 0x8000_0000_0002_0b05), Word(0x2_0b00, 0x8000_0000_0002_0c05),
        ],
        end: Err(WalkFault::BadTree),
        real: BAD_TREE,
    },
];

/// What a load finds by the end of a walk.
fn loaded_by(walker: &Walker, pid: u32, ea: u64) -> Option<Found> {
    match walker.done() {
        Some(end) => match found_by(&end, Kind::Load, false, pid, ea) {
            Ok(there) => Some(Ok(there.real)),
            Err(fault) => Some(Err(fault)),
        },
        None => None,
    }
}

#[test]
fn walks_want_one_doubleword_after_another(rt: HostRuntime) -> Result<(), Fail> {
    for walk in &WALKS {
        let ea = walk.ea;
        let mut walker = Walker::start(walk.prtbl, walk.pid, ea);
        for Word(at, word) in walk.given {
            assert!(rt; walker.done().is_none(), "{ea:x} before {at:x}");
            match walker.want() {
                Some(wanted) => {
                    assert_eq!(rt; wanted, u64::from(*at), "{ea:x}");
                    walker.give(*word);
                }
                None => panic!(rt; "{ea:x} wants nothing"),
            }
        }
        assert!(rt; walker.want().is_none(), "{ea:x} wants more");
        assert!(rt; walker.done() == Some(walk.end), "{ea:x}");
        assert!(rt;
            loaded_by(&walker, walk.pid, ea) == Some(walk.real),
            "{ea:x}"
        );
    }
    Ok(())
}

/// Rights, and whether they permit a fetch, a load and a store with PR=0, and with PR=1.
struct Permission(Rights, [bool; 3], [bool; 3]);

#[rattlefmt::skip]
static PERMISSIONS: [Permission; 6] = [
    Permission(Rights { privileged: false, read: false, write: false, execute: false, changed: true }, [false, false, false], [false, false, false]),
    Permission(Rights { privileged: false, read: true, write: false, execute: false, changed: true }, [false, true, false], [false, true, false]),
    // C is no matter of permission
    Permission(Rights { privileged: false, read: false, write: true, execute: false, changed: false }, [false, true, true], [false, true, true]),
    Permission(Rights { privileged: false, read: false, write: false, execute: true, changed: false }, [true, false, false], [true, false, false]),
    Permission(Rights { privileged: true, read: true, write: false, execute: true, changed: true }, [true, true, false], [false, false, false]),
    Permission(Rights { privileged: true, read: false, write: true, execute: false, changed: false }, [false, true, true], [false, false, false]),
];

/// Whether rights permit a fetch, a load and a store.
fn permitted(rights: &Rights, problem: bool) -> [bool; 3] {
    [
        permits(rights, Kind::Fetch, problem),
        permits(rights, Kind::Load, problem),
        permits(rights, Kind::Store, problem),
    ]
}

#[test]
fn rights_permit(rt: HostRuntime) {
    for Permission(rights, privileged, problem) in &PERMISSIONS {
        assert!(rt;
            permitted(rights, false) == *privileged,
            "{rights:?} with PR=0"
        );
        assert!(rt; permitted(rights, true) == *problem, "{rights:?} with PR=1");
    }
}
