use mw_board::{Run, simulate};
use mw_isa::{End, Event, Vector};
use mw_uart::Script;
use std::alloc::{AllocError as NoMemory, Global};
use std::test::Fail;

/// The words of an image; the cycle, address and vector of its one trap, if it has one; SRR0, SRR1 and DAR at the end; and
/// registers with their contents there.
struct Row(
    &'static [u32],
    Option<(u64, u64, Vector)>,
    [u64; 3],
    &'static [(usize, u64)],
);

/// The addresses at which `b .` stands behind the words.
const HANDLERS: [usize; 6] = [0x600, 0x700, 0x800, 0xc00, 0xf20, 0xf40];

/// Each vector and cause that comes without translation, beside what doesn't trap.
#[rattlefmt::skip]
static ROWS: [Row; 53] = [
    Row(&[0x0000_0000], Some((0, 0, Vector::Program)), [0, 0x9000_0000_0008_1001, 0], &[]), // .long 0
    Row(&[0x3860_0005, 0x0000_0000], Some((1, 4, Vector::Program)), [4, 0x9000_0000_0008_1001, 0], &[(3, 5)]), // li r3,5; .long 0
    Row(&[0x3860_0005, 0x4800_0000], None, [0, 0, 0], &[(3, 5)]), // li r3,5; b .
    Row(&[0x6000_0000, 0x4c00_0420], Some((1, 4, Vector::Program)), [4, 0x9000_0000_0008_1001, 0], &[]), // nop; .long 0x4c000420
    Row(&[0x6000_0000, 0x4c00_fffe], Some((1, 4, Vector::Program)), [4, 0x9000_0000_0008_1001, 0], &[]), // nop; .long 0x4c00fffe
    Row(&[0x6000_0000, 0xc820_0000], Some((1, 4, Vector::FpUnavailable)), [4, 0x9000_0000_0000_1001, 0], &[]), // nop; .long 0xc8200000
    Row(&[0x6000_0000, 0x7c00_06ae], Some((1, 4, Vector::FpUnavailable)), [4, 0x9000_0000_0000_1001, 0], &[]), // nop; .long 0x7c0006ae
    Row(&[0x6000_0000, 0x1000_0000], Some((1, 4, Vector::VectorUnavailable)), [4, 0x9000_0000_0000_1001, 0], &[]), // nop; .long 0x10000000
    Row(&[0x6000_0000, 0x1064_29b3, 0x4800_0000], None, [0, 0, 0], &[]), // nop; maddld r3,r4,r5,r6; b .
    Row(&[0x6000_0000, 0x1900_0000], Some((1, 4, Vector::VsxUnavailable)), [4, 0x9000_0000_0000_1001, 0], &[]), // nop; .long 0x19000000
    Row(&[0x6000_0000, 0x0600_0000, 0xc003_0000], Some((1, 4, Vector::FpUnavailable)), [4, 0x9000_0000_2000_1001, 0], &[]), // nop; .long 0x06000000; .long 0xc0030000
    Row(&[0x6000_0000, 0x0400_0000, 0xc003_0000], Some((1, 4, Vector::Program)), [4, 0x9000_0000_2008_1001, 0], &[]), // nop; .long 0x04000000; .long 0xc0030000
    Row(&[0x6000_0000, 0x0700_0001, 0x6000_0000], Some((1, 4, Vector::Program)), [4, 0x9000_0000_2008_1001, 0], &[]), // nop; .long 0x07000001; .long 0x60000000
    Row(&[0x6000_0000, 0x0700_0000, 0x0000_0000, 0x4800_0000], None, [0, 0, 0], &[]), // nop; .long 0x07000000; .long 0x00000000; b .
    Row(&[0x6000_0000, 0x6000_0000, 0x6000_0000, 0x6000_0000, 0x6000_0000, 0x6000_0000, 0x6000_0000, 0x6000_0000, 0x6000_0000, 0x6000_0000, 0x6000_0000, 0x6000_0000, 0x6000_0000, 0x6000_0000, 0x6000_0000, 0x0600_0000, 0x3860_0005], Some((15, 0x3c, Vector::Alignment)), [0x3c, 0x9000_0000_3000_1001, 0], &[]), // 15 times nop; .long 0x06000000; .long 0x38600005
    Row(&[0x6000_0000, 0x6000_0000, 0x6000_0000, 0x6000_0000, 0x6000_0000, 0x6000_0000, 0x6000_0000, 0x6000_0000, 0x6000_0000, 0x6000_0000, 0x6000_0000, 0x6000_0000, 0x6000_0000, 0x6000_0000, 0x6000_0000, 0x0500_0000, 0x3860_0005], Some((15, 0x3c, Vector::Alignment)), [0x3c, 0x9000_0000_3000_1001, 0], &[]), // 15 times nop; .long 0x05000000; .long 0x38600005
    Row(&[0x6000_0000, 0x6000_0000, 0x6000_0000, 0x6000_0000, 0x6000_0000, 0x6000_0000, 0x6000_0000, 0x6000_0000, 0x6000_0000, 0x6000_0000, 0x6000_0000, 0x6000_0000, 0x6000_0000, 0x6000_0000, 0x0600_0000, 0x3860_0005, 0x4800_0000], None, [0, 0, 0], &[(3, 5)]), // 14 times nop; .long 0x06000000; .long 0x38600005; b .
    Row(&[0x3860_0004, 0x0fe3_0000], Some((1, 4, Vector::Program)), [4, 0x9000_0000_0002_1001, 0], &[]), // li r3,4; twi 31,r3,0
    Row(&[0x3860_0004, 0x0c83_0005, 0x4800_0000], None, [0, 0, 0], &[]), // li r3,4; twi 4,r3,5; b .
    Row(&[0x3860_0004, 0x7c83_1888], Some((1, 4, Vector::Program)), [4, 0x9000_0000_0002_1001, 0], &[]), // li r3,4; td 4,r3,r3
    Row(&[0x3860_0001, 0x4400_0002], Some((1, 4, Vector::SystemCall)), [8, 0x9000_0000_0000_1001, 0], &[]), // li r3,1; sc
    Row(&[0x3860_0001, 0x4400_0003], Some((1, 4, Vector::SystemCall)), [8, 0x9000_0000_0000_1001, 0], &[]), // li r3,1; .long 0x44000003
    Row(&[0x3860_0001, 0x4400_0e02], Some((1, 4, Vector::SystemCall)), [8, 0x9000_0000_0000_1001, 0], &[]), // li r3,1; .long 0x44000e02
    Row(&[0x3860_0001, 0x4400_0001], Some((1, 4, Vector::Program)), [4, 0x9000_0000_0008_1001, 0], &[]), // li r3,1; .long 0x44000001
    Row(&[0x3860_0123, 0xba83_0010], Some((1, 4, Vector::Alignment)), [4, 0x9000_0000_0000_1001, 0x133], &[]), // li r3,0x123; lmw r20,16(r3)
    Row(&[0x3860_0123, 0xbe83_fff0], Some((1, 4, Vector::Alignment)), [4, 0x9000_0000_0000_1001, 0x113], &[]), // li r3,0x123; stmw r20,-16(r3)
    Row(&[0x6000_0000, 0xba80_0010], Some((1, 4, Vector::Alignment)), [4, 0x9000_0000_0000_1001, 0x10], &[]), // nop; .long 0xba800010
    Row(&[0x3880_fffd, 0x7ca0_242a], Some((1, 4, Vector::Alignment)), [4, 0x9000_0000_0000_1001, 0xffff_ffff_ffff_fffd], &[]), // li r4,-3; .long 0x7ca0242a
    Row(&[0x3860_0100, 0x3880_fffd, 0x7ca3_242a], Some((2, 8, Vector::Alignment)), [8, 0x9000_0000_0000_1001, 0xfd], &[]), // li r3,0x100; li r4,-3; .long 0x7ca3242a
    Row(&[0x3860_0100, 0x3880_0005, 0x7ca3_252a], Some((2, 8, Vector::Alignment)), [8, 0x9000_0000_0000_1001, 0x105], &[]), // li r3,0x100; li r4,5; .long 0x7ca3252a
    Row(&[0x3860_0100, 0x7ca3_24aa], Some((1, 4, Vector::Alignment)), [4, 0x9000_0000_0000_1001, 0x100], &[]), // li r3,0x100; .long 0x7ca324aa
    Row(&[0x3860_0104, 0x7ca3_25aa], Some((1, 4, Vector::Alignment)), [4, 0x9000_0000_0000_1001, 0x104], &[]), // li r3,0x104; .long 0x7ca325aa
    Row(&[0x3860_0101, 0x7c80_1828], Some((1, 4, Vector::Alignment)), [4, 0x9000_0000_0000_1001, 0x101], &[]), // li r3,0x101; lwarx r4,r0,r3
    Row(&[0x3860_0104, 0x7c80_1828, 0x4800_0000], None, [0, 0, 0], &[(4, 0)]), // li r3,0x104; lwarx r4,r0,r3; b .
    Row(&[0x3860_0101, 0x7c80_1868, 0x4800_0000], None, [0, 0, 0], &[]), // li r3,0x101; lbarx r4,r0,r3; b .
    Row(&[0x3860_0104, 0x7c80_18a8], Some((1, 4, Vector::Alignment)), [4, 0x9000_0000_0000_1001, 0x104], &[]), // li r3,0x104; ldarx r4,r0,r3
    Row(&[0x3860_0102, 0x7c60_192d], Some((1, 4, Vector::Alignment)), [4, 0x9000_0000_0000_1001, 0x102], &[]), // li r3,0x102; stwcx. r3,r0,r3
    Row(&[0x3860_0101, 0x8083_0000, 0x4800_0000], None, [0, 0, 0], &[]), // li r3,0x101; lwz r4,0(r3); b .
    Row(&[0x3c60_0100, 0x6063_0044, 0x7c00_1fec], Some((2, 8, Vector::Alignment)), [8, 0x9000_0000_0000_1001, 0x100_0044], &[]), // lis r3,0x100; ori r3,r3,0x44; dcbz r0,r3
    Row(&[0x3c60_00ff, 0x6063_ffff, 0x7c00_1fec, 0x4800_0000], None, [0, 0, 0], &[]), // lis r3,0xff; ori r3,r3,0xffff; dcbz r0,r3; b .
    Row(&[0x3c60_0100, 0x0603_ffff, 0xa083_ffff], Some((1, 4, Vector::Alignment)), [4, 0x9000_0000_2000_1001, 0xff_ffff], &[]), // lis r3,0x100; .long 0x0603ffff; .long 0xa083ffff
    Row(&[0x3c60_0100, 0x0603_ffff, 0xa083_fffe, 0x4800_0000], None, [0, 0, 0], &[(4, 0)]), // lis r3,0x100; .long 0x0603ffff; .long 0xa083fffe; b .
    Row(&[0x3c60_0100, 0x8483_fffe], Some((1, 4, Vector::Alignment)), [4, 0x9000_0000_0000_1001, 0xff_fffe], &[(3, 0x100_0000), (4, 0)]), // lis r3,0x100; lwzu r4,-2(r3)
    Row(&[0x3c60_0100, 0x8483_fffc, 0x4800_0000], None, [0, 0, 0], &[(3, 0xff_fffc), (4, 0)]), // lis r3,0x100; lwzu r4,-4(r3); b .
    Row(&[0x3c60_0100, 0x8083_0004, 0x4800_0000], None, [0, 0, 0], &[(4, 0xffff_ffff)]), // lis r3,0x100; lwz r4,4(r3); b .
    Row(&[0x3c60_0100, 0x7c80_1828], Some((1, 4, Vector::Alignment)), [4, 0x9000_0000_0000_1001, 0x100_0000], &[]), // lis r3,0x100; lwarx r4,r0,r3
    Row(&[0x3c60_0100, 0x7c00_1fac, 0x4800_0000], None, [0, 0, 0], &[]), // lis r3,0x100; icbi r0,r3; b .
    Row(&[0x3860_0000, 0x6463_c000, 0x6063_2001, 0xb063_0000], Some((3, 0xc, Vector::Alignment)), [0xc, 0x9000_0000_0000_1001, 0xc000_2001], &[]), // li r3,0; oris r3,r3,0xc000; ori r3,r3,0x2001; sth r3,0(r3)
    Row(&[0x3860_0000, 0x6463_c000, 0x6063_2002, 0xb063_0000, 0x4800_0000], None, [0, 0, 0], &[]), // li r3,0; oris r3,r3,0xc000; ori r3,r3,0x2002; sth r3,0(r3); b .
    Row(&[0x3860_0000, 0x6463_c000, 0x6063_4000, 0xba83_0000], Some((3, 0xc, Vector::Alignment)), [0xc, 0x9000_0000_0000_1001, 0xc000_4000], &[]), // li r3,0; oris r3,r3,0xc000; ori r3,r3,0x4000; lmw r20,0(r3)
    Row(&[0x3860_0000, 0x6463_c000, 0x6063_4002, 0x8083_0000], Some((3, 0xc, Vector::Alignment)), [0xc, 0x9000_0000_0000_1001, 0xc000_4002], &[(4, 0)]), // li r3,0; oris r3,r3,0xc000; ori r3,r3,0x4002; lwz r4,0(r3)
    Row(&[0x3860_0000, 0x6463_c000, 0x6063_4001, 0x7c80_1828], Some((3, 0xc, Vector::Alignment)), [0xc, 0x9000_0000_0000_1001, 0xc000_4001], &[(4, 0)]), // li r3,0; oris r3,r3,0xc000; ori r3,r3,0x4001; lwarx r4,r0,r3
    Row(&[0x3860_0000, 0x6463_c000, 0x6063_4004, 0x7c00_1fac, 0x4800_0000], None, [0, 0, 0], &[]), // li r3,0; oris r3,r3,0xc000; ori r3,r3,0x4004; icbi r0,r3; b .
];

/// The bytes of words from address 0 on, zeros behind them, and `b .` at each handler's address.
fn image_of(alloc: Global, words: &[u32]) -> Result<Vec<u8>, NoMemory> {
    let mut image = Vec::new(alloc);
    for word in words {
        image.extend_from_slice(&word.to_le_bytes())?;
    }
    for address in HANDLERS {
        image.resize(address, 0)?;
        image.extend_from_slice(&0x4800_0000u32.to_le_bytes())?;
    }
    Ok(image)
}

/// The traps among events, the first of them with its cycle, address and vector.
fn traps_of(events: &[Event]) -> (usize, Option<(u64, u64, Vector)>) {
    let mut count = 0usize;
    let mut first = None;
    for event in events {
        if let Event::Trap { cycle, cia, vector } = event {
            if first.is_none() {
                first = Some((*cycle, *cia, *vector));
            }
            count = count.wrapping_add(1);
        }
    }
    (count, first)
}

/// Whether the registers behind a run are these.
fn has_registers(run: &Run, [srr0, srr1, dar]: [u64; 3], contents: &[(usize, u64)]) -> bool {
    let regs = &run.state.regs;
    let mut same = regs.srr0 == srr0
        && regs.srr1 == srr1
        && regs.dar == dar
        && regs.dsisr == 0
        && regs.msr == 0x9000_0000_0000_1001;
    for (number, content) in contents {
        same = same && *number < 32 && regs.gpr[*number] == *content;
    }
    same
}

/// Whether a run has this trap alone and ends at its vector, or has none.
fn has_trap(run: &Run, trap: Option<(u64, u64, Vector)>) -> bool {
    let (count, first) = traps_of(run.events.as_slice());
    match trap {
        None => count == 0,
        Some((_, _, vector)) => {
            count == 1 && first == trap && run.state.regs.cia == vector.address()
        }
    }
}

#[test]
fn instructions_trap_where_they_should(rt: HostRuntime) -> Result<(), Fail> {
    let alloc = rt.alloc();
    for Row(words, trap, saved, contents) in &ROWS {
        let image = image_of(alloc, *words)?;
        match simulate(alloc, image.as_slice(), &Script::new(alloc), 40) {
            Ok(run) => {
                assert_eq!(rt; run.end, End::Ran { cycle: 40 }, "{words:?}");
                assert!(rt; has_trap(&run, *trap), "{words:?}");
                assert!(rt; has_registers(&run, *saved, *contents), "{words:?}");
            }
            Err(fault) => panic!(rt; "{fault:?} at {words:?}"),
        }
    }
    Ok(())
}

// li r3,0x101; lwarx r4,r0,r3; .org 0x600; b 0xc3c; .org 0xc3c; .long 0x06000000
#[test]
fn a_cut_prefix_leaves_dar(rt: HostRuntime) -> Result<(), Fail> {
    let alloc = rt.alloc();
    let mut image = image_of(alloc, &[0x3860_0101, 0x7c80_1828])?;
    image.resize(0xf80, 0)?;
    let bytes = image.as_mut_slice();
    if bytes.len() != 0xf80 {
        panic!(rt; "the image has another length");
    }
    bytes[0x600..0x604].copy_from_slice(&0x4800_063cu32.to_le_bytes());
    bytes[0xc3c..0xc40].copy_from_slice(&0x0600_0000u32.to_le_bytes());
    match simulate(alloc, image.as_slice(), &Script::new(alloc), 4) {
        Ok(run) => {
            let regs = &run.state.regs;
            assert_eq!(rt; [regs.srr0, regs.dar, regs.cia], [0xc3c, 0x101, 0x600]);
            assert_eq!(rt; traps_of(run.events.as_slice()).0, 2);
        }
        Err(fault) => panic!(rt; "{fault:?}"),
    }
    Ok(())
}
