ghost use Rattle.std.specs.Prelude.{◌<◌, ◌^◌};

use mw_board::{Run, simulate};
use mw_isa::{End, Event, Vector};
use mw_uart::Script;
use std::alloc::{AllocError as NoMemory, Global};
use std::test::Fail;

/// What one row does to the registers and to the eight bytes that it accesses.
struct Row {
    word: u32,
    loaded: u64,
    base: u64,
    stored: u64,
    reserve: Option<u32>,
}

/// addi r3,0,512; addi r4,0,8; ld r5,256(0)
const BEFORE: [u32; 3] = [0x3860_0200, 0x3880_0008, 0xe8a0_0100];

/// The doubleword at 256, which is stored.
const SOURCE: u64 = 0x8182_8384_8586_8788;

/// The doubleword at 264, where the interrupt controller stands.
const CONTROLLER: u64 = 0xC000_4000;

/// The doubleword at 520, which is loaded from and stored to.
const DATA: u64 = 0x9897_9695_9493_9291;

/// Each row of the storage section, at 8(r3) or at r3 and r4; loads go to r6, r5 is stored. The values
/// are worked out from the rows' meanings.
#[rattlefmt::skip]
static ROWS: [Row; 67] = [
    Row { word: 0x80c3_0008, loaded: 0x9493_9291, base: 0x200, stored: 0x9897_9695_9493_9291, reserve: None }, // lwz
    Row { word: 0x84c3_0008, loaded: 0x9493_9291, base: 0x208, stored: 0x9897_9695_9493_9291, reserve: None }, // lwzu
    Row { word: 0x88c3_0008, loaded: 0x91, base: 0x200, stored: 0x9897_9695_9493_9291, reserve: None }, // lbz
    Row { word: 0x8cc3_0008, loaded: 0x91, base: 0x208, stored: 0x9897_9695_9493_9291, reserve: None }, // lbzu
    Row { word: 0x90a3_0008, loaded: 0x0, base: 0x200, stored: 0x9897_9695_8586_8788, reserve: None }, // stw
    Row { word: 0x94a3_0008, loaded: 0x0, base: 0x208, stored: 0x9897_9695_8586_8788, reserve: None }, // stwu
    Row { word: 0x98a3_0008, loaded: 0x0, base: 0x200, stored: 0x9897_9695_9493_9288, reserve: None }, // stb
    Row { word: 0x9ca3_0008, loaded: 0x0, base: 0x208, stored: 0x9897_9695_9493_9288, reserve: None }, // stbu
    Row { word: 0xa0c3_0008, loaded: 0x9291, base: 0x200, stored: 0x9897_9695_9493_9291, reserve: None }, // lhz
    Row { word: 0xa4c3_0008, loaded: 0x9291, base: 0x208, stored: 0x9897_9695_9493_9291, reserve: None }, // lhzu
    Row { word: 0xa8c3_0008, loaded: 0xffff_ffff_ffff_9291, base: 0x200, stored: 0x9897_9695_9493_9291, reserve: None }, // lha
    Row { word: 0xacc3_0008, loaded: 0xffff_ffff_ffff_9291, base: 0x208, stored: 0x9897_9695_9493_9291, reserve: None }, // lhau
    Row { word: 0xb0a3_0008, loaded: 0x0, base: 0x200, stored: 0x9897_9695_9493_8788, reserve: None }, // sth
    Row { word: 0xb4a3_0008, loaded: 0x0, base: 0x208, stored: 0x9897_9695_9493_8788, reserve: None }, // sthu
    Row { word: 0xe8c3_0008, loaded: 0x9897_9695_9493_9291, base: 0x200, stored: 0x9897_9695_9493_9291, reserve: None }, // ld
    Row { word: 0xe8c3_0009, loaded: 0x9897_9695_9493_9291, base: 0x208, stored: 0x9897_9695_9493_9291, reserve: None }, // ldu
    Row { word: 0xe8c3_000a, loaded: 0xffff_ffff_9493_9291, base: 0x200, stored: 0x9897_9695_9493_9291, reserve: None }, // lwa
    Row { word: 0xf8a3_0008, loaded: 0x0, base: 0x200, stored: 0x8182_8384_8586_8788, reserve: None }, // std
    Row { word: 0xf8a3_0009, loaded: 0x0, base: 0x208, stored: 0x8182_8384_8586_8788, reserve: None }, // stdu
    Row { word: 0x7cc3_202a, loaded: 0x9897_9695_9493_9291, base: 0x200, stored: 0x9897_9695_9493_9291, reserve: None }, // ldx
    Row { word: 0x7cc3_202e, loaded: 0x9493_9291, base: 0x200, stored: 0x9897_9695_9493_9291, reserve: None }, // lwzx
    Row { word: 0x7cc3_206a, loaded: 0x9897_9695_9493_9291, base: 0x208, stored: 0x9897_9695_9493_9291, reserve: None }, // ldux
    Row { word: 0x7cc3_206e, loaded: 0x9493_9291, base: 0x208, stored: 0x9897_9695_9493_9291, reserve: None }, // lwzux
    Row { word: 0x7cc3_20ae, loaded: 0x91, base: 0x200, stored: 0x9897_9695_9493_9291, reserve: None }, // lbzx
    Row { word: 0x7cc3_20ee, loaded: 0x91, base: 0x208, stored: 0x9897_9695_9493_9291, reserve: None }, // lbzux
    Row { word: 0x7cc3_222e, loaded: 0x9291, base: 0x200, stored: 0x9897_9695_9493_9291, reserve: None }, // lhzx
    Row { word: 0x7cc3_226e, loaded: 0x9291, base: 0x208, stored: 0x9897_9695_9493_9291, reserve: None }, // lhzux
    Row { word: 0x7cc3_22aa, loaded: 0xffff_ffff_9493_9291, base: 0x200, stored: 0x9897_9695_9493_9291, reserve: None }, // lwax
    Row { word: 0x7cc3_22ae, loaded: 0xffff_ffff_ffff_9291, base: 0x200, stored: 0x9897_9695_9493_9291, reserve: None }, // lhax
    Row { word: 0x7cc3_22ea, loaded: 0xffff_ffff_9493_9291, base: 0x208, stored: 0x9897_9695_9493_9291, reserve: None }, // lwaux
    Row { word: 0x7cc3_22ee, loaded: 0xffff_ffff_ffff_9291, base: 0x208, stored: 0x9897_9695_9493_9291, reserve: None }, // lhaux
    Row { word: 0x7cc3_2428, loaded: 0x9192_9394_9596_9798, base: 0x200, stored: 0x9897_9695_9493_9291, reserve: None }, // ldbrx
    Row { word: 0x7cc3_242c, loaded: 0x9192_9394, base: 0x200, stored: 0x9897_9695_9493_9291, reserve: None }, // lwbrx
    Row { word: 0x7cc3_262c, loaded: 0x9192, base: 0x200, stored: 0x9897_9695_9493_9291, reserve: None }, // lhbrx
    Row { word: 0x7ca3_212a, loaded: 0x0, base: 0x200, stored: 0x8182_8384_8586_8788, reserve: None }, // stdx
    Row { word: 0x7ca3_212e, loaded: 0x0, base: 0x200, stored: 0x9897_9695_8586_8788, reserve: None }, // stwx
    Row { word: 0x7ca3_216a, loaded: 0x0, base: 0x208, stored: 0x8182_8384_8586_8788, reserve: None }, // stdux
    Row { word: 0x7ca3_216e, loaded: 0x0, base: 0x208, stored: 0x9897_9695_8586_8788, reserve: None }, // stwux
    Row { word: 0x7ca3_21ae, loaded: 0x0, base: 0x200, stored: 0x9897_9695_9493_9288, reserve: None }, // stbx
    Row { word: 0x7ca3_21ee, loaded: 0x0, base: 0x208, stored: 0x9897_9695_9493_9288, reserve: None }, // stbux
    Row { word: 0x7ca3_232e, loaded: 0x0, base: 0x200, stored: 0x9897_9695_9493_8788, reserve: None }, // sthx
    Row { word: 0x7ca3_236e, loaded: 0x0, base: 0x208, stored: 0x9897_9695_9493_8788, reserve: None }, // sthux
    Row { word: 0x7ca3_2528, loaded: 0x0, base: 0x200, stored: 0x8887_8685_8483_8281, reserve: None }, // stdbrx
    Row { word: 0x7ca3_252c, loaded: 0x0, base: 0x200, stored: 0x9897_9695_8887_8685, reserve: None }, // stwbrx
    Row { word: 0x7ca3_272c, loaded: 0x0, base: 0x200, stored: 0x9897_9695_9493_8887, reserve: None }, // sthbrx
    Row { word: 0x7cc3_2028, loaded: 0x9493_9291, base: 0x200, stored: 0x9897_9695_9493_9291, reserve: Some(8) }, // lwarx
    Row { word: 0x7cc3_2068, loaded: 0x91, base: 0x200, stored: 0x9897_9695_9493_9291, reserve: Some(8) }, // lbarx
    Row { word: 0x7cc3_20a8, loaded: 0x9897_9695_9493_9291, base: 0x200, stored: 0x9897_9695_9493_9291, reserve: Some(8) }, // ldarx
    Row { word: 0x7cc3_20e8, loaded: 0x9291, base: 0x200, stored: 0x9897_9695_9493_9291, reserve: Some(8) }, // lharx
    Row { word: 0x7ca3_212d, loaded: 0x0, base: 0x200, stored: 0x9897_9695_9493_9291, reserve: None }, // stwcx.
    Row { word: 0x7ca3_21ad, loaded: 0x0, base: 0x200, stored: 0x9897_9695_9493_9291, reserve: None }, // stdcx.
    Row { word: 0x7ca3_256d, loaded: 0x0, base: 0x200, stored: 0x9897_9695_9493_9291, reserve: None }, // stbcx.
    Row { word: 0x7ca3_25ad, loaded: 0x0, base: 0x200, stored: 0x9897_9695_9493_9291, reserve: None }, // sthcx.
    Row { word: 0x7cc3_262a, loaded: 0x9493_9291, base: 0x200, stored: 0x9897_9695_9493_9291, reserve: None }, // lwzcix
    Row { word: 0x7cc3_266a, loaded: 0x9291, base: 0x200, stored: 0x9897_9695_9493_9291, reserve: None }, // lhzcix
    Row { word: 0x7cc3_26aa, loaded: 0x91, base: 0x200, stored: 0x9897_9695_9493_9291, reserve: None }, // lbzcix
    Row { word: 0x7cc3_26ea, loaded: 0x9897_9695_9493_9291, base: 0x200, stored: 0x9897_9695_9493_9291, reserve: None }, // ldcix
    Row { word: 0x7ca3_272a, loaded: 0x0, base: 0x200, stored: 0x9897_9695_8586_8788, reserve: None }, // stwcix
    Row { word: 0x7ca3_276a, loaded: 0x0, base: 0x200, stored: 0x9897_9695_9493_8788, reserve: None }, // sthcix
    Row { word: 0x7ca3_27aa, loaded: 0x0, base: 0x200, stored: 0x9897_9695_9493_9288, reserve: None }, // stbcix
    Row { word: 0x7ca3_27ea, loaded: 0x0, base: 0x200, stored: 0x8182_8384_8586_8788, reserve: None }, // stdcix
    Row { word: 0x7c03_206c, loaded: 0x0, base: 0x200, stored: 0x9897_9695_9493_9291, reserve: None }, // dcbst
    Row { word: 0x7c03_20ac, loaded: 0x0, base: 0x200, stored: 0x9897_9695_9493_9291, reserve: None }, // dcbf
    Row { word: 0x7c03_21ec, loaded: 0x0, base: 0x200, stored: 0x9897_9695_9493_9291, reserve: None }, // dcbtst
    Row { word: 0x7c03_222c, loaded: 0x0, base: 0x200, stored: 0x9897_9695_9493_9291, reserve: None }, // dcbt
    Row { word: 0x7c03_27ac, loaded: 0x0, base: 0x200, stored: 0x9897_9695_9493_9291, reserve: None }, // icbi
    Row { word: 0x7c03_27ec, loaded: 0x0, base: 0x200, stored: 0x0000_0000_0000_0000, reserve: None }, // dcbz
];

/// An image of words with the two doublewords behind them.
fn image_of(alloc: Global, words: &[u32]) -> Result<Vec<u8>, NoMemory> {
    let mut image = Vec::new(alloc);
    for word in words {
        image.extend_from_slice(&word.to_le_bytes())?;
    }
    image.resize(256, 0)?;
    image.extend_from_slice(&SOURCE.to_le_bytes())?;
    image.extend_from_slice(&CONTROLLER.to_le_bytes())?;
    image.resize(520, 0)?;
    image.extend_from_slice(&DATA.to_le_bytes())?;
    image.resize(4096, 0)?;
    Ok(image)
}

/// The eight bytes of RAM from an address on, the first one the least.
fn doubleword(run: &Run, at: u64) -> u64
    requires { at < 2 ^ 60 }
{
    u64::from_le_bytes(run.state.ram.read(at, 8))
}

#[test]
fn each_row_of_storage_runs(rt: HostRuntime) -> Result<(), Fail> {
    let alloc = rt.alloc();
    for row in &ROWS {
        let [first, second, third] = BEFORE;
        let image = image_of(alloc, &[first, second, third, row.word, 0x4800_0000])?;
        match simulate(alloc, image.as_slice(), &Script::new(alloc), 6) {
            Ok(run) => {
                let word = row.word;
                assert_eq!(rt; run.end, End::Ran { cycle: 6 }, "{word:08x}");
                let regs = &run.state.regs;
                assert_eq!(rt; regs.gpr[6], row.loaded, "r6 of {word:08x}");
                assert_eq!(rt; regs.gpr[3], row.base, "r3 of {word:08x}");
                assert_eq!(rt; regs.gpr[5], SOURCE, "r5 of {word:08x}");
                assert_eq!(rt; doubleword(&run, 520), row.stored, "RAM of {word:08x}");
                assert_eq!(rt; doubleword(&run, 528), 0, "RAM behind it of {word:08x}");
                assert_eq!(rt; regs.reserve, row.reserve, "the reservation of {word:08x}");
                assert_eq!(rt; [regs.cr, 16], [0, 16], "CR of {word:08x}");
                assert_eq!(rt; regs.cia, 16, "CIA of {word:08x}");
            }
            Err(fault) => panic!(rt; "{fault:?} at {:08x}", row.word),
        }
    }
    Ok(())
}

/// The words of an image, a number of cycles, CR, the content of r6, and a doubleword of RAM.
struct Program(&'static [u32], u64, u32, u64, u64, u64);

#[rattlefmt::skip]
static PROGRAMS: [Program; 16] = [
    // addi r5,0,7; addi r3,0,4096; ldarx r4,0,r3; std r3,8(r3); stdcx. r5,0,r3: the plain store leaves the reservation
    Program(&[0x38a0_0007, 0x3860_1000, 0x7c80_18a8, 0xf863_0008, 0x7ca0_19ad], 5, 0x2000_0000, 0, 4096, 7),
    // ldarx r4,0,r3; std r3,8(r3); stdcx. r5,0,r3; addi r8,0,9; stdcx. r8,0,r3: the first store-conditional ended the reservation
    Program(&[0x38a0_0007, 0x3860_1000, 0x7c80_18a8, 0xf863_0008, 0x7ca0_19ad, 0x3900_0009, 0x7d00_19ad], 7, 0, 0, 4096, 7),
    // ldarx r4,0,r3; std r3,8(r3); stdcx. r5,0,r3: the doubleword that the plain store wrote
    Program(&[0x38a0_0007, 0x3860_1000, 0x7c80_18a8, 0xf863_0008, 0x7ca0_19ad], 5, 0x2000_0000, 0, 4104, 4096),
    // ldarx, and stbcx. of the same block, 63 bytes on
    Program(&[0x38a0_0007, 0x3860_1000, 0x7c80_18a8, 0x3860_103f, 0x7ca0_1d6d], 5, 0x2000_0000, 0, 4152, 0x0700_0000_0000_0000),
    // ldarx, and stbcx. of the next block: nothing is stored, and the reservation ends
    Program(&[0x38a0_0007, 0x3860_1000, 0x7c80_18a8, 0x3860_1040, 0x7ca0_1d6d], 5, 0, 0, 4160, 0),
    // ldarx, and stbcx. of the next block, and addi r3,0,4096; stdcx. r5,0,r3, which finds no reservation
    Program(&[0x38a0_0007, 0x3860_1000, 0x7c80_18a8, 0x3860_1040, 0x7ca0_1d6d, 0x3860_1000, 0x7ca0_19ad], 7, 0, 0, 4096, 0),
    // addi r5,0,-2; addi r3,0,520; lwarx r6,0,r3; stwcx. r5,0,r3
    Program(&[0x38a0_fffe, 0x3860_0208, 0x7cc0_1828, 0x7ca0_192d], 4, 0x2000_0000, 0x9493_9291, 520, 0x9897_9695_ffff_fffe),
    // addi r5,0,-2; addi r3,0,520; lharx r6,0,r3; sthcx. r5,0,r3
    Program(&[0x38a0_fffe, 0x3860_0208, 0x7cc0_18e8, 0x7ca0_1dad], 4, 0x2000_0000, 0x9291, 520, 0x9897_9695_9493_fffe),
    // addi r0,0,64; lwz r6,520(0): RA=0 stands for zero
    Program(&[0x3800_0040, 0x80c0_0208], 2, 0, 0x9493_9291, 520, DATA),
    // addi r0,0,64; addi r3,0,520; ldx r6,0,r3: RA=0 stands for zero
    Program(&[0x3800_0040, 0x3860_0208, 0x7cc0_182a], 3, 0, DATA, 520, DATA),
    // addi r0,0,8; addi r3,0,512; lwzx r6,r3,r0: RB=0 is register 0
    Program(&[0x3800_0008, 0x3860_0200, 0x7cc3_002e], 3, 0, 0x9493_9291, 520, DATA),
    // addi r4,0,5; sth r4,520(0); lha r6,520(0): a positive number
    Program(&[0x3880_0005, 0xb080_0208, 0xa8c0_0208], 3, 0, 5, 520, 0x9897_9695_9493_0005),
    // addis r3,0,256; stwu r3,8(r3), whose word vanishes; addi r6,r3,0
    Program(&[0x3c60_0100, 0x9463_0008, 0x38c3_0000], 3, 0, 0x0100_0008, 520, DATA),
    // addi r3,0,545; dcbz 0,r3: the block of 512, whose ninth byte the data is
    Program(&[0x3860_0221, 0x7c00_1fec], 2, 0, 0, 520, 0),
    // addi r3,0,256; addi r4,0,-1; std r4,4(r3) across two stretches; lwz r6,8(r3)
    Program(&[0x3860_0100, 0x3880_ffff, 0xf883_0004, 0x80c3_0008], 4, 0, 0xffff_ffff, 256, 0xffff_ffff_8586_8788),
    // addis r3,0,256; stw r3,0(r3), which vanishes; lwz r6,0(r3), all ones where RAM isn't
    Program(&[0x3c60_0100, 0x9063_0000, 0x80c3_0000], 3, 0, 0xffff_ffff, 520, DATA),
];

#[test]
fn programs_of_accesses(rt: HostRuntime) -> Result<(), Fail> {
    let alloc = rt.alloc();
    for Program(words, n, cr, content, at, want) in &PROGRAMS {
        assert!(rt; *n <= 9 && *at < 9999);
        let image = image_of(alloc, *words)?;
        match simulate(alloc, image.as_slice(), &Script::new(alloc), *n) {
            Ok(run) => {
                assert_eq!(rt; run.end, End::Ran { cycle: *n }, "{words:?}");
                assert_eq!(rt; run.state.regs.cr, *cr, "CR of {words:?}");
                assert_eq!(rt; run.state.regs.gpr[6], *content, "r6 of {words:?}");
                assert_eq!(rt; doubleword(&run, *at), *want, "{at} of {words:?}");
            }
            Err(fault) => panic!(rt; "{fault:?} at {words:?}"),
        }
    }
    Ok(())
}

/// What an access comes to.
#[derive(Clone, Copy, Debug, PartialEq, Eq)]
enum Fate {
    /// The access retires.
    Retires,
    /// The access raises an alignment interrupt.
    Traps,
    /// The run ended before the access.
    Stopped,
    /// There is no run of the image.
    Refused,
}

/// The words of an image: the first ones make an address, and the last one accesses it.
struct Access(&'static [u32], Fate);

#[rattlefmt::skip]
static ACCESSES: [Access; 32] = [
    // addi r3,0,258: lwarx r6,0,r3, and stwcx. r6,0,r3; lwz r6,0(r3)
    Access(&[0x3860_0102, 0x7cc0_1828], Fate::Traps),
    Access(&[0x3860_0102, 0x7cc0_192d], Fate::Traps),
    Access(&[0x3860_0102, 0x80c3_0000], Fate::Retires),
    // addis r3,0,256, the end of RAM: lwz at -2 and at 0, ld at -4 and at -8
    Access(&[0x3c60_0100, 0x80c3_fffe], Fate::Traps),
    Access(&[0x3c60_0100, 0x80c3_0000], Fate::Retires),
    Access(&[0x3c60_0100, 0xe8c3_fffc], Fate::Traps),
    Access(&[0x3c60_0100, 0xe8c3_fff8], Fate::Retires),
    // behind the end of RAM lwarx r6,0,r3, dcbz 0,r3, dcbst 0,r3
    Access(&[0x3c60_0100, 0x7cc0_1828], Fate::Traps),
    Access(&[0x3c60_0100, 0x7c00_1fec], Fate::Traps),
    Access(&[0x3c60_0100, 0x7c00_186c], Fate::Retires),
    // ld r3,264(0), real byte c0004000: icbi 0,r3, dcbst 0,r3, dcbf 0,r3, dcbt 0,r3, and dcbz 0,r3
    Access(&[0xe860_0108, 0x7c00_1fac], Fate::Retires),
    Access(&[0xe860_0108, 0x7c00_186c], Fate::Retires),
    Access(&[0xe860_0108, 0x7c00_18ac], Fate::Retires),
    Access(&[0xe860_0108, 0x7c00_1a2c], Fate::Retires),
    Access(&[0xe860_0108, 0x7c00_1fec], Fate::Traps),
    // in the controller's pages lwz at 0, stw at 0, lwz at 4096 and at 8188; ld at -8, just before them
    Access(&[0xe860_0108, 0x80c3_0000], Fate::Retires),
    Access(&[0xe860_0108, 0x90c3_0000], Fate::Retires),
    Access(&[0xe860_0108, 0x80c3_1000], Fate::Retires),
    Access(&[0xe860_0108, 0x80c3_1ffc], Fate::Retires),
    Access(&[0xe860_0108, 0xe8c3_fff8], Fate::Retires),
    // lwz around the controller's pages: at -4, at -1, which isn't aligned, and at 8192
    Access(&[0xe860_0108, 0x80c3_fffc], Fate::Retires),
    Access(&[0xe860_0108, 0x80c3_ffff], Fate::Traps),
    Access(&[0xe860_0108, 0x80c3_2000], Fate::Retires),
    // in the controller's pages lwz at 2, stw at 2, lhz at 1 and ld at 4, which aren't aligned; lbz at 1
    Access(&[0xe860_0108, 0x80c3_0002], Fate::Traps),
    Access(&[0xe860_0108, 0x90c3_0002], Fate::Traps),
    Access(&[0xe860_0108, 0xa0c3_0001], Fate::Traps),
    Access(&[0xe860_0108, 0xe8c3_0004], Fate::Traps),
    Access(&[0xe860_0108, 0x88c3_0001], Fate::Retires),
    // lwarx r6,0,r3, lbarx r6,0,r3 and stwcx. r6,0,r3 at c0004000
    Access(&[0xe860_0108, 0x7cc0_1828], Fate::Traps),
    Access(&[0xe860_0108, 0x7cc0_1868], Fate::Traps),
    Access(&[0xe860_0108, 0x7cc0_192d], Fate::Traps),
    // addis r3,0,-16384; ori r3,r3,16384; icbi 0,r3: real byte fffffffc0004000, far above
    Access(&[0x3c60_c000, 0x6063_4000, 0x7c00_1fac], Fate::Retires),
];

/// What the last of `n` instructions comes to.
fn fate_of(alloc: Global, image: &[u8], n: u64) -> Fate {
    if n > 9 {
        return Fate::Refused;
    }
    match simulate(alloc, image, &Script::new(alloc), n) {
        Ok(run) => {
            if run.end != (End::Ran { cycle: n }) {
                return Fate::Stopped;
            }
            match run.events.as_slice().last() {
                Some(
                    Event::Trap {
                        vector: Vector::Alignment,
                        ..
                    },
                ) => Fate::Traps,
                _ => Fate::Retires,
            }
        }
        Err(_) => Fate::Refused,
    }
}

#[test]
fn accesses_retire_or_trap(rt: HostRuntime) -> Result<(), Fail> {
    let alloc = rt.alloc();
    for Access(words, fate) in &ACCESSES {
        let image = image_of(alloc, *words)?;
        let n = words.len() as u64;
        assert_eq!(rt; fate_of(alloc, image.as_slice(), n), *fate, "{words:?}");
        assert_eq!(rt;
            fate_of(alloc, image.as_slice(), n.saturating_sub(1)),
            Fate::Retires,
            "{words:?}"
        );
    }
    Ok(())
}
