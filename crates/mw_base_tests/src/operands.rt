ghost use Rattle.std.specs.Prelude.{IsTrue};
ghost use Rattle.mw_tables.specs.Layouts.{is_readable};

use mw_tables::{Field, Layout, code_with, fields_of, flags_of, is_in_field, operand_in, row_at};
use std::process::Abort;

/// The code of an instruction, and the operand that it has in a field.
struct Case(u64, i64);

/// What is read is the operand, and what is written are the code's bits in the field.
fn reads(rt: &impl Abort, field: &Field, cases: &[Case])
    requires { IsTrue (is_readable field.now) }
{
    let mask = code_with(-1, field);
    for Case(code, operand) in cases {
        assert_eq!(rt; operand_in(*code, field), *operand, "{code:x}");
        assert_eq!(rt; code_with(*operand, field), *code & mask, "{code:x}");
    }
}

#[rattlefmt::skip]
static DX_D_CASES: [Case; 6] = [
    Case(0x4c60_0005, 1), // bit 31
    Case(0x4c61_0004, 2), // bit 15
    Case(0x4c60_0044, 64), // bit 25
    Case(0x4c7f_7fc5, 32767),
    Case(0x4c60_8004, -32768), // bit 16
    Case(0x4c7f_ffc5, -1),
];

#[rattlefmt::skip]
static SPR_CASES: [Case; 5] = [
    Case(0x7c01_02a6, 1), // mfxer r0
    Case(0x7c08_03a6, 8), // mtlr r0
    Case(0x7c00_0aa6, 32), // bit 20
    Case(0x7c6c_42a6, 268), // mfspr r3,268
    Case(0x7c7f_faa6, 1023),
];

#[rattlefmt::skip]
static SH_WIDE_CASES: [Case; 4] = [
    Case(0x7883_0800, 1), // rldicl r3,r4,1,0
    Case(0x7883_0002, 32), // bit 30
    Case(0x7883_0802, 33),
    Case(0x7883_f802, 63),
];

#[rattlefmt::skip]
static MASK_END_CASES: [Case; 4] = [
    Case(0x7883_0040, 1), // rldicl r3,r4,0,1
    Case(0x7883_0020, 32), // clrldi r3,r4,32: bit 26
    Case(0x7883_0060, 33),
    Case(0x7883_07e0, 63),
];

#[rattlefmt::skip]
static DS_CASES: [Case; 6] = [
    Case(0xe864_fff8, -8), // ld r3,-8(r4)
    Case(0xe864_0009, 8), // ldu r3,8(r4)
    Case(0xe864_000a, 8), // lwa r3,8(r4)
    Case(0xe864_7ffc, 32764),
    Case(0xe864_8000, -32768),
    Case(0xe864_0004, 4),
];

#[rattlefmt::skip]
static LI_CASES: [Case; 5] = [
    Case(0x4800_0004, 4), // b .+4
    Case(0x4bff_fffc, -4), // b .-4
    Case(0x4800_0001, 0), // bl .
    Case(0x49ff_fffc, 33_554_428),
    Case(0x4a00_0000, -33_554_432),
];

#[rattlefmt::skip]
static BD_CASES: [Case; 4] = [
    Case(0x4182_0008, 8), // beq .+8
    Case(0x4082_fff8, -8), // bne .-8
    Case(0x4200_7ffc, 32764),
    Case(0x4200_8001, -32768), // bdnzl
];

#[rattlefmt::skip]
static D_WIDE_CASES: [Case; 5] = [
    Case(0x0603_ffff_3860_ffff, -1), // pli r3,-1
    Case(0x0600_0001_3860_0000, 65536),
    Case(0x0600_0000_3860_8000, 32768), // bit 16 of the suffix is no sign
    Case(0x0601_ffff_3860_ffff, 8_589_934_591),
    Case(0x0602_0000_3860_0000, -8_589_934_592), // bit 14 of the prefix is
];

#[rattlefmt::skip]
static R_WIDE_CASES: [Case; 2] = [
    Case(0x0610_0000_3860_0000, 1), // bit 11 of the prefix
    Case(0x060f_ffff_387f_ffff, 0),
];

#[test]
fn operands_stand_in_their_bits(rt: HostRuntime) {
    // D of DX, SPR, SH and MB of MD, DS, LI, BD, D in 34 bits, R of the prefix
    reads(&rt, &fields_of(Layout::DxRtD)[1], &DX_D_CASES);
    reads(&rt, &fields_of(Layout::XfxRtSpr)[1], &SPR_CASES);
    reads(&rt, &fields_of(Layout::MdRaRsShMb)[2], &SH_WIDE_CASES);
    reads(&rt, &fields_of(Layout::MdRaRsShMb)[3], &MASK_END_CASES);
    reads(&rt, &fields_of(Layout::DsRtDRa)[1], &DS_CASES);
    reads(&rt, &fields_of(Layout::ITarget)[0], &LI_CASES);
    reads(&rt, &fields_of(Layout::BBoBiTarget)[2], &BD_CASES);
    reads(&rt, &fields_of(Layout::MlsRtRaSiR)[2], &D_WIDE_CASES);
    reads(&rt, &fields_of(Layout::MlsRtRaSiR)[3], &R_WIDE_CASES);
}

/// A field holds the operands inside, and not those outside.
fn holds(rt: &impl Abort, field: &Field, inside: &[i64], outside: &[i64])
    requires { IsTrue (is_readable field.now) }
{
    for operand in inside {
        assert!(rt; is_in_field(*operand, field), "{operand}");
    }
    for operand in outside {
        assert!(rt; !is_in_field(*operand, field), "{operand}");
    }
}

#[test]
fn ranges_end_where_they_should(rt: HostRuntime) {
    let b = row_at(17);
    let addi = row_at(0);
    assert!(rt; b.name == "b" && addi.name == "addi");
    // RT, LK of a row that has it and of one that doesn't, UI, SI, D of DX, DS, BD, LI, D in 34 bits
    holds(&rt, &fields_of(Layout::XRt)[0], &[0, 31], &[-1, 32]);
    holds(&rt, &flags_of(b)[3], &[0, 1], &[-1, 2]);
    holds(&rt, &flags_of(addi)[3], &[0], &[-1, 1]);
    holds(
        &rt,
        &fields_of(Layout::DRaRsUi)[2],
        &[0, 65535],
        &[-1, 65536],
    );
    holds(
        &rt,
        &fields_of(Layout::DRtRaSi)[2],
        &[-32768, 32767],
        &[-32769, 32768, i64::MIN, i64::MAX],
    );
    holds(
        &rt,
        &fields_of(Layout::DxRtD)[1],
        &[-32768, 32767],
        &[-32769, 32768],
    );
    holds(
        &rt,
        &fields_of(Layout::DsRtDRa)[1],
        &[-32768, 32764],
        &[-32772, 32768, -1, 1, 2, 3, 32767],
    );
    holds(
        &rt,
        &fields_of(Layout::BBoBiTarget)[2],
        &[-32768, 32764],
        &[-32772, 32768, 2],
    );
    holds(
        &rt,
        &fields_of(Layout::ITarget)[0],
        &[-33_554_432, 33_554_428],
        &[-33_554_436, 33_554_432, -2, 33_554_430],
    );
    holds(
        &rt,
        &fields_of(Layout::MlsRtRaSiR)[2],
        &[-8_589_934_592, 8_589_934_591],
        &[-8_589_934_593, 8_589_934_592],
    );
}
