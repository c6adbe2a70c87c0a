use mw_tables::{Layout, PrefixKind, Shape, by_name, layout_at, row_at, rows};

/// A row's name, its mask and its value.
struct Case(&'static str, u32, u32);

#[rattlefmt::skip]
static CASES: [Case; 27] = [
    Case("addi", 0xfc00_0000, 0x3800_0000), // D
    Case("rlwinm", 0xfc00_0000, 0x5400_0000), // M
    Case("b", 0xfc00_0000, 0x4800_0000), // I
    Case("addpcis", 0xfc00_003e, 0x4c00_0004), // DX
    Case("ld", 0xfc00_0003, 0xe800_0000), // DS
    Case("lwa", 0xfc00_0003, 0xe800_0002),
    Case("stdu", 0xfc00_0003, 0xf800_0001),
    Case("bclr", 0xfc00_07fe, 0x4c00_0020), // XL
    Case("rfid", 0xfc00_07fe, 0x4c00_0024),
    Case("and", 0xfc00_07fe, 0x7c00_0038), // X
    Case("modsd", 0xfc00_07fe, 0x7c00_0612),
    Case("stwcx.", 0xfc00_07ff, 0x7c00_012d),
    Case("add", 0xfc00_03fe, 0x7c00_0214), // XO
    Case("sradi", 0xfc00_07fc, 0x7c00_0674), // XS
    Case("isel", 0xfc00_003e, 0x7c00_001e), // A
    Case("addex", 0xfc00_01fe, 0x7c00_0154), // Z23
    Case("rldicl", 0xfc00_001c, 0x7800_0000), // MD
    Case("rldimi", 0xfc00_001c, 0x7800_000c),
    Case("rldcr", 0xfc00_001e, 0x7800_0012), // MDS
    Case("maddhd", 0xfc00_003f, 0x1000_0030), // VA
    Case("mfspr", 0xfc00_07fe, 0x7c00_02a6), // XFX
    Case("mfcr", 0xfc10_07fe, 0x7c00_0026),
    Case("mfocrf", 0xfc10_07fe, 0x7c10_0026),
    Case("mtocrf", 0xfc10_07fe, 0x7c10_0120),
    Case("sc", 0xfc00_0002, 0x4400_0002), // SC
    Case("plwa", 0xfc00_0000, 0xa400_0000), // 8LS:D, the suffix
    Case("pnop", 0, 0),
];

#[test]
fn fixed_bits_are_the_manuals(rt: HostRuntime) {
    for Case(name, mask, value) in &CASES {
        match by_name(name) {
            Some(place) => {
                let row = row_at(place);
                assert_eq!(rt; (row.mask, row.value), (*mask, *value), "{name}");
            }
            None => panic!(rt; "{name} has no row"),
        }
    }
}

/// No row's name: nothing, a front of a name, a form's spelling, a name in upper case, another word.
static OTHERS: [&str; 5] = ["", "stwcx", "add.", "ADD", "frob"];

#[test]
fn other_words_have_no_row(rt: HostRuntime) {
    for name in &OTHERS {
        assert_eq!(rt; by_name(name), None, "{name}");
    }
}

#[test]
fn places_layouts_and_operands(rt: HostRuntime) {
    assert_eq!(rt; by_name("addi"), Some(0));
    assert_eq!(rt; by_name("pnop"), Some(223));
    assert_eq!(rt; rows().len(), 224);
    assert_eq!(rt; layout_at(0), Layout::DRtRaSi);
    assert_eq!(rt; row_at(0).shape, Shape::RtRaSi);
    assert_eq!(rt; row_at(223).prefix, PrefixKind::Nop);
}
