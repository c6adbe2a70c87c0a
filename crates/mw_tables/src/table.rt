ghost use Rattle.std.specs.Prelude.{ℕ, ◌≡◌, ◌<◌, Some, IfSome, IfNone, length, map, slice_get};
ghost use Rattle.mw_tables.specs.Row.{row_of};
ghost use Rattle.mw_tables.specs.Rows.{table, layouts, row_count};
ghost use Rattle.mw_tables.specs.Matching.{AreApart, AreNamed, AreLaidOut, IsNamedAt};

use crate::layout::Layout;
use crate::row::{PrefixKind, Row, Shape};

/// The bits that a format fixes: the primary opcode, bits 0 to 5, and the extended code (Book I,
/// instruction formats).
#[rattlefmt::skip]
macro_rules! mask {
    (D) => { 0x3f << 26 }; // the primary opcode alone, as in I, B and M
    (DX) => { 0x3f << 26 | 0x1f << 1 }; // bits 26 to 30
    (DS) => { 0x3f << 26 | 0x3 }; // bits 30 and 31
    (X) => { 0x3f << 26 | 0x3ff << 1 }; // bits 21 to 30, as in XL and XFX
    (X_DOT) => { 0x3f << 26 | 0x3ff << 1 | 1 }; // X with a bit 31 that is 1
    (XFX_ALL) => { 0x3f << 26 | 0x3ff << 1 | 1 << 20 }; // XFX with a bit 11 that is 0
    (XFX_ONE) => { 0x3f << 26 | 0x3ff << 1 | 1 << 20 }; // XFX with a bit 11 that is 1
    (XO) => { 0x3f << 26 | 0x1ff << 1 }; // bits 22 to 30
    (XS) => { 0x3f << 26 | 0x1ff << 2 }; // bits 21 to 29
    (A) => { 0x3f << 26 | 0x1f << 1 }; // bits 26 to 30
    (Z23) => { 0x3f << 26 | 0xff << 1 }; // bits 23 to 30
    (MD) => { 0x3f << 26 | 0x7 << 2 }; // bits 27 to 29
    (MDS) => { 0x3f << 26 | 0xf << 1 }; // bits 27 to 30
    (VA) => { 0x3f << 26 | 0x3f }; // bits 26 to 31
    (SC) => { 0x3f << 26 | 1 << 1 }; // a bit 30 that is 1
}

/// What a word has in the bits that a format fixes, from the primary opcode and the extended code.
#[rattlefmt::skip]
macro_rules! value {
    (D $opcode:literal) => { $opcode << 26 };
    (DX $opcode:literal $code:literal) => { $opcode << 26 | $code << 1 };
    (DS $opcode:literal $code:literal) => { $opcode << 26 | $code };
    (X $opcode:literal $code:literal) => { $opcode << 26 | $code << 1 };
    (X_DOT $opcode:literal $code:literal) => { $opcode << 26 | $code << 1 | 1 };
    (XFX_ALL $opcode:literal $code:literal) => { $opcode << 26 | $code << 1 };
    (XFX_ONE $opcode:literal $code:literal) => { $opcode << 26 | $code << 1 | 1 << 20 };
    (XO $opcode:literal $code:literal) => { $opcode << 26 | $code << 1 };
    (XS $opcode:literal $code:literal) => { $opcode << 26 | $code << 2 };
    (A $opcode:literal $code:literal) => { $opcode << 26 | $code << 1 };
    (Z23 $opcode:literal $code:literal) => { $opcode << 26 | $code << 1 };
    (MD $opcode:literal $code:literal) => { $opcode << 26 | $code << 2 };
    (MDS $opcode:literal $code:literal) => { $opcode << 26 | $code << 1 };
    (VA $opcode:literal $code:literal) => { $opcode << 26 | $code };
    (SC $opcode:literal) => { $opcode << 26 | 1 << 1 };
}

/// Whether there is a form with OE=1: written with o.
#[rattlefmt::skip]
macro_rules! has_oe {
    (O_DOT) => { true };
    ($other:ident) => { false };
}

/// Whether there is a form with Rc=1: written with a point.
#[rattlefmt::skip]
macro_rules! has_rc {
    (DOT) => { true };
    (O_DOT) => { true };
    ($other:ident) => { false };
}

/// Whether there is a form with LK=1: written with l.
#[rattlefmt::skip]
macro_rules! has_links {
    (LINK) => { true };
    (LINK_ABSOLUTE) => { true };
    ($other:ident) => { false };
}

/// Whether there is a form with AA=1: written with a.
#[rattlefmt::skip]
macro_rules! has_absolute {
    (LINK_ABSOLUTE) => { true };
    ($other:ident) => { false };
}

/// A row without a prefix: its name, its format with the primary opcode and the extended code, its
/// operands and its forms.
macro_rules! plain {
    ($name:literal, $format:ident $opcode:literal $($code:literal)?, $shape:ident, $forms:ident) => {
        Row {
            name: $name,
            mask: mask!($format),
            value: value!($format $opcode $($code)?),
            prefix: PrefixKind::Plain,
            shape: Shape::$shape,
            oe: has_oe!($forms),
            rc: has_rc!($forms),
            links: has_links!($forms),
            absolute: has_absolute!($forms),
        }
    };
}

/// A row with a prefix: its name, its prefix with the suffix's primary opcode, and its operands.
macro_rules! prefixed {
    ($name:literal, $prefix:ident $opcode:literal, $shape:ident) => {
        Row {
            name: $name,
            mask: mask!(D),
            value: value!(D $opcode),
            prefix: PrefixKind::$prefix,
            shape: Shape::$shape,
            oe: false,
            rc: false,
            links: false,
            absolute: false,
        }
    };
}

/// How many rows there are.
const ROW_COUNT: u16 = 224;

/// The rows, one a line, in the order of the definitions.
#[rattlefmt::skip]
static ROWS: [Row; 224] = [
    plain!("addi", D 14, RtRaSi, PLAIN_ONLY),
    plain!("addis", D 15, RtRaSi, PLAIN_ONLY),
    plain!("addic", D 12, RtRaSi, PLAIN_ONLY),
    plain!("addic.", D 13, RtRaSi, PLAIN_ONLY),
    plain!("subfic", D 8, RtRaSi, PLAIN_ONLY),
    plain!("mulli", D 7, RtRaSi, PLAIN_ONLY),
    plain!("cmpi", D 11, BfLRaSi, PLAIN_ONLY),
    plain!("cmpli", D 10, BfLRaUi, PLAIN_ONLY),
    plain!("tdi", D 2, ToRaSi, PLAIN_ONLY),
    plain!("twi", D 3, ToRaSi, PLAIN_ONLY),
    plain!("ori", D 24, RaRsUi, PLAIN_ONLY),
    plain!("oris", D 25, RaRsUi, PLAIN_ONLY),
    plain!("xori", D 26, RaRsUi, PLAIN_ONLY),
    plain!("xoris", D 27, RaRsUi, PLAIN_ONLY),
    plain!("andi.", D 28, RaRsUi, PLAIN_ONLY),
    plain!("andis.", D 29, RaRsUi, PLAIN_ONLY),
    plain!("addpcis", DX 19 2, RtD, PLAIN_ONLY),
    plain!("b", D 18, Target, LINK_ABSOLUTE),
    plain!("bc", D 16, BoBiTarget, LINK_ABSOLUTE),
    plain!("bclr", X 19 16, BoBiBh, LINK),
    plain!("bcctr", X 19 528, BoBiBh, LINK),
    plain!("bctar", X 19 560, BoBiBh, LINK),
    plain!("crnor", X 19 33, BtBaBb, PLAIN_ONLY),
    plain!("crandc", X 19 129, BtBaBb, PLAIN_ONLY),
    plain!("crxor", X 19 193, BtBaBb, PLAIN_ONLY),
    plain!("crnand", X 19 225, BtBaBb, PLAIN_ONLY),
    plain!("crand", X 19 257, BtBaBb, PLAIN_ONLY),
    plain!("creqv", X 19 289, BtBaBb, PLAIN_ONLY),
    plain!("crorc", X 19 417, BtBaBb, PLAIN_ONLY),
    plain!("cror", X 19 449, BtBaBb, PLAIN_ONLY),
    plain!("mcrf", X 19 0, BfBfa, PLAIN_ONLY),
    plain!("rlwinm", D 21, RaRsShMbMe, DOT),
    plain!("rlwnm", D 23, RaRsRbMbMe, DOT),
    plain!("rlwimi", D 20, RaRsShMbMe, DOT),
    plain!("rldicl", MD 30 0, RaRsShMb, DOT),
    plain!("rldicr", MD 30 1, RaRsShMe, DOT),
    plain!("rldic", MD 30 2, RaRsShMb, DOT),
    plain!("rldimi", MD 30 3, RaRsShMb, DOT),
    plain!("rldcl", MDS 30 8, RaRsRbMb, DOT),
    plain!("rldcr", MDS 30 9, RaRsRbMe, DOT),
    plain!("maddhd", VA 4 48, RtRaRbRc, PLAIN_ONLY),
    plain!("maddhdu", VA 4 49, RtRaRbRc, PLAIN_ONLY),
    plain!("maddld", VA 4 51, RtRaRbRc, PLAIN_ONLY),
    plain!("add", XO 31 266, RtRaRb, O_DOT),
    plain!("subf", XO 31 40, RtRaRb, O_DOT),
    plain!("neg", XO 31 104, RtRa, O_DOT),
    plain!("addc", XO 31 10, RtRaRb, O_DOT),
    plain!("subfc", XO 31 8, RtRaRb, O_DOT),
    plain!("adde", XO 31 138, RtRaRb, O_DOT),
    plain!("subfe", XO 31 136, RtRaRb, O_DOT),
    plain!("addme", XO 31 234, RtRa, O_DOT),
    plain!("subfme", XO 31 232, RtRa, O_DOT),
    plain!("addze", XO 31 202, RtRa, O_DOT),
    plain!("subfze", XO 31 200, RtRa, O_DOT),
    plain!("mullw", XO 31 235, RtRaRb, O_DOT),
    plain!("mulld", XO 31 233, RtRaRb, O_DOT),
    plain!("mulhd", XO 31 73, RtRaRb, DOT),
    plain!("mulhdu", XO 31 9, RtRaRb, DOT),
    plain!("mulhw", XO 31 75, RtRaRb, DOT),
    plain!("mulhwu", XO 31 11, RtRaRb, DOT),
    plain!("divd", XO 31 489, RtRaRb, O_DOT),
    plain!("divdu", XO 31 457, RtRaRb, O_DOT),
    plain!("divw", XO 31 491, RtRaRb, O_DOT),
    plain!("divwu", XO 31 459, RtRaRb, O_DOT),
    plain!("divde", XO 31 425, RtRaRb, O_DOT),
    plain!("divdeu", XO 31 393, RtRaRb, O_DOT),
    plain!("divwe", XO 31 427, RtRaRb, O_DOT),
    plain!("divweu", XO 31 395, RtRaRb, O_DOT),
    plain!("modsd", X 31 777, RtRaRb, PLAIN_ONLY),
    plain!("modud", X 31 265, RtRaRb, PLAIN_ONLY),
    plain!("modsw", X 31 779, RtRaRb, PLAIN_ONLY),
    plain!("moduw", X 31 267, RtRaRb, PLAIN_ONLY),
    plain!("addex", Z23 31 170, RtRaRbCy, PLAIN_ONLY),
    plain!("and", X 31 28, RaRsRb, DOT),
    plain!("andc", X 31 60, RaRsRb, DOT),
    plain!("or", X 31 444, RaRsRb, DOT),
    plain!("orc", X 31 412, RaRsRb, DOT),
    plain!("xor", X 31 316, RaRsRb, DOT),
    plain!("eqv", X 31 284, RaRsRb, DOT),
    plain!("nand", X 31 476, RaRsRb, DOT),
    plain!("nor", X 31 124, RaRsRb, DOT),
    plain!("slw", X 31 24, RaRsRb, DOT),
    plain!("srw", X 31 536, RaRsRb, DOT),
    plain!("sld", X 31 27, RaRsRb, DOT),
    plain!("srd", X 31 539, RaRsRb, DOT),
    plain!("sraw", X 31 792, RaRsRb, DOT),
    plain!("srawi", X 31 824, RaRsSh, DOT),
    plain!("srad", X 31 794, RaRsRb, DOT),
    plain!("sradi", XS 31 413, RaRsSh, DOT),
    plain!("extswsli", XS 31 445, RaRsSh, DOT),
    plain!("extsb", X 31 954, RaRs, DOT),
    plain!("extsh", X 31 922, RaRs, DOT),
    plain!("extsw", X 31 986, RaRs, DOT),
    plain!("cntlzw", X 31 26, RaRs, DOT),
    plain!("cntlzd", X 31 58, RaRs, DOT),
    plain!("cnttzw", X 31 538, RaRs, DOT),
    plain!("cnttzd", X 31 570, RaRs, DOT),
    plain!("cntlzdm", X 31 59, RaRsRb, PLAIN_ONLY),
    plain!("cnttzdm", X 31 571, RaRsRb, PLAIN_ONLY),
    plain!("popcntb", X 31 122, RaRs, PLAIN_ONLY),
    plain!("popcntw", X 31 378, RaRs, PLAIN_ONLY),
    plain!("popcntd", X 31 506, RaRs, PLAIN_ONLY),
    plain!("prtyw", X 31 154, RaRs, PLAIN_ONLY),
    plain!("prtyd", X 31 186, RaRs, PLAIN_ONLY),
    plain!("brh", X 31 219, RaRs, PLAIN_ONLY),
    plain!("brw", X 31 155, RaRs, PLAIN_ONLY),
    plain!("brd", X 31 187, RaRs, PLAIN_ONLY),
    plain!("pdepd", X 31 156, RaRsRb, PLAIN_ONLY),
    plain!("pextd", X 31 188, RaRsRb, PLAIN_ONLY),
    plain!("cfuged", X 31 220, RaRsRb, PLAIN_ONLY),
    plain!("bpermd", X 31 252, RaRsRb, PLAIN_ONLY),
    plain!("cmpb", X 31 508, RaRsRb, PLAIN_ONLY),
    plain!("cmp", X 31 0, BfLRaRb, PLAIN_ONLY),
    plain!("cmpl", X 31 32, BfLRaRb, PLAIN_ONLY),
    plain!("tw", X 31 4, ToRaRb, PLAIN_ONLY),
    plain!("td", X 31 68, ToRaRb, PLAIN_ONLY),
    plain!("isel", A 31 15, RtRaRbBc, PLAIN_ONLY),
    plain!("mfcr", XFX_ALL 31 19, Rt, PLAIN_ONLY),
    plain!("mfocrf", XFX_ONE 31 19, RtFxm, PLAIN_ONLY),
    plain!("mtcrf", XFX_ALL 31 144, FxmRs, PLAIN_ONLY),
    plain!("mtocrf", XFX_ONE 31 144, FxmRs, PLAIN_ONLY),
    plain!("setb", X 31 128, RtBfa, PLAIN_ONLY),
    plain!("setbc", X 31 384, RtBi, PLAIN_ONLY),
    plain!("setbcr", X 31 416, RtBi, PLAIN_ONLY),
    plain!("setnbc", X 31 448, RtBi, PLAIN_ONLY),
    plain!("setnbcr", X 31 480, RtBi, PLAIN_ONLY),
    plain!("cmprb", X 31 192, BfLRaRb, PLAIN_ONLY),
    plain!("cmpeqb", X 31 224, BfRaRb, PLAIN_ONLY),
    plain!("mcrxrx", X 31 576, Bf, PLAIN_ONLY),
    plain!("lwz", D 32, RtDRa, PLAIN_ONLY),
    plain!("lwzu", D 33, RtDRa, PLAIN_ONLY),
    plain!("lbz", D 34, RtDRa, PLAIN_ONLY),
    plain!("lbzu", D 35, RtDRa, PLAIN_ONLY),
    plain!("stw", D 36, RtDRa, PLAIN_ONLY),
    plain!("stwu", D 37, RtDRa, PLAIN_ONLY),
    plain!("stb", D 38, RtDRa, PLAIN_ONLY),
    plain!("stbu", D 39, RtDRa, PLAIN_ONLY),
    plain!("lhz", D 40, RtDRa, PLAIN_ONLY),
    plain!("lhzu", D 41, RtDRa, PLAIN_ONLY),
    plain!("lha", D 42, RtDRa, PLAIN_ONLY),
    plain!("lhau", D 43, RtDRa, PLAIN_ONLY),
    plain!("sth", D 44, RtDRa, PLAIN_ONLY),
    plain!("sthu", D 45, RtDRa, PLAIN_ONLY),
    plain!("ld", DS 58 0, RtDRa, PLAIN_ONLY),
    plain!("ldu", DS 58 1, RtDRa, PLAIN_ONLY),
    plain!("lwa", DS 58 2, RtDRa, PLAIN_ONLY),
    plain!("std", DS 62 0, RtDRa, PLAIN_ONLY),
    plain!("stdu", DS 62 1, RtDRa, PLAIN_ONLY),
    plain!("ldx", X 31 21, RtRaRb, PLAIN_ONLY),
    plain!("lwzx", X 31 23, RtRaRb, PLAIN_ONLY),
    plain!("ldux", X 31 53, RtRaRb, PLAIN_ONLY),
    plain!("lwzux", X 31 55, RtRaRb, PLAIN_ONLY),
    plain!("lbzx", X 31 87, RtRaRb, PLAIN_ONLY),
    plain!("lbzux", X 31 119, RtRaRb, PLAIN_ONLY),
    plain!("lhzx", X 31 279, RtRaRb, PLAIN_ONLY),
    plain!("lhzux", X 31 311, RtRaRb, PLAIN_ONLY),
    plain!("lwax", X 31 341, RtRaRb, PLAIN_ONLY),
    plain!("lhax", X 31 343, RtRaRb, PLAIN_ONLY),
    plain!("lwaux", X 31 373, RtRaRb, PLAIN_ONLY),
    plain!("lhaux", X 31 375, RtRaRb, PLAIN_ONLY),
    plain!("ldbrx", X 31 532, RtRaRb, PLAIN_ONLY),
    plain!("lwbrx", X 31 534, RtRaRb, PLAIN_ONLY),
    plain!("lhbrx", X 31 790, RtRaRb, PLAIN_ONLY),
    plain!("stdx", X 31 149, RtRaRb, PLAIN_ONLY),
    plain!("stwx", X 31 151, RtRaRb, PLAIN_ONLY),
    plain!("stdux", X 31 181, RtRaRb, PLAIN_ONLY),
    plain!("stwux", X 31 183, RtRaRb, PLAIN_ONLY),
    plain!("stbx", X 31 215, RtRaRb, PLAIN_ONLY),
    plain!("stbux", X 31 247, RtRaRb, PLAIN_ONLY),
    plain!("sthx", X 31 407, RtRaRb, PLAIN_ONLY),
    plain!("sthux", X 31 439, RtRaRb, PLAIN_ONLY),
    plain!("stdbrx", X 31 660, RtRaRb, PLAIN_ONLY),
    plain!("stwbrx", X 31 662, RtRaRb, PLAIN_ONLY),
    plain!("sthbrx", X 31 918, RtRaRb, PLAIN_ONLY),
    plain!("lwarx", X 31 20, RtRaRb, PLAIN_ONLY),
    plain!("lbarx", X 31 52, RtRaRb, PLAIN_ONLY),
    plain!("ldarx", X 31 84, RtRaRb, PLAIN_ONLY),
    plain!("lharx", X 31 116, RtRaRb, PLAIN_ONLY),
    plain!("stwcx.", X_DOT 31 150, RtRaRb, PLAIN_ONLY),
    plain!("stdcx.", X_DOT 31 214, RtRaRb, PLAIN_ONLY),
    plain!("stbcx.", X_DOT 31 694, RtRaRb, PLAIN_ONLY),
    plain!("sthcx.", X_DOT 31 726, RtRaRb, PLAIN_ONLY),
    plain!("lwzcix", X 31 789, RtRaRb, PLAIN_ONLY),
    plain!("lhzcix", X 31 821, RtRaRb, PLAIN_ONLY),
    plain!("lbzcix", X 31 853, RtRaRb, PLAIN_ONLY),
    plain!("ldcix", X 31 885, RtRaRb, PLAIN_ONLY),
    plain!("stwcix", X 31 917, RtRaRb, PLAIN_ONLY),
    plain!("sthcix", X 31 949, RtRaRb, PLAIN_ONLY),
    plain!("stbcix", X 31 981, RtRaRb, PLAIN_ONLY),
    plain!("stdcix", X 31 1013, RtRaRb, PLAIN_ONLY),
    plain!("dcbst", X 31 54, RaRb, PLAIN_ONLY),
    plain!("dcbf", X 31 86, RaRb, PLAIN_ONLY),
    plain!("dcbtst", X 31 246, RaRb, PLAIN_ONLY),
    plain!("dcbt", X 31 278, RaRb, PLAIN_ONLY),
    plain!("icbi", X 31 982, RaRb, PLAIN_ONLY),
    plain!("dcbz", X 31 1014, RaRb, PLAIN_ONLY),
    plain!("sc", SC 17, Empty, PLAIN_ONLY),
    plain!("rfid", X 19 18, Empty, PLAIN_ONLY),
    plain!("hrfid", X 19 274, Empty, PLAIN_ONLY),
    plain!("isync", X 19 150, Empty, PLAIN_ONLY),
    plain!("sync", X 31 598, L, PLAIN_ONLY),
    plain!("eieio", X 31 854, Empty, PLAIN_ONLY),
    plain!("tlbsync", X 31 566, Empty, PLAIN_ONLY),
    plain!("mfmsr", X 31 83, Rt, PLAIN_ONLY),
    plain!("mtmsr", X 31 146, RsL, PLAIN_ONLY),
    plain!("mtmsrd", X 31 178, RsL, PLAIN_ONLY),
    plain!("tlbie", X 31 306, RbRsRicPrsR, PLAIN_ONLY),
    plain!("tlbiel", X 31 274, RbRsRicPrsR, PLAIN_ONLY),
    plain!("mfspr", X 31 339, RtSpr, PLAIN_ONLY),
    plain!("mtspr", X 31 467, SprRs, PLAIN_ONLY),
    plain!("mftb", X 31 371, RtTbr, PLAIN_ONLY),
    plain!("darn", X 31 755, RtL, PLAIN_ONLY),
    prefixed!("paddi", Mls 14, RtRaSiR),
    prefixed!("plwz", Mls 32, RtDRaR),
    prefixed!("plbz", Mls 34, RtDRaR),
    prefixed!("pstw", Mls 36, RtDRaR),
    prefixed!("pstb", Mls 38, RtDRaR),
    prefixed!("plhz", Mls 40, RtDRaR),
    prefixed!("plha", Mls 42, RtDRaR),
    prefixed!("psth", Mls 44, RtDRaR),
    prefixed!("plwa", Eight 41, RtDRaR),
    prefixed!("pld", Eight 57, RtDRaR),
    prefixed!("pstd", Eight 61, RtDRaR),
    Row { name: "pnop", mask: 0, value: 0, prefix: PrefixKind::Nop, shape: Shape::Empty, oe: false, rc: false, links: false, absolute: false },
];

/// Where the operands of each row stand, in the order of the rows.
#[rattlefmt::skip]
static ROW_LAYOUTS: [Layout; 224] = [
    Layout::DRtRaSi, // addi
    Layout::DRtRaSi, // addis
    Layout::DRtRaSi, // addic
    Layout::DRtRaSi, // addic.
    Layout::DRtRaSi, // subfic
    Layout::DRtRaSi, // mulli
    Layout::DBfLRaSi, // cmpi
    Layout::DBfLRaUi, // cmpli
    Layout::DToRaSi, // tdi
    Layout::DToRaSi, // twi
    Layout::DRaRsUi, // ori
    Layout::DRaRsUi, // oris
    Layout::DRaRsUi, // xori
    Layout::DRaRsUi, // xoris
    Layout::DRaRsUi, // andi.
    Layout::DRaRsUi, // andis.
    Layout::DxRtD, // addpcis
    Layout::ITarget, // b
    Layout::BBoBiTarget, // bc
    Layout::XlBoBiBh, // bclr
    Layout::XlBoBiBh, // bcctr
    Layout::XlBoBiBh, // bctar
    Layout::XlBtBaBb, // crnor
    Layout::XlBtBaBb, // crandc
    Layout::XlBtBaBb, // crxor
    Layout::XlBtBaBb, // crnand
    Layout::XlBtBaBb, // crand
    Layout::XlBtBaBb, // creqv
    Layout::XlBtBaBb, // crorc
    Layout::XlBtBaBb, // cror
    Layout::XlBfBfa, // mcrf
    Layout::MRaRsShMbMe, // rlwinm
    Layout::MRaRsRbMbMe, // rlwnm
    Layout::MRaRsShMbMe, // rlwimi
    Layout::MdRaRsShMb, // rldicl
    Layout::MdRaRsShMe, // rldicr
    Layout::MdRaRsShMb, // rldic
    Layout::MdRaRsShMb, // rldimi
    Layout::MdsRaRsRbMb, // rldcl
    Layout::MdsRaRsRbMe, // rldcr
    Layout::VaRtRaRbRc, // maddhd
    Layout::VaRtRaRbRc, // maddhdu
    Layout::VaRtRaRbRc, // maddld
    Layout::XRtRaRb, // add
    Layout::XRtRaRb, // subf
    Layout::XRtRa, // neg
    Layout::XRtRaRb, // addc
    Layout::XRtRaRb, // subfc
    Layout::XRtRaRb, // adde
    Layout::XRtRaRb, // subfe
    Layout::XRtRa, // addme
    Layout::XRtRa, // subfme
    Layout::XRtRa, // addze
    Layout::XRtRa, // subfze
    Layout::XRtRaRb, // mullw
    Layout::XRtRaRb, // mulld
    Layout::XRtRaRb, // mulhd
    Layout::XRtRaRb, // mulhdu
    Layout::XRtRaRb, // mulhw
    Layout::XRtRaRb, // mulhwu
    Layout::XRtRaRb, // divd
    Layout::XRtRaRb, // divdu
    Layout::XRtRaRb, // divw
    Layout::XRtRaRb, // divwu
    Layout::XRtRaRb, // divde
    Layout::XRtRaRb, // divdeu
    Layout::XRtRaRb, // divwe
    Layout::XRtRaRb, // divweu
    Layout::XRtRaRb, // modsd
    Layout::XRtRaRb, // modud
    Layout::XRtRaRb, // modsw
    Layout::XRtRaRb, // moduw
    Layout::Z23RtRaRbCy, // addex
    Layout::XRaRsRb, // and
    Layout::XRaRsRb, // andc
    Layout::XRaRsRb, // or
    Layout::XRaRsRb, // orc
    Layout::XRaRsRb, // xor
    Layout::XRaRsRb, // eqv
    Layout::XRaRsRb, // nand
    Layout::XRaRsRb, // nor
    Layout::XRaRsRb, // slw
    Layout::XRaRsRb, // srw
    Layout::XRaRsRb, // sld
    Layout::XRaRsRb, // srd
    Layout::XRaRsRb, // sraw
    Layout::XRaRsSh, // srawi
    Layout::XRaRsRb, // srad
    Layout::XsRaRsSh, // sradi
    Layout::XsRaRsSh, // extswsli
    Layout::XRaRs, // extsb
    Layout::XRaRs, // extsh
    Layout::XRaRs, // extsw
    Layout::XRaRs, // cntlzw
    Layout::XRaRs, // cntlzd
    Layout::XRaRs, // cnttzw
    Layout::XRaRs, // cnttzd
    Layout::XRaRsRb, // cntlzdm
    Layout::XRaRsRb, // cnttzdm
    Layout::XRaRs, // popcntb
    Layout::XRaRs, // popcntw
    Layout::XRaRs, // popcntd
    Layout::XRaRs, // prtyw
    Layout::XRaRs, // prtyd
    Layout::XRaRs, // brh
    Layout::XRaRs, // brw
    Layout::XRaRs, // brd
    Layout::XRaRsRb, // pdepd
    Layout::XRaRsRb, // pextd
    Layout::XRaRsRb, // cfuged
    Layout::XRaRsRb, // bpermd
    Layout::XRaRsRb, // cmpb
    Layout::XBfLRaRb, // cmp
    Layout::XBfLRaRb, // cmpl
    Layout::XToRaRb, // tw
    Layout::XToRaRb, // td
    Layout::ARtRaRbBc, // isel
    Layout::XRt, // mfcr
    Layout::XfxRtFxm, // mfocrf
    Layout::XfxFxmRs, // mtcrf
    Layout::XfxFxmRs, // mtocrf
    Layout::XRtBfa, // setb
    Layout::XRtBi, // setbc
    Layout::XRtBi, // setbcr
    Layout::XRtBi, // setnbc
    Layout::XRtBi, // setnbcr
    Layout::XBfLRaRb, // cmprb
    Layout::XBfRaRb, // cmpeqb
    Layout::XBf, // mcrxrx
    Layout::DRtDRa, // lwz
    Layout::DRtDRa, // lwzu
    Layout::DRtDRa, // lbz
    Layout::DRtDRa, // lbzu
    Layout::DRtDRa, // stw
    Layout::DRtDRa, // stwu
    Layout::DRtDRa, // stb
    Layout::DRtDRa, // stbu
    Layout::DRtDRa, // lhz
    Layout::DRtDRa, // lhzu
    Layout::DRtDRa, // lha
    Layout::DRtDRa, // lhau
    Layout::DRtDRa, // sth
    Layout::DRtDRa, // sthu
    Layout::DsRtDRa, // ld
    Layout::DsRtDRa, // ldu
    Layout::DsRtDRa, // lwa
    Layout::DsRtDRa, // std
    Layout::DsRtDRa, // stdu
    Layout::XRtRaRb, // ldx
    Layout::XRtRaRb, // lwzx
    Layout::XRtRaRb, // ldux
    Layout::XRtRaRb, // lwzux
    Layout::XRtRaRb, // lbzx
    Layout::XRtRaRb, // lbzux
    Layout::XRtRaRb, // lhzx
    Layout::XRtRaRb, // lhzux
    Layout::XRtRaRb, // lwax
    Layout::XRtRaRb, // lhax
    Layout::XRtRaRb, // lwaux
    Layout::XRtRaRb, // lhaux
    Layout::XRtRaRb, // ldbrx
    Layout::XRtRaRb, // lwbrx
    Layout::XRtRaRb, // lhbrx
    Layout::XRtRaRb, // stdx
    Layout::XRtRaRb, // stwx
    Layout::XRtRaRb, // stdux
    Layout::XRtRaRb, // stwux
    Layout::XRtRaRb, // stbx
    Layout::XRtRaRb, // stbux
    Layout::XRtRaRb, // sthx
    Layout::XRtRaRb, // sthux
    Layout::XRtRaRb, // stdbrx
    Layout::XRtRaRb, // stwbrx
    Layout::XRtRaRb, // sthbrx
    Layout::XRtRaRb, // lwarx
    Layout::XRtRaRb, // lbarx
    Layout::XRtRaRb, // ldarx
    Layout::XRtRaRb, // lharx
    Layout::XRtRaRb, // stwcx.
    Layout::XRtRaRb, // stdcx.
    Layout::XRtRaRb, // stbcx.
    Layout::XRtRaRb, // sthcx.
    Layout::XRtRaRb, // lwzcix
    Layout::XRtRaRb, // lhzcix
    Layout::XRtRaRb, // lbzcix
    Layout::XRtRaRb, // ldcix
    Layout::XRtRaRb, // stwcix
    Layout::XRtRaRb, // sthcix
    Layout::XRtRaRb, // stbcix
    Layout::XRtRaRb, // stdcix
    Layout::XRaRb, // dcbst
    Layout::XRaRb, // dcbf
    Layout::XRaRb, // dcbtst
    Layout::XRaRb, // dcbt
    Layout::XRaRb, // icbi
    Layout::XRaRb, // dcbz
    Layout::Empty, // sc
    Layout::Empty, // rfid
    Layout::Empty, // hrfid
    Layout::Empty, // isync
    Layout::XL, // sync
    Layout::Empty, // eieio
    Layout::Empty, // tlbsync
    Layout::XRt, // mfmsr
    Layout::XRsL, // mtmsr
    Layout::XRsL, // mtmsrd
    Layout::XRbRsRicPrsR, // tlbie
    Layout::XRbRsRicPrsR, // tlbiel
    Layout::XfxRtSpr, // mfspr
    Layout::XfxSprRs, // mtspr
    Layout::XfxRtTbr, // mftb
    Layout::XRtL, // darn
    Layout::MlsRtRaSiR, // paddi
    Layout::WideRtDRaR, // plwz
    Layout::WideRtDRaR, // plbz
    Layout::WideRtDRaR, // pstw
    Layout::WideRtDRaR, // pstb
    Layout::WideRtDRaR, // plhz
    Layout::WideRtDRaR, // plha
    Layout::WideRtDRaR, // psth
    Layout::WideRtDRaR, // plwa
    Layout::WideRtDRaR, // pld
    Layout::WideRtDRaR, // pstd
    Layout::Empty, // pnop
];

/// The table of instructions (Book I, instruction formats). The place of a row in it, 0 for the first,
/// is the instruction's number. No two rows of one kind of prefix match one word, and no two have one
/// name.
pub fn rows() -> &'static [Row]
    ensures value { map row_of result.now ≡ table }
    ensures count { length result.now ≡ row_count }
    ensures apart { AreApart (map row_of result.now) }
    ensures named { AreNamed (map row_of result.now) }
    ensures laid_out { AreLaidOut (map row_of result.now) }
{
    &ROWS
}

/// The row at a place of the table, 0 for the first.
pub fn row_at(place: u16) -> &'static Row
    requires { place < row_count }
    ensures { slice_get table place ≡ Some (row_of result.now) }
{
    &rows()[place as usize]
}

/// The place of the row with a name, in lower case and without its forms' letters; `None` where no row
/// has it.
pub fn by_name(name: &str) -> Option<u16>
    ensures found { IfSome result (IsNamedAt table name.now) }
    ensures within { IfSome result (λ place. place < row_count) }
    ensures none { IfNone result ((place : ℕ) → IsNamedAt table name.now place → ⊥) }
{
    for place in 0..ROW_COUNT {
        if row_at(place).name == name {
            return Some(place);
        }
    }
    None
}

/// The layouts of all rows.
fn layouts() -> &'static [Layout]
    ensures value { result.now ≡ layouts }
    ensures count { length result.now ≡ row_count }
{
    &ROW_LAYOUTS
}

/// Where the operands of the row at a place of the table stand.
pub fn layout_at(place: u16) -> Layout
    requires { place < row_count }
    ensures { slice_get layouts place ≡ Some result }
{
    layouts()[place as usize]
}
