ghost use Rattle.std.specs.Prelude.{◌≡◌, ◌<◌, Some, length, slice_get};
ghost use Rattle.mw_tables.specs.Rows.{row_count};
ghost use Rattle.mw_tables.specs.Layouts.{operand_at};
ghost use Rattle.mw_decode.specs.Rules.{counts, is_illegal, is_illegal_form, row_rules};

/// With which operands a row is an illegal form (Book I, fixed-point load and store, branch and add
/// instructions; Book II, time base). `ra` is the place of RA among the operands; RT is the first of
/// them.
#[derive(Clone, Copy, Debug, PartialEq, Eq)]
pub enum Rule {
    /// No operands are an illegal form.
    AlwaysLegal,
    /// A load with update: RA is 0 or RT.
    LoadUpdate { ra: usize },
    /// A store with update: RA is 0.
    StoreUpdate { ra: usize },
    /// A branch to CTR that would count: BO2 is 0.
    CountBranch,
    /// addex with a carry other than OV: CY isn't 0.
    CarryKind,
    /// mftb of a number other than 268 and 269.
    TimeBase,
    /// A prefixed row whose address is relative and has a base: R is 1 and RA isn't 0.
    Relative { ra: usize },
}

/// The rule of each row, in the order of the table.
#[rattlefmt::skip]
static RULES: [Rule; 224] = [
    Rule::AlwaysLegal, // addi
    Rule::AlwaysLegal, // addis
    Rule::AlwaysLegal, // addic
    Rule::AlwaysLegal, // addic.
    Rule::AlwaysLegal, // subfic
    Rule::AlwaysLegal, // mulli
    Rule::AlwaysLegal, // cmpi
    Rule::AlwaysLegal, // cmpli
    Rule::AlwaysLegal, // tdi
    Rule::AlwaysLegal, // twi
    Rule::AlwaysLegal, // ori
    Rule::AlwaysLegal, // oris
    Rule::AlwaysLegal, // xori
    Rule::AlwaysLegal, // xoris
    Rule::AlwaysLegal, // andi.
    Rule::AlwaysLegal, // andis.
    Rule::AlwaysLegal, // addpcis
    Rule::AlwaysLegal, // b
    Rule::AlwaysLegal, // bc
    Rule::AlwaysLegal, // bclr
    Rule::CountBranch, // bcctr
    Rule::AlwaysLegal, // bctar
    Rule::AlwaysLegal, // crnor
    Rule::AlwaysLegal, // crandc
    Rule::AlwaysLegal, // crxor
    Rule::AlwaysLegal, // crnand
    Rule::AlwaysLegal, // crand
    Rule::AlwaysLegal, // creqv
    Rule::AlwaysLegal, // crorc
    Rule::AlwaysLegal, // cror
    Rule::AlwaysLegal, // mcrf
    Rule::AlwaysLegal, // rlwinm
    Rule::AlwaysLegal, // rlwnm
    Rule::AlwaysLegal, // rlwimi
    Rule::AlwaysLegal, // rldicl
    Rule::AlwaysLegal, // rldicr
    Rule::AlwaysLegal, // rldic
    Rule::AlwaysLegal, // rldimi
    Rule::AlwaysLegal, // rldcl
    Rule::AlwaysLegal, // rldcr
    Rule::AlwaysLegal, // maddhd
    Rule::AlwaysLegal, // maddhdu
    Rule::AlwaysLegal, // maddld
    Rule::AlwaysLegal, // add
    Rule::AlwaysLegal, // subf
    Rule::AlwaysLegal, // neg
    Rule::AlwaysLegal, // addc
    Rule::AlwaysLegal, // subfc
    Rule::AlwaysLegal, // adde
    Rule::AlwaysLegal, // subfe
    Rule::AlwaysLegal, // addme
    Rule::AlwaysLegal, // subfme
    Rule::AlwaysLegal, // addze
    Rule::AlwaysLegal, // subfze
    Rule::AlwaysLegal, // mullw
    Rule::AlwaysLegal, // mulld
    Rule::AlwaysLegal, // mulhd
    Rule::AlwaysLegal, // mulhdu
    Rule::AlwaysLegal, // mulhw
    Rule::AlwaysLegal, // mulhwu
    Rule::AlwaysLegal, // divd
    Rule::AlwaysLegal, // divdu
    Rule::AlwaysLegal, // divw
    Rule::AlwaysLegal, // divwu
    Rule::AlwaysLegal, // divde
    Rule::AlwaysLegal, // divdeu
    Rule::AlwaysLegal, // divwe
    Rule::AlwaysLegal, // divweu
    Rule::AlwaysLegal, // modsd
    Rule::AlwaysLegal, // modud
    Rule::AlwaysLegal, // modsw
    Rule::AlwaysLegal, // moduw
    Rule::CarryKind, // addex
    Rule::AlwaysLegal, // and
    Rule::AlwaysLegal, // andc
    Rule::AlwaysLegal, // or
    Rule::AlwaysLegal, // orc
    Rule::AlwaysLegal, // xor
    Rule::AlwaysLegal, // eqv
    Rule::AlwaysLegal, // nand
    Rule::AlwaysLegal, // nor
    Rule::AlwaysLegal, // slw
    Rule::AlwaysLegal, // srw
    Rule::AlwaysLegal, // sld
    Rule::AlwaysLegal, // srd
    Rule::AlwaysLegal, // sraw
    Rule::AlwaysLegal, // srawi
    Rule::AlwaysLegal, // srad
    Rule::AlwaysLegal, // sradi
    Rule::AlwaysLegal, // extswsli
    Rule::AlwaysLegal, // extsb
    Rule::AlwaysLegal, // extsh
    Rule::AlwaysLegal, // extsw
    Rule::AlwaysLegal, // cntlzw
    Rule::AlwaysLegal, // cntlzd
    Rule::AlwaysLegal, // cnttzw
    Rule::AlwaysLegal, // cnttzd
    Rule::AlwaysLegal, // cntlzdm
    Rule::AlwaysLegal, // cnttzdm
    Rule::AlwaysLegal, // popcntb
    Rule::AlwaysLegal, // popcntw
    Rule::AlwaysLegal, // popcntd
    Rule::AlwaysLegal, // prtyw
    Rule::AlwaysLegal, // prtyd
    Rule::AlwaysLegal, // brh
    Rule::AlwaysLegal, // brw
    Rule::AlwaysLegal, // brd
    Rule::AlwaysLegal, // pdepd
    Rule::AlwaysLegal, // pextd
    Rule::AlwaysLegal, // cfuged
    Rule::AlwaysLegal, // bpermd
    Rule::AlwaysLegal, // cmpb
    Rule::AlwaysLegal, // cmp
    Rule::AlwaysLegal, // cmpl
    Rule::AlwaysLegal, // tw
    Rule::AlwaysLegal, // td
    Rule::AlwaysLegal, // isel
    Rule::AlwaysLegal, // mfcr
    Rule::AlwaysLegal, // mfocrf
    Rule::AlwaysLegal, // mtcrf
    Rule::AlwaysLegal, // mtocrf
    Rule::AlwaysLegal, // setb
    Rule::AlwaysLegal, // setbc
    Rule::AlwaysLegal, // setbcr
    Rule::AlwaysLegal, // setnbc
    Rule::AlwaysLegal, // setnbcr
    Rule::AlwaysLegal, // cmprb
    Rule::AlwaysLegal, // cmpeqb
    Rule::AlwaysLegal, // mcrxrx
    Rule::AlwaysLegal, // lwz
    Rule::LoadUpdate { ra: 2 }, // lwzu
    Rule::AlwaysLegal, // lbz
    Rule::LoadUpdate { ra: 2 }, // lbzu
    Rule::AlwaysLegal, // stw
    Rule::StoreUpdate { ra: 2 }, // stwu
    Rule::AlwaysLegal, // stb
    Rule::StoreUpdate { ra: 2 }, // stbu
    Rule::AlwaysLegal, // lhz
    Rule::LoadUpdate { ra: 2 }, // lhzu
    Rule::AlwaysLegal, // lha
    Rule::LoadUpdate { ra: 2 }, // lhau
    Rule::AlwaysLegal, // sth
    Rule::StoreUpdate { ra: 2 }, // sthu
    Rule::AlwaysLegal, // ld
    Rule::LoadUpdate { ra: 2 }, // ldu
    Rule::AlwaysLegal, // lwa
    Rule::AlwaysLegal, // std
    Rule::StoreUpdate { ra: 2 }, // stdu
    Rule::AlwaysLegal, // ldx
    Rule::AlwaysLegal, // lwzx
    Rule::LoadUpdate { ra: 1 }, // ldux
    Rule::LoadUpdate { ra: 1 }, // lwzux
    Rule::AlwaysLegal, // lbzx
    Rule::LoadUpdate { ra: 1 }, // lbzux
    Rule::AlwaysLegal, // lhzx
    Rule::LoadUpdate { ra: 1 }, // lhzux
    Rule::AlwaysLegal, // lwax
    Rule::AlwaysLegal, // lhax
    Rule::LoadUpdate { ra: 1 }, // lwaux
    Rule::LoadUpdate { ra: 1 }, // lhaux
    Rule::AlwaysLegal, // ldbrx
    Rule::AlwaysLegal, // lwbrx
    Rule::AlwaysLegal, // lhbrx
    Rule::AlwaysLegal, // stdx
    Rule::AlwaysLegal, // stwx
    Rule::StoreUpdate { ra: 1 }, // stdux
    Rule::StoreUpdate { ra: 1 }, // stwux
    Rule::AlwaysLegal, // stbx
    Rule::StoreUpdate { ra: 1 }, // stbux
    Rule::AlwaysLegal, // sthx
    Rule::StoreUpdate { ra: 1 }, // sthux
    Rule::AlwaysLegal, // stdbrx
    Rule::AlwaysLegal, // stwbrx
    Rule::AlwaysLegal, // sthbrx
    Rule::AlwaysLegal, // lwarx
    Rule::AlwaysLegal, // lbarx
    Rule::AlwaysLegal, // ldarx
    Rule::AlwaysLegal, // lharx
    Rule::AlwaysLegal, // stwcx.
    Rule::AlwaysLegal, // stdcx.
    Rule::AlwaysLegal, // stbcx.
    Rule::AlwaysLegal, // sthcx.
    Rule::AlwaysLegal, // lwzcix
    Rule::AlwaysLegal, // lhzcix
    Rule::AlwaysLegal, // lbzcix
    Rule::AlwaysLegal, // ldcix
    Rule::AlwaysLegal, // stwcix
    Rule::AlwaysLegal, // sthcix
    Rule::AlwaysLegal, // stbcix
    Rule::AlwaysLegal, // stdcix
    Rule::AlwaysLegal, // dcbst
    Rule::AlwaysLegal, // dcbf
    Rule::AlwaysLegal, // dcbtst
    Rule::AlwaysLegal, // dcbt
    Rule::AlwaysLegal, // icbi
    Rule::AlwaysLegal, // dcbz
    Rule::AlwaysLegal, // sc
    Rule::AlwaysLegal, // rfid
    Rule::AlwaysLegal, // hrfid
    Rule::AlwaysLegal, // isync
    Rule::AlwaysLegal, // sync
    Rule::AlwaysLegal, // eieio
    Rule::AlwaysLegal, // tlbsync
    Rule::AlwaysLegal, // mfmsr
    Rule::AlwaysLegal, // mtmsr
    Rule::AlwaysLegal, // mtmsrd
    Rule::AlwaysLegal, // tlbie
    Rule::AlwaysLegal, // tlbiel
    Rule::AlwaysLegal, // mfspr
    Rule::AlwaysLegal, // mtspr
    Rule::TimeBase, // mftb
    Rule::AlwaysLegal, // darn
    Rule::Relative { ra: 1 }, // paddi
    Rule::Relative { ra: 2 }, // plwz
    Rule::Relative { ra: 2 }, // plbz
    Rule::Relative { ra: 2 }, // pstw
    Rule::Relative { ra: 2 }, // pstb
    Rule::Relative { ra: 2 }, // plhz
    Rule::Relative { ra: 2 }, // plha
    Rule::Relative { ra: 2 }, // psth
    Rule::Relative { ra: 2 }, // plwa
    Rule::Relative { ra: 2 }, // pld
    Rule::Relative { ra: 2 }, // pstd
    Rule::AlwaysLegal, // pnop
];

/// The rules of all rows.
fn row_rules() -> &'static [Rule]
    ensures value { result.now ≡ row_rules }
    ensures count { length result.now ≡ row_count }
{
    &RULES
}

/// The operand at a place, or 0 where there is none.
fn operand_at(ops: &[i64], place: usize) -> i64
    ensures { result ≡ operand_at ops.now place }
{
    if place < ops.len() { ops[place] } else { 0 }
}

/// Whether CTR counts: BO2, the third of the five bits of BO, is 0.
fn counts(bo: i64) -> bool
    ensures { result ≡ counts bo }
{
    bo.cast_unsigned() / 4 % 2 == 0
}

/// Whether the rule makes these operands an illegal form.
fn is_illegal(rule: Rule, ops: &[i64]) -> bool
    ensures { result ≡ is_illegal rule ops.now }
{
    match rule {
        Rule::AlwaysLegal => false,
        Rule::LoadUpdate { ra } => {
            let base = operand_at(ops, ra);
            base == 0 || base == operand_at(ops, 0)
        }
        Rule::StoreUpdate { ra } => operand_at(ops, ra) == 0,
        Rule::CountBranch => counts(operand_at(ops, 0)),
        Rule::CarryKind => operand_at(ops, 3) != 0,
        Rule::TimeBase => {
            let number = operand_at(ops, 1);
            number != 268 && number != 269
        }
        Rule::Relative { ra } => operand_at(ops, 3) == 1 && operand_at(ops, ra) != 0,
    }
}

/// Whether the row at a place of the table is an illegal form with these operands (Book I, fixed-point
/// load and store, branch and add instructions; Book II, time base). A missing operand counts as 0, and
/// past the table nothing is illegal.
pub fn is_illegal_form(row: u16, ops: &[i64]) -> bool
    ensures { result ≡ is_illegal_form row ops.now }
{
    match row_rules().get(usize::from(row)) {
        Some(rule) => is_illegal(*rule, ops),
        None => false,
    }
}
