ghost use Rattle.std.specs.Prelude.{◌≡◌, ◌<◌, slice_get};
ghost use Rattle.mw_isa.specs.Operations.{operations};
ghost use Rattle.mw_tables.specs.Rows.{row_count};

use crate::memory::MemWhat;
use mw_alu::AluOp;
use mw_muldiv::{DivKind, MulKind};

/// What a row of the instruction table does, by the unit that does it.
#[derive(Clone, Copy, Debug, PartialEq, Eq)]
pub enum Operation {
    /// A result that is there in one cycle.
    Alu(AluRow),
    /// A product.
    Product(ProductRow),
    /// A quotient or a rest.
    Quotient(QuotientRow),
    /// A branch.
    Branch(BranchRow),
    /// A field of the condition register.
    Field(FieldRow),
    /// The fields of the condition register that a mask chooses.
    Fields,
    /// A number that goes by the condition register.
    Pick(PickRow),
    /// A trap, where a condition holds.
    Trap(TrapRow),
    /// An access to storage.
    Storage(StorageRow),
    /// A hint, which changes nothing and accesses nothing (dcbt, dcbtst, pnop).
    Hint,
    /// A system call.
    Call,
    /// An instruction of the system.
    System(SystemRow),
}

/// Where a row is privileged: in problem state it then raises an interrupt (Book III, privileged
/// instructions).
#[derive(Clone, Copy, Debug, PartialEq, Eq)]
pub enum Privilege {
    /// The row is never privileged.
    Never,
    /// The row is always privileged.
    Always,
    /// The row is privileged where L is 2 (ptesync among the forms of sync).
    Heavy,
}

/// A row whose result is there in one cycle (Book I, fixed-point arithmetic and logical instructions).
#[derive(Clone, Copy, Debug, PartialEq, Eq)]
pub struct AluRow {
    /// What the unit does.
    pub op: AluOp,
    /// How its operands make the numbers that the unit takes.
    pub inputs: Inputs,
    /// The carry that the unit takes.
    pub carry: Carry,
    /// What is written beside the result.
    pub ending: Ending,
}

/// How the operands of an arithmetic row make the numbers a, b and c that its unit takes, by operand list.
#[derive(Clone, Copy, Debug, PartialEq, Eq)]
pub enum Inputs {
    /// RT,RA,SI: a is RA|0, b the number.
    BaseNumber,
    /// RT,RA,SI or RA,RS,UI: a is RA or RS, b the number.
    SourceNumber,
    /// RT,RA,RB or RA,RS,RB: a is RA or RS, b is RB.
    Two,
    /// RT,RA,RB,CY: a is RA, b is RB.
    TwoKind,
    /// RT,RA,RB,RC: a is RA, b is RB, c is RC.
    Three,
    /// RT,RA or RA,RS: a is RA or RS.
    One,
    /// RT,RA,SI,R: a is RA|0, or the instruction's own address where R is 1; b the number.
    Relative,
    /// RT,D: a is the address behind the instruction, b the number.
    Next,
    /// RA,RS,SH: a is RS, c the number of places, below 32.
    WordShift,
    /// RA,RS,SH: a is RS, c the number of places, below 64.
    Shift,
    /// RA,RS,SH,MB,ME: a is RS, b the count, c the mask from MB to ME of the low word.
    WordMask,
    /// RA,RS,RB,MB,ME: a is RS, b is RB, c the mask from MB to ME of the low word.
    WordMaskBy,
    /// RA,RS,SH,MB,ME: a is RS, rotated as a word; b the mask from MB to ME of the low word, c the old RA.
    WordInsert,
    /// RA,RS,SH,MB: a is RS, b the count, c the mask from MB to the end.
    Left,
    /// RA,RS,SH,ME: a is RS, b the count, c the mask from the start to ME.
    Right,
    /// RA,RS,SH,MB: a is RS, b the count, c the mask from MB to where the bits from behind the end begin.
    Middle,
    /// RA,RS,SH,MB: a is RS, rotated; b the mask that `Middle` has, c the old RA.
    Insert,
    /// RA,RS,RB,MB: a is RS, b is RB, c the mask from MB to the end.
    LeftBy,
    /// RA,RS,RB,ME: a is RS, b is RB, c the mask from the start to ME.
    RightBy,
}

/// The carry that a unit takes.
#[derive(Clone, Copy, Debug, PartialEq, Eq)]
pub enum Carry {
    /// The unit takes no carry.
    NoCarry,
    /// CA.
    Ca,
    /// OV, which addex takes as a carry.
    Ov,
}

/// What an arithmetic row writes beside its result, whatever OE and Rc ask for.
#[derive(Clone, Copy, Debug, PartialEq, Eq)]
pub enum Ending {
    /// Nothing is written beside the result.
    Plain,
    /// CA and CA32.
    Carries,
    /// CR field 0.
    Records,
    /// CA, CA32 and CR field 0.
    CarriesAndRecords,
    /// OV and OV32, and SO stays (addex).
    Overflows,
}

/// A row that multiplies (Book I, fixed-point arithmetic instructions).
#[derive(Clone, Copy, Debug, PartialEq, Eq)]
pub struct ProductRow {
    /// How the factors are read.
    pub kind: MulKind,
    /// The operand list of the row: a and b are the factors.
    pub inputs: Inputs,
    /// What is added to the product.
    pub addend: Addend,
    /// Whether the result is the high half.
    pub high: bool,
    /// Whether the factors are low words.
    pub word: bool,
}

/// What a row adds to its product.
#[derive(Clone, Copy, Debug, PartialEq, Eq)]
pub enum Addend {
    /// Nothing is added.
    NoAddend,
    /// c.
    PlainAddend,
    /// c, extended with its sign.
    SignedAddend,
}

/// A row that divides a by b (Book I, fixed-point arithmetic instructions).
#[derive(Clone, Copy, Debug, PartialEq, Eq)]
pub struct QuotientRow {
    /// How the numbers are read, and whether they are low words.
    pub kind: DivKind,
    /// Whether zeros stand behind the dividend, as many as it has bits.
    pub extended: bool,
    /// Whether the result is the rest.
    pub rest: bool,
}

/// The rows that branch (Book I, branch instructions).
#[derive(Clone, Copy, Debug, PartialEq, Eq)]
pub enum BranchRow {
    /// target: always, by a displacement.
    B,
    /// BO,BI,target: where BO and BI permit it, by a displacement.
    Bc,
    /// BO,BI,BH: where they permit it, to LR.
    Bclr,
    /// BO,BI,BH: where they permit it, to CTR.
    Bcctr,
    /// BO,BI,BH: where they permit it, to TAR.
    Bctar,
}

/// The rows that set one field of the condition register, by what it gets (Book I, fixed-point compare,
/// move and condition register instructions).
#[derive(Clone, Copy, Debug, PartialEq, Eq)]
pub enum FieldRow {
    /// BF,L,RA,SI or BF,L,RA,UI: how RA stands to the number, and SO.
    CompareNumber {
        /// Whether the numbers are signed.
        signed: bool,
    },
    /// BF,L,RA,RB: how RA stands to RB, and SO.
    Compare {
        /// Whether the numbers are signed.
        signed: bool,
    },
    /// BF,L,RA,RB: whether RA's low byte lies between two bytes of RB.
    InRange,
    /// BF,RA,RB: whether RA's low byte is one of RB's.
    EqualsByte,
    /// BF: OV, OV32, CA and CA32.
    FromXer,
    /// BF,BFA: another field.
    FromField,
    /// BT,BA,BB: its own content, with the bit BT made of the bits BA and BB.
    Logic(BitLogic),
}

/// What a row makes of two bits of the condition register.
#[derive(Clone, Copy, Debug, PartialEq, Eq)]
pub enum BitLogic {
    /// Neither bit is 1.
    Crnor,
    /// The first bit is 1, and the second 0.
    Crandc,
    /// One bit alone is 1.
    Crxor,
    /// Not both bits are 1.
    Crnand,
    /// Both bits are 1.
    Crand,
    /// Both bits are 1, or neither.
    Creqv,
    /// The first bit is 1, or the second 0.
    Crorc,
    /// One bit is 1, or both.
    Cror,
}

/// The rows that set a register by the condition register (Book I, fixed-point select, move and set
/// instructions).
#[derive(Clone, Copy, Debug, PartialEq, Eq)]
pub enum PickRow {
    /// RT,RA,RB,BC: RA|0 where the bit is 1, and else RB.
    Select,
    /// RT: the register whole.
    All,
    /// RT,FXM: the fields that the mask chooses.
    Chosen,
    /// RT,BFA: -1 where the field's LT is 1, 1 where else its GT is, and else 0.
    Sign,
    /// RT,BI: a number where the bit is 1, and else 0.
    Bit {
        /// Whether the number is -1, and else 1.
        negative: bool,
        /// Whether it is set where the bit is 0.
        reversed: bool,
    },
}

/// The rows that trap where a condition of TO holds (Book I, fixed-point trap instructions).
#[derive(Clone, Copy, Debug, PartialEq, Eq)]
pub enum TrapRow {
    /// TO,RA,SI: of RA and the number.
    TrapNumber {
        /// Whether whole registers are compared, and else low words.
        long: bool,
    },
    /// TO,RA,RB: of RA and RB.
    TrapRegister {
        /// Whether whole registers are compared, and else low words.
        long: bool,
    },
}

/// Where an access finds its effective address, and with it the places of its operands.
#[derive(Clone, Copy, Debug, PartialEq, Eq)]
pub enum Address {
    /// RA|0 and a signed number: RT,D(RA).
    Displaced,
    /// RA|0 and RB: RT,RA,RB.
    Indexed,
    /// RA|0 and RB: RA,RB.
    Block,
    /// RA|0, or the prefix's own address where R is 1, and a signed number of 34 bits: RT,D(RA),R.
    Prefixed,
}

/// A row of the system (Book II, synchronization; Book III, interrupts, registers by number, translation).
#[derive(Clone, Copy, Debug, PartialEq, Eq)]
pub struct SystemRow {
    /// What the row does.
    pub what: SystemWhat,
    /// Where it is privileged.
    pub privilege: Privilege,
}

/// What a row of the system does.
#[derive(Clone, Copy, Debug, PartialEq, Eq)]
pub enum SystemWhat {
    /// The instruction returns from an interrupt.
    Return {
        /// Whether it returns by HSRR0 and HSRR1, and not by SRR0 and SRR1.
        hypervisor: bool,
    },
    /// What is behind the instruction is fetched anew.
    Isync,
    /// L: accesses are ordered, and with L 2 what was told of translations is done.
    Sync,
    /// Accesses or what was told of translations are ordered; on one processor that is nothing.
    Order,
    /// RT: the machine state register is read.
    ReadMsr,
    /// RS,L: the machine state register is written, with L 1 a part of it.
    WriteMsr,
    /// RB,RS,RIC,PRS,R: kept translations are given up.
    Tlbie,
    /// RT,SPR or RT,TBR: a register is read by its number.
    ReadSpr,
    /// SPR,RS: a register is written by its number.
    WriteSpr,
    /// RT,L: a random number is asked for, and there is none.
    Random,
}

/// A row that accesses storage (Book I, fixed-point storage access instructions; Book II, cache
/// management and atomic update).
#[derive(Clone, Copy, Debug, PartialEq, Eq)]
pub struct StorageRow {
    /// What the row does with the bytes.
    pub what: MemWhat,
    /// How many bytes it accesses.
    pub len: u8,
    /// Where its address comes from.
    pub address: Address,
    /// Whether the effective address goes into RA.
    pub update: bool,
    /// Where it is privileged.
    pub privilege: Privilege,
}

/// The line of an arithmetic row: what the unit does, from which operands, with which carry, and what is written beside.
macro_rules! alu {
    ($op:ident, $inputs:ident, $carry:ident, $ending:ident) => {
        Operation::Alu(AluRow { op: AluOp::$op, inputs: Inputs::$inputs, carry: Carry::$carry, ending: Ending::$ending })
    };
}

/// The line of a product row: how it reads its factors, from which operands, what it adds, which half, whether of words.
macro_rules! product {
    ($kind:ident, $inputs:ident, $addend:ident, $high:literal, $word:literal) => {
        Operation::Product(ProductRow { kind: MulKind::$kind, inputs: Inputs::$inputs, addend: Addend::$addend, high: $high, word: $word })
    };
}

/// The line of a quotient row: how it reads its numbers, whether zeros stand behind the dividend, whether it gives the rest.
macro_rules! quotient {
    ($kind:ident, $extended:literal, $rest:literal) => {
        Operation::Quotient(QuotientRow { kind: DivKind::$kind, extended: $extended, rest: $rest })
    };
}

/// What each row does, in the order of the instruction table.
#[rattlefmt::skip]
static OPERATIONS: [Operation; 224] = [
    alu!(Addi, BaseNumber, NoCarry, Plain), // addi
    alu!(Addis, BaseNumber, NoCarry, Plain), // addis
    alu!(Addic, SourceNumber, NoCarry, Carries), // addic
    alu!(Addic, SourceNumber, NoCarry, CarriesAndRecords), // addic.
    alu!(Subfic, SourceNumber, NoCarry, Carries), // subfic
    product!(Signed, SourceNumber, NoAddend, false, false), // mulli
    Operation::Field(FieldRow::CompareNumber { signed: true }), // cmpi
    Operation::Field(FieldRow::CompareNumber { signed: false }), // cmpli
    Operation::Trap(TrapRow::TrapNumber { long: true }), // tdi
    Operation::Trap(TrapRow::TrapNumber { long: false }), // twi
    alu!(Ori, SourceNumber, NoCarry, Plain), // ori
    alu!(Oris, SourceNumber, NoCarry, Plain), // oris
    alu!(Xori, SourceNumber, NoCarry, Plain), // xori
    alu!(Xoris, SourceNumber, NoCarry, Plain), // xoris
    alu!(Andi, SourceNumber, NoCarry, Records), // andi.
    alu!(Andis, SourceNumber, NoCarry, Records), // andis.
    alu!(Addpcis, Next, NoCarry, Plain), // addpcis
    Operation::Branch(BranchRow::B), // b
    Operation::Branch(BranchRow::Bc), // bc
    Operation::Branch(BranchRow::Bclr), // bclr
    Operation::Branch(BranchRow::Bcctr), // bcctr
    Operation::Branch(BranchRow::Bctar), // bctar
    Operation::Field(FieldRow::Logic(BitLogic::Crnor)), // crnor
    Operation::Field(FieldRow::Logic(BitLogic::Crandc)), // crandc
    Operation::Field(FieldRow::Logic(BitLogic::Crxor)), // crxor
    Operation::Field(FieldRow::Logic(BitLogic::Crnand)), // crnand
    Operation::Field(FieldRow::Logic(BitLogic::Crand)), // crand
    Operation::Field(FieldRow::Logic(BitLogic::Creqv)), // creqv
    Operation::Field(FieldRow::Logic(BitLogic::Crorc)), // crorc
    Operation::Field(FieldRow::Logic(BitLogic::Cror)), // cror
    Operation::Field(FieldRow::FromField), // mcrf
    alu!(Rlwinm, WordMask, NoCarry, Plain), // rlwinm
    alu!(Rlwnm, WordMaskBy, NoCarry, Plain), // rlwnm
    alu!(Rlwimi, WordInsert, NoCarry, Plain), // rlwimi
    alu!(Rldicl, Left, NoCarry, Plain), // rldicl
    alu!(Rldicr, Right, NoCarry, Plain), // rldicr
    alu!(Rldic, Middle, NoCarry, Plain), // rldic
    alu!(Rldimi, Insert, NoCarry, Plain), // rldimi
    alu!(Rldcl, LeftBy, NoCarry, Plain), // rldcl
    alu!(Rldcr, RightBy, NoCarry, Plain), // rldcr
    product!(Signed, Three, SignedAddend, true, false), // maddhd
    product!(Unsigned, Three, PlainAddend, true, false), // maddhdu
    product!(Signed, Three, PlainAddend, false, false), // maddld
    alu!(Add, Two, NoCarry, Plain), // add
    alu!(Subf, Two, NoCarry, Plain), // subf
    alu!(Neg, One, NoCarry, Plain), // neg
    alu!(Addc, Two, NoCarry, Carries), // addc
    alu!(Subfc, Two, NoCarry, Carries), // subfc
    alu!(Adde, Two, Ca, Carries), // adde
    alu!(Subfe, Two, Ca, Carries), // subfe
    alu!(Addme, One, Ca, Carries), // addme
    alu!(Subfme, One, Ca, Carries), // subfme
    alu!(Addze, One, Ca, Carries), // addze
    alu!(Subfze, One, Ca, Carries), // subfze
    product!(Signed, Two, NoAddend, false, true), // mullw
    product!(Signed, Two, NoAddend, false, false), // mulld
    product!(Signed, Two, NoAddend, true, false), // mulhd
    product!(Unsigned, Two, NoAddend, true, false), // mulhdu
    product!(Signed, Two, NoAddend, true, true), // mulhw
    product!(Unsigned, Two, NoAddend, true, true), // mulhwu
    quotient!(Signed64, false, false), // divd
    quotient!(Unsigned64, false, false), // divdu
    quotient!(Signed32, false, false), // divw
    quotient!(Unsigned32, false, false), // divwu
    quotient!(Signed64, true, false), // divde
    quotient!(Unsigned64, true, false), // divdeu
    quotient!(Signed32, true, false), // divwe
    quotient!(Unsigned32, true, false), // divweu
    quotient!(Signed64, false, true), // modsd
    quotient!(Unsigned64, false, true), // modud
    quotient!(Signed32, false, true), // modsw
    quotient!(Unsigned32, false, true), // moduw
    alu!(Addex, TwoKind, Ov, Overflows), // addex
    alu!(And, Two, NoCarry, Plain), // and
    alu!(Andc, Two, NoCarry, Plain), // andc
    alu!(Or, Two, NoCarry, Plain), // or
    alu!(Orc, Two, NoCarry, Plain), // orc
    alu!(Xor, Two, NoCarry, Plain), // xor
    alu!(Eqv, Two, NoCarry, Plain), // eqv
    alu!(Nand, Two, NoCarry, Plain), // nand
    alu!(Nor, Two, NoCarry, Plain), // nor
    alu!(Slw, Two, NoCarry, Plain), // slw
    alu!(Srw, Two, NoCarry, Plain), // srw
    alu!(Sld, Two, NoCarry, Plain), // sld
    alu!(Srd, Two, NoCarry, Plain), // srd
    alu!(Sraw, Two, NoCarry, Carries), // sraw
    alu!(Srawi, WordShift, NoCarry, Carries), // srawi
    alu!(Srad, Two, NoCarry, Carries), // srad
    alu!(Sradi, Shift, NoCarry, Carries), // sradi
    alu!(Extswsli, Shift, NoCarry, Plain), // extswsli
    alu!(Extsb, One, NoCarry, Plain), // extsb
    alu!(Extsh, One, NoCarry, Plain), // extsh
    alu!(Extsw, One, NoCarry, Plain), // extsw
    alu!(Cntlzw, One, NoCarry, Plain), // cntlzw
    alu!(Cntlzd, One, NoCarry, Plain), // cntlzd
    alu!(Cnttzw, One, NoCarry, Plain), // cnttzw
    alu!(Cnttzd, One, NoCarry, Plain), // cnttzd
    alu!(Cntlzdm, Two, NoCarry, Plain), // cntlzdm
    alu!(Cnttzdm, Two, NoCarry, Plain), // cnttzdm
    alu!(Popcntb, One, NoCarry, Plain), // popcntb
    alu!(Popcntw, One, NoCarry, Plain), // popcntw
    alu!(Popcntd, One, NoCarry, Plain), // popcntd
    alu!(Prtyw, One, NoCarry, Plain), // prtyw
    alu!(Prtyd, One, NoCarry, Plain), // prtyd
    alu!(Brh, One, NoCarry, Plain), // brh
    alu!(Brw, One, NoCarry, Plain), // brw
    alu!(Brd, One, NoCarry, Plain), // brd
    alu!(Pdepd, Two, NoCarry, Plain), // pdepd
    alu!(Pextd, Two, NoCarry, Plain), // pextd
    alu!(Cfuged, Two, NoCarry, Plain), // cfuged
    alu!(Bpermd, Two, NoCarry, Plain), // bpermd
    alu!(Cmpb, Two, NoCarry, Plain), // cmpb
    Operation::Field(FieldRow::Compare { signed: true }), // cmp
    Operation::Field(FieldRow::Compare { signed: false }), // cmpl
    Operation::Trap(TrapRow::TrapRegister { long: false }), // tw
    Operation::Trap(TrapRow::TrapRegister { long: true }), // td
    Operation::Pick(PickRow::Select), // isel
    Operation::Pick(PickRow::All), // mfcr
    Operation::Pick(PickRow::Chosen), // mfocrf
    Operation::Fields, // mtcrf
    Operation::Fields, // mtocrf
    Operation::Pick(PickRow::Sign), // setb
    Operation::Pick(PickRow::Bit { negative: false, reversed: false }), // setbc
    Operation::Pick(PickRow::Bit { negative: false, reversed: true }), // setbcr
    Operation::Pick(PickRow::Bit { negative: true, reversed: false }), // setnbc
    Operation::Pick(PickRow::Bit { negative: true, reversed: true }), // setnbcr
    Operation::Field(FieldRow::InRange), // cmprb
    Operation::Field(FieldRow::EqualsByte), // cmpeqb
    Operation::Field(FieldRow::FromXer), // mcrxrx
    Operation::Storage(StorageRow { what: MemWhat::Load { signed: false, reversed: false, reserve: false }, len: 4, address: Address::Displaced, update: false, privilege: Privilege::Never }), // lwz
    Operation::Storage(StorageRow { what: MemWhat::Load { signed: false, reversed: false, reserve: false }, len: 4, address: Address::Displaced, update: true, privilege: Privilege::Never }), // lwzu
    Operation::Storage(StorageRow { what: MemWhat::Load { signed: false, reversed: false, reserve: false }, len: 1, address: Address::Displaced, update: false, privilege: Privilege::Never }), // lbz
    Operation::Storage(StorageRow { what: MemWhat::Load { signed: false, reversed: false, reserve: false }, len: 1, address: Address::Displaced, update: true, privilege: Privilege::Never }), // lbzu
    Operation::Storage(StorageRow { what: MemWhat::Store { reversed: false }, len: 4, address: Address::Displaced, update: false, privilege: Privilege::Never }), // stw
    Operation::Storage(StorageRow { what: MemWhat::Store { reversed: false }, len: 4, address: Address::Displaced, update: true, privilege: Privilege::Never }), // stwu
    Operation::Storage(StorageRow { what: MemWhat::Store { reversed: false }, len: 1, address: Address::Displaced, update: false, privilege: Privilege::Never }), // stb
    Operation::Storage(StorageRow { what: MemWhat::Store { reversed: false }, len: 1, address: Address::Displaced, update: true, privilege: Privilege::Never }), // stbu
    Operation::Storage(StorageRow { what: MemWhat::Load { signed: false, reversed: false, reserve: false }, len: 2, address: Address::Displaced, update: false, privilege: Privilege::Never }), // lhz
    Operation::Storage(StorageRow { what: MemWhat::Load { signed: false, reversed: false, reserve: false }, len: 2, address: Address::Displaced, update: true, privilege: Privilege::Never }), // lhzu
    Operation::Storage(StorageRow { what: MemWhat::Load { signed: true, reversed: false, reserve: false }, len: 2, address: Address::Displaced, update: false, privilege: Privilege::Never }), // lha
    Operation::Storage(StorageRow { what: MemWhat::Load { signed: true, reversed: false, reserve: false }, len: 2, address: Address::Displaced, update: true, privilege: Privilege::Never }), // lhau
    Operation::Storage(StorageRow { what: MemWhat::Store { reversed: false }, len: 2, address: Address::Displaced, update: false, privilege: Privilege::Never }), // sth
    Operation::Storage(StorageRow { what: MemWhat::Store { reversed: false }, len: 2, address: Address::Displaced, update: true, privilege: Privilege::Never }), // sthu
    Operation::Storage(StorageRow { what: MemWhat::Load { signed: false, reversed: false, reserve: false }, len: 8, address: Address::Displaced, update: false, privilege: Privilege::Never }), // ld
    Operation::Storage(StorageRow { what: MemWhat::Load { signed: false, reversed: false, reserve: false }, len: 8, address: Address::Displaced, update: true, privilege: Privilege::Never }), // ldu
    Operation::Storage(StorageRow { what: MemWhat::Load { signed: true, reversed: false, reserve: false }, len: 4, address: Address::Displaced, update: false, privilege: Privilege::Never }), // lwa
    Operation::Storage(StorageRow { what: MemWhat::Store { reversed: false }, len: 8, address: Address::Displaced, update: false, privilege: Privilege::Never }), // std
    Operation::Storage(StorageRow { what: MemWhat::Store { reversed: false }, len: 8, address: Address::Displaced, update: true, privilege: Privilege::Never }), // stdu
    Operation::Storage(StorageRow { what: MemWhat::Load { signed: false, reversed: false, reserve: false }, len: 8, address: Address::Indexed, update: false, privilege: Privilege::Never }), // ldx
    Operation::Storage(StorageRow { what: MemWhat::Load { signed: false, reversed: false, reserve: false }, len: 4, address: Address::Indexed, update: false, privilege: Privilege::Never }), // lwzx
    Operation::Storage(StorageRow { what: MemWhat::Load { signed: false, reversed: false, reserve: false }, len: 8, address: Address::Indexed, update: true, privilege: Privilege::Never }), // ldux
    Operation::Storage(StorageRow { what: MemWhat::Load { signed: false, reversed: false, reserve: false }, len: 4, address: Address::Indexed, update: true, privilege: Privilege::Never }), // lwzux
    Operation::Storage(StorageRow { what: MemWhat::Load { signed: false, reversed: false, reserve: false }, len: 1, address: Address::Indexed, update: false, privilege: Privilege::Never }), // lbzx
    Operation::Storage(StorageRow { what: MemWhat::Load { signed: false, reversed: false, reserve: false }, len: 1, address: Address::Indexed, update: true, privilege: Privilege::Never }), // lbzux
    Operation::Storage(StorageRow { what: MemWhat::Load { signed: false, reversed: false, reserve: false }, len: 2, address: Address::Indexed, update: false, privilege: Privilege::Never }), // lhzx
    Operation::Storage(StorageRow { what: MemWhat::Load { signed: false, reversed: false, reserve: false }, len: 2, address: Address::Indexed, update: true, privilege: Privilege::Never }), // lhzux
    Operation::Storage(StorageRow { what: MemWhat::Load { signed: true, reversed: false, reserve: false }, len: 4, address: Address::Indexed, update: false, privilege: Privilege::Never }), // lwax
    Operation::Storage(StorageRow { what: MemWhat::Load { signed: true, reversed: false, reserve: false }, len: 2, address: Address::Indexed, update: false, privilege: Privilege::Never }), // lhax
    Operation::Storage(StorageRow { what: MemWhat::Load { signed: true, reversed: false, reserve: false }, len: 4, address: Address::Indexed, update: true, privilege: Privilege::Never }), // lwaux
    Operation::Storage(StorageRow { what: MemWhat::Load { signed: true, reversed: false, reserve: false }, len: 2, address: Address::Indexed, update: true, privilege: Privilege::Never }), // lhaux
    Operation::Storage(StorageRow { what: MemWhat::Load { signed: false, reversed: true, reserve: false }, len: 8, address: Address::Indexed, update: false, privilege: Privilege::Never }), // ldbrx
    Operation::Storage(StorageRow { what: MemWhat::Load { signed: false, reversed: true, reserve: false }, len: 4, address: Address::Indexed, update: false, privilege: Privilege::Never }), // lwbrx
    Operation::Storage(StorageRow { what: MemWhat::Load { signed: false, reversed: true, reserve: false }, len: 2, address: Address::Indexed, update: false, privilege: Privilege::Never }), // lhbrx
    Operation::Storage(StorageRow { what: MemWhat::Store { reversed: false }, len: 8, address: Address::Indexed, update: false, privilege: Privilege::Never }), // stdx
    Operation::Storage(StorageRow { what: MemWhat::Store { reversed: false }, len: 4, address: Address::Indexed, update: false, privilege: Privilege::Never }), // stwx
    Operation::Storage(StorageRow { what: MemWhat::Store { reversed: false }, len: 8, address: Address::Indexed, update: true, privilege: Privilege::Never }), // stdux
    Operation::Storage(StorageRow { what: MemWhat::Store { reversed: false }, len: 4, address: Address::Indexed, update: true, privilege: Privilege::Never }), // stwux
    Operation::Storage(StorageRow { what: MemWhat::Store { reversed: false }, len: 1, address: Address::Indexed, update: false, privilege: Privilege::Never }), // stbx
    Operation::Storage(StorageRow { what: MemWhat::Store { reversed: false }, len: 1, address: Address::Indexed, update: true, privilege: Privilege::Never }), // stbux
    Operation::Storage(StorageRow { what: MemWhat::Store { reversed: false }, len: 2, address: Address::Indexed, update: false, privilege: Privilege::Never }), // sthx
    Operation::Storage(StorageRow { what: MemWhat::Store { reversed: false }, len: 2, address: Address::Indexed, update: true, privilege: Privilege::Never }), // sthux
    Operation::Storage(StorageRow { what: MemWhat::Store { reversed: true }, len: 8, address: Address::Indexed, update: false, privilege: Privilege::Never }), // stdbrx
    Operation::Storage(StorageRow { what: MemWhat::Store { reversed: true }, len: 4, address: Address::Indexed, update: false, privilege: Privilege::Never }), // stwbrx
    Operation::Storage(StorageRow { what: MemWhat::Store { reversed: true }, len: 2, address: Address::Indexed, update: false, privilege: Privilege::Never }), // sthbrx
    Operation::Storage(StorageRow { what: MemWhat::Load { signed: false, reversed: false, reserve: true }, len: 4, address: Address::Indexed, update: false, privilege: Privilege::Never }), // lwarx
    Operation::Storage(StorageRow { what: MemWhat::Load { signed: false, reversed: false, reserve: true }, len: 1, address: Address::Indexed, update: false, privilege: Privilege::Never }), // lbarx
    Operation::Storage(StorageRow { what: MemWhat::Load { signed: false, reversed: false, reserve: true }, len: 8, address: Address::Indexed, update: false, privilege: Privilege::Never }), // ldarx
    Operation::Storage(StorageRow { what: MemWhat::Load { signed: false, reversed: false, reserve: true }, len: 2, address: Address::Indexed, update: false, privilege: Privilege::Never }), // lharx
    Operation::Storage(StorageRow { what: MemWhat::Conditional { reversed: false }, len: 4, address: Address::Indexed, update: false, privilege: Privilege::Never }), // stwcx.
    Operation::Storage(StorageRow { what: MemWhat::Conditional { reversed: false }, len: 8, address: Address::Indexed, update: false, privilege: Privilege::Never }), // stdcx.
    Operation::Storage(StorageRow { what: MemWhat::Conditional { reversed: false }, len: 1, address: Address::Indexed, update: false, privilege: Privilege::Never }), // stbcx.
    Operation::Storage(StorageRow { what: MemWhat::Conditional { reversed: false }, len: 2, address: Address::Indexed, update: false, privilege: Privilege::Never }), // sthcx.
    Operation::Storage(StorageRow { what: MemWhat::Load { signed: false, reversed: false, reserve: false }, len: 4, address: Address::Indexed, update: false, privilege: Privilege::Always }), // lwzcix
    Operation::Storage(StorageRow { what: MemWhat::Load { signed: false, reversed: false, reserve: false }, len: 2, address: Address::Indexed, update: false, privilege: Privilege::Always }), // lhzcix
    Operation::Storage(StorageRow { what: MemWhat::Load { signed: false, reversed: false, reserve: false }, len: 1, address: Address::Indexed, update: false, privilege: Privilege::Always }), // lbzcix
    Operation::Storage(StorageRow { what: MemWhat::Load { signed: false, reversed: false, reserve: false }, len: 8, address: Address::Indexed, update: false, privilege: Privilege::Always }), // ldcix
    Operation::Storage(StorageRow { what: MemWhat::Store { reversed: false }, len: 4, address: Address::Indexed, update: false, privilege: Privilege::Always }), // stwcix
    Operation::Storage(StorageRow { what: MemWhat::Store { reversed: false }, len: 2, address: Address::Indexed, update: false, privilege: Privilege::Always }), // sthcix
    Operation::Storage(StorageRow { what: MemWhat::Store { reversed: false }, len: 1, address: Address::Indexed, update: false, privilege: Privilege::Always }), // stbcix
    Operation::Storage(StorageRow { what: MemWhat::Store { reversed: false }, len: 8, address: Address::Indexed, update: false, privilege: Privilege::Always }), // stdcix
    Operation::Storage(StorageRow { what: MemWhat::Clean, len: 1, address: Address::Block, update: false, privilege: Privilege::Never }), // dcbst
    Operation::Storage(StorageRow { what: MemWhat::Clean, len: 1, address: Address::Block, update: false, privilege: Privilege::Never }), // dcbf
    Operation::Hint, // dcbtst
    Operation::Hint, // dcbt
    Operation::Storage(StorageRow { what: MemWhat::Icbi, len: 1, address: Address::Block, update: false, privilege: Privilege::Never }), // icbi
    Operation::Storage(StorageRow { what: MemWhat::Zero, len: 64, address: Address::Block, update: false, privilege: Privilege::Never }), // dcbz
    Operation::Call, // sc
    Operation::System(SystemRow { what: SystemWhat::Return { hypervisor: false }, privilege: Privilege::Always }), // rfid
    Operation::System(SystemRow { what: SystemWhat::Return { hypervisor: true }, privilege: Privilege::Always }), // hrfid
    Operation::System(SystemRow { what: SystemWhat::Isync, privilege: Privilege::Never }), // isync
    Operation::System(SystemRow { what: SystemWhat::Sync, privilege: Privilege::Heavy }), // sync
    Operation::System(SystemRow { what: SystemWhat::Order, privilege: Privilege::Never }), // eieio
    Operation::System(SystemRow { what: SystemWhat::Order, privilege: Privilege::Always }), // tlbsync
    Operation::System(SystemRow { what: SystemWhat::ReadMsr, privilege: Privilege::Always }), // mfmsr
    Operation::System(SystemRow { what: SystemWhat::WriteMsr, privilege: Privilege::Always }), // mtmsr
    Operation::System(SystemRow { what: SystemWhat::WriteMsr, privilege: Privilege::Always }), // mtmsrd
    Operation::System(SystemRow { what: SystemWhat::Tlbie, privilege: Privilege::Always }), // tlbie
    Operation::System(SystemRow { what: SystemWhat::Tlbie, privilege: Privilege::Always }), // tlbiel
    Operation::System(SystemRow { what: SystemWhat::ReadSpr, privilege: Privilege::Never }), // mfspr
    Operation::System(SystemRow { what: SystemWhat::WriteSpr, privilege: Privilege::Never }), // mtspr
    Operation::System(SystemRow { what: SystemWhat::ReadSpr, privilege: Privilege::Never }), // mftb
    Operation::System(SystemRow { what: SystemWhat::Random, privilege: Privilege::Never }), // darn
    alu!(Paddi, Relative, NoCarry, Plain), // paddi
    Operation::Storage(StorageRow { what: MemWhat::Load { signed: false, reversed: false, reserve: false }, len: 4, address: Address::Prefixed, update: false, privilege: Privilege::Never }), // plwz
    Operation::Storage(StorageRow { what: MemWhat::Load { signed: false, reversed: false, reserve: false }, len: 1, address: Address::Prefixed, update: false, privilege: Privilege::Never }), // plbz
    Operation::Storage(StorageRow { what: MemWhat::Store { reversed: false }, len: 4, address: Address::Prefixed, update: false, privilege: Privilege::Never }), // pstw
    Operation::Storage(StorageRow { what: MemWhat::Store { reversed: false }, len: 1, address: Address::Prefixed, update: false, privilege: Privilege::Never }), // pstb
    Operation::Storage(StorageRow { what: MemWhat::Load { signed: false, reversed: false, reserve: false }, len: 2, address: Address::Prefixed, update: false, privilege: Privilege::Never }), // plhz
    Operation::Storage(StorageRow { what: MemWhat::Load { signed: true, reversed: false, reserve: false }, len: 2, address: Address::Prefixed, update: false, privilege: Privilege::Never }), // plha
    Operation::Storage(StorageRow { what: MemWhat::Store { reversed: false }, len: 2, address: Address::Prefixed, update: false, privilege: Privilege::Never }), // psth
    Operation::Storage(StorageRow { what: MemWhat::Load { signed: true, reversed: false, reserve: false }, len: 4, address: Address::Prefixed, update: false, privilege: Privilege::Never }), // plwa
    Operation::Storage(StorageRow { what: MemWhat::Load { signed: false, reversed: false, reserve: false }, len: 8, address: Address::Prefixed, update: false, privilege: Privilege::Never }), // pld
    Operation::Storage(StorageRow { what: MemWhat::Store { reversed: false }, len: 8, address: Address::Prefixed, update: false, privilege: Privilege::Never }), // pstd
    Operation::Hint, // pnop
];

/// What the row at a place of the instruction table does (Book I, fixed-point and branch instructions;
/// Book II, atomic update and cache management). Places are counted from 0, in the table's order; an
/// access's length is in bytes. It can't fail.
#[tactic(auto, unfolding(crate::specs::Operations::operations, crate::specs::Operations::operation_lines))]
pub fn operation_at(row: u16) -> Operation
    requires { row < row_count }
    ensures { slice_get operations row ≡ Some result }
{
    OPERATIONS[row as usize]
}
