ghost use Rattle.std.specs.Prelude.{◌≡◌, ◌<◌};
ghost use Rattle.mw_isa.specs.Places.{IsRegister, access_roles, branch_roles, field_roles, fields_roles, input_roles, operand_of, pick_roles, places_in, places_of, system_roles, trap_roles, with_datum};

use crate::memory::MemWhat;
use crate::operation::{
    Address, BranchRow, FieldRow, Inputs, Operation, PickRow, SystemWhat, TrapRow,
};
use crate::place::Places;
use mw_decode::Insn;

/// No operand is looked at.
const NONE: Places = Places {
    written: None,
    first: None,
    base: None,
    second: None,
    third: None,
    number: None,
    amount: None,
    start: None,
    end: None,
    own: None,
};

/// Where the operands of an arithmetic row stand.
#[rattlefmt::skip]
#[inline(always)]
fn input_places(inputs: Inputs) -> Places
    ensures { result ≡ places_in (input_roles inputs) }
{
    match inputs {
        Inputs::BaseNumber => Places { written: Some(0), base: Some(1), number: Some(2), ..NONE },
        Inputs::SourceNumber => Places { written: Some(0), first: Some(1), number: Some(2), ..NONE },
        Inputs::Two => Places { written: Some(0), first: Some(1), second: Some(2), ..NONE },
        Inputs::TwoKind => Places { written: Some(0), first: Some(1), second: Some(2), ..NONE },
        Inputs::Three => Places { written: Some(0), first: Some(1), second: Some(2), third: Some(3), ..NONE },
        Inputs::One => Places { written: Some(0), first: Some(1), ..NONE },
        Inputs::Relative => Places { written: Some(0), base: Some(1), number: Some(2), own: Some(3), ..NONE },
        Inputs::Next => Places { written: Some(0), number: Some(1), ..NONE },
        Inputs::WordShift => Places { written: Some(0), first: Some(1), amount: Some(2), ..NONE },
        Inputs::Shift => Places { written: Some(0), first: Some(1), amount: Some(2), ..NONE },
        Inputs::WordMask => Places { written: Some(0), first: Some(1), number: Some(2), start: Some(3), end: Some(4), ..NONE },
        Inputs::WordMaskBy => Places { written: Some(0), first: Some(1), second: Some(2), start: Some(3), end: Some(4), ..NONE },
        Inputs::WordInsert => Places { written: Some(0), third: Some(0), first: Some(1), number: Some(2), start: Some(3), end: Some(4), ..NONE },
        Inputs::Left => Places { written: Some(0), first: Some(1), number: Some(2), start: Some(3), ..NONE },
        Inputs::Right => Places { written: Some(0), first: Some(1), number: Some(2), end: Some(3), ..NONE },
        Inputs::Middle => Places { written: Some(0), first: Some(1), number: Some(2), start: Some(3), ..NONE },
        Inputs::Insert => Places { written: Some(0), third: Some(0), first: Some(1), number: Some(2), start: Some(3), ..NONE },
        Inputs::LeftBy => Places { written: Some(0), first: Some(1), second: Some(2), start: Some(3), ..NONE },
        Inputs::RightBy => Places { written: Some(0), first: Some(1), second: Some(2), end: Some(3), ..NONE },
    }
}

/// Where the operands of an access stand: the register that it loads or stores, if there is one, comes first.
#[inline(always)]
fn access_places(address: Address, what: MemWhat) -> Places
    ensures { result ≡ places_in (access_roles address what) }
{
    match address {
        Address::Displaced => with_datum(
            what,
            Places {
                number: Some(1),
                base: Some(2),
                ..NONE
            },
        ),
        Address::Indexed => with_datum(
            what,
            Places {
                base: Some(1),
                second: Some(2),
                ..NONE
            },
        ),
        Address::Block => Places {
            base: Some(0),
            second: Some(1),
            ..NONE
        },
        Address::Prefixed => with_datum(
            what,
            Places {
                number: Some(1),
                base: Some(2),
                own: Some(3),
                ..NONE
            },
        ),
    }
}

/// The places with the register at place 0, which is written by a load and read as c by a store.
#[inline(always)]
fn with_datum(what: MemWhat, places: Places) -> Places
    ensures { result ≡ with_datum what places }
{
    match what {
        MemWhat::Load { .. } => Places {
            written: Some(0),
            ..places
        },
        MemWhat::Store { .. } => Places {
            third: Some(0),
            ..places
        },
        MemWhat::Conditional { .. } => Places {
            third: Some(0),
            ..places
        },
        MemWhat::Zero => places,
        MemWhat::Clean => places,
        MemWhat::Icbi => places,
    }
}

/// Where the operands of a branch stand.
#[inline(always)]
fn branch_places(row: BranchRow) -> Places
    ensures { result ≡ places_in (branch_roles row) }
{
    match row {
        BranchRow::B => Places {
            number: Some(0),
            ..NONE
        },
        BranchRow::Bc => Places {
            number: Some(2),
            ..NONE
        },
        BranchRow::Bclr => NONE,
        BranchRow::Bcctr => NONE,
        BranchRow::Bctar => NONE,
    }
}

/// Where the operands of a row that sets a field of the condition register stand.
#[rattlefmt::skip]
fn field_places(row: FieldRow) -> Places
    ensures { result ≡ places_in (field_roles row) }
{
    match row {
        FieldRow::CompareNumber { .. } => Places { first: Some(2), number: Some(3), ..NONE },
        FieldRow::Compare { .. } => Places { first: Some(2), second: Some(3), ..NONE },
        FieldRow::InRange => Places { first: Some(2), second: Some(3), ..NONE },
        FieldRow::EqualsByte => Places { first: Some(1), second: Some(2), ..NONE },
        FieldRow::FromXer => NONE,
        FieldRow::FromField => NONE,
        FieldRow::Logic(_) => NONE,
    }
}

/// Where the operands of a row that sets the fields of a mask stand.
fn fields_places() -> Places
    ensures { result ≡ places_in fields_roles }
{
    Places {
        first: Some(1),
        ..NONE
    }
}

/// Where the operands of a row that sets a register by the condition register stand.
#[rattlefmt::skip]
fn pick_places(row: PickRow) -> Places
    ensures { result ≡ places_in (pick_roles row) }
{
    match row {
        PickRow::Select => Places { written: Some(0), base: Some(1), second: Some(2), ..NONE },
        PickRow::All => Places { written: Some(0), ..NONE },
        PickRow::Chosen => Places { written: Some(0), ..NONE },
        PickRow::Sign => Places { written: Some(0), ..NONE },
        PickRow::Bit { .. } => Places { written: Some(0), ..NONE },
    }
}

/// Where the operands of a trap stand.
#[rattlefmt::skip]
fn trap_places(row: TrapRow) -> Places
    ensures { result ≡ places_in (trap_roles row) }
{
    match row {
        TrapRow::TrapNumber { .. } => Places { first: Some(1), number: Some(2), ..NONE },
        TrapRow::TrapRegister { .. } => Places { first: Some(1), second: Some(2), ..NONE },
    }
}

/// Where the operands of a row of the system stand.
#[rattlefmt::skip]
fn system_places(what: SystemWhat) -> Places
    ensures { result ≡ places_in (system_roles what) }
{
    match what {
        SystemWhat::Return { .. } => NONE,
        SystemWhat::Isync => NONE,
        SystemWhat::Sync => NONE,
        SystemWhat::Order => NONE,
        SystemWhat::ReadMsr => Places { written: Some(0), ..NONE },
        SystemWhat::WriteMsr => Places { first: Some(0), ..NONE },
        SystemWhat::Tlbie => Places { second: Some(0), first: Some(1), ..NONE },
        SystemWhat::ReadSpr => Places { written: Some(0), ..NONE },
        SystemWhat::WriteSpr => Places { first: Some(1), ..NONE },
        SystemWhat::Random => Places { written: Some(0), ..NONE },
    }
}

/// Where the operands of an operation stand, by what they are to it (Book I, instruction formats).
#[inline(always)]
pub fn places_of(operation: Operation) -> Places
    ensures { result ≡ places_of operation }
{
    match operation {
        Operation::Alu(row) => input_places(row.inputs),
        Operation::Product(row) => input_places(row.inputs),
        Operation::Quotient(_) => input_places(Inputs::Two),
        Operation::Branch(row) => branch_places(row),
        Operation::Field(row) => field_places(row),
        Operation::Fields => fields_places(),
        Operation::Pick(row) => pick_places(row),
        Operation::Trap(row) => trap_places(row),
        Operation::Storage(row) => access_places(row.address, row.what),
        Operation::Hint => NONE,
        Operation::Call => NONE,
        Operation::System(row) => system_places(row.what),
    }
}

/// The operand at a place, counted from 0: a register's number, or a number in 64 bits, where a signed one
/// is extended; 0 where the instruction has fewer operands.
#[inline(always)]
pub fn operand_of(insn: &Insn, place: u8) -> u64
    ensures { result ≡ operand_of insn.now place }
{
    let place = usize::from(place);
    if place < insn.ops.len() {
        insn.ops[place].cast_unsigned()
    } else {
        0
    }
}

/// The register at a place.
#[inline(always)]
pub fn register(insn: &Insn, place: u8) -> u8
    requires { IsRegister insn.now place }
    ensures value { result ≡ operand_of insn.now place }
    ensures bound { result < 32 }
{
    operand_of(insn, place) as u8
}

/// The number of five bits at a place: BO, BI, a bit of the condition register, or TO.
pub fn code(insn: &Insn, place: u8) -> u8
    requires { operand_of insn.now place < 32 }
    ensures value { result ≡ operand_of insn.now place }
    ensures bound { result < 32 }
{
    operand_of(insn, place) as u8
}

/// The number of a field of the condition register at a place.
pub fn field(insn: &Insn, place: u8) -> u8
    requires { operand_of insn.now place < 8 }
    ensures value { result ≡ operand_of insn.now place }
    ensures bound { result < 8 }
{
    operand_of(insn, place) as u8
}

/// The number of a special purpose register at a place.
pub fn spr(insn: &Insn, place: u8) -> u16
    requires { operand_of insn.now place < 1024 }
    ensures { result ≡ operand_of insn.now place }
{
    operand_of(insn, place) as u16
}

/// The mask of fields at a place.
pub fn mask(insn: &Insn, place: u8) -> u8
    requires { operand_of insn.now place < 256 }
    ensures { result ≡ operand_of insn.now place }
{
    operand_of(insn, place) as u8
}
