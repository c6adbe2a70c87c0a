ghost use Rattle.std.specs.Prelude.{◌≡◌, ◌<◌};
ghost use Rattle.mw_isa.specs.Places.{AreLimited, HasLimits, branch_roles, field_roles, pick_roles};
ghost use Rattle.mw_isa.specs.Special.{bi_of, bo_of, branch_special, field_special, fields_alone, goes_to_ctr, goes_to_lr, goes_to_tar, nothing, picked_fields, special_of, three_fields, xer_alone};

use crate::condition::{bo_bit, falls, field_mask};
use crate::ending::{long_reads_xer, reads_xer};
use crate::operation::{BranchRow, FieldRow, Operation, PickRow};
use crate::placing::{code, field, mask};
use crate::sources::Special;
use mw_decode::Insn;

/// Nothing is read beside the operands.
fn nothing() -> Special
    ensures { result ≡ nothing }
{
    Special {
        fields: 0,
        xer: false,
        lr: false,
        ctr: false,
        tar: false,
    }
}

/// XER alone, where it is asked.
fn xer_alone(asked: bool) -> Special
    ensures { result ≡ xer_alone asked }
{
    Special {
        xer: asked,
        ..nothing()
    }
}

/// Fields of the condition register alone.
fn fields_alone(mask: u8) -> Special
    ensures { result ≡ fields_alone mask }
{
    Special {
        fields: mask,
        ..nothing()
    }
}

/// The fields of three bits.
fn three_fields(a: u8, b: u8, c: u8) -> u8
    requires first { a < 32 }
    requires second { b < 32 }
    requires third { c < 32 }
    ensures { result ≡ three_fields a b c }
{
    field_mask(a / 4) | (field_mask(b / 4) | field_mask(c / 4))
}

/// BO of a branch: of b that of one that is always taken.
pub fn bo_of(row: BranchRow, insn: &Insn) -> u8
    requires { AreLimited insn.now 0 (branch_roles row) }
    ensures { result ≡ bo_of row insn.now }
{
    match row {
        BranchRow::B => 20,
        BranchRow::Bc => code(insn, 0),
        BranchRow::Bclr => code(insn, 0),
        BranchRow::Bcctr => code(insn, 0),
        BranchRow::Bctar => code(insn, 0),
    }
}

/// BI of a branch, and 0 of b.
pub fn bi_of(row: BranchRow, insn: &Insn) -> u8
    requires { AreLimited insn.now 0 (branch_roles row) }
    ensures value { result ≡ bi_of row insn.now }
    ensures bound { result < 32 }
{
    match row {
        BranchRow::B => 0,
        BranchRow::Bc => code(insn, 1),
        BranchRow::Bclr => code(insn, 1),
        BranchRow::Bcctr => code(insn, 1),
        BranchRow::Bctar => code(insn, 1),
    }
}

/// Whether a branch goes to the address in LR.
fn goes_to_lr(row: BranchRow) -> bool
    ensures { result ≡ goes_to_lr row }
{
    match row {
        BranchRow::B => false,
        BranchRow::Bc => false,
        BranchRow::Bclr => true,
        BranchRow::Bcctr => false,
        BranchRow::Bctar => false,
    }
}

/// Whether a branch goes to the address in CTR.
fn goes_to_ctr(row: BranchRow) -> bool
    ensures { result ≡ goes_to_ctr row }
{
    match row {
        BranchRow::B => false,
        BranchRow::Bc => false,
        BranchRow::Bclr => false,
        BranchRow::Bcctr => true,
        BranchRow::Bctar => false,
    }
}

/// Whether a branch goes to the address in TAR.
fn goes_to_tar(row: BranchRow) -> bool
    ensures { result ≡ goes_to_tar row }
{
    match row {
        BranchRow::B => false,
        BranchRow::Bc => false,
        BranchRow::Bclr => false,
        BranchRow::Bcctr => false,
        BranchRow::Bctar => true,
    }
}

/// What a branch on BO and BI reads beside its operands: the field of BI where it goes by the bit, CTR where
/// that falls or is the target, and the target.
fn conditional_special(row: BranchRow, insn: &Insn) -> Special
    requires { AreLimited insn.now 0 (branch_roles row) }
    ensures { result ≡ branch_special row insn.now }
{
    let bo = bo_of(row, insn);
    Special {
        fields: if bo_bit(bo, 0) {
            0
        } else {
            field_mask(bi_of(row, insn) / 4)
        },
        xer: false,
        lr: goes_to_lr(row),
        ctr: falls(bo) || goes_to_ctr(row),
        tar: goes_to_tar(row),
    }
}

/// What a branch reads beside its operands: b nothing.
fn branch_special(row: BranchRow, insn: &Insn) -> Special
    requires { AreLimited insn.now 0 (branch_roles row) }
    ensures { result ≡ branch_special row insn.now }
{
    match row {
        BranchRow::B => nothing(),
        _ => conditional_special(row, insn),
    }
}

/// What a row that sets a field of the condition register reads beside its operands.
fn field_special(row: FieldRow, insn: &Insn) -> Special
    requires { AreLimited insn.now 0 (field_roles row) }
    ensures { result ≡ field_special row insn.now }
{
    match row {
        FieldRow::CompareNumber { .. } => xer_alone(true),
        FieldRow::Compare { .. } => xer_alone(true),
        FieldRow::InRange => nothing(),
        FieldRow::EqualsByte => nothing(),
        FieldRow::FromXer => xer_alone(true),
        FieldRow::FromField => fields_alone(field_mask(field(insn, 1))),
        FieldRow::Logic(_) => {
            fields_alone(three_fields(code(insn, 0), code(insn, 1), code(insn, 2)))
        }
    }
}

/// The fields of the condition register by which a row sets a register.
fn picked_fields(row: PickRow, insn: &Insn) -> u8
    requires { AreLimited insn.now 0 (pick_roles row) }
    ensures { result ≡ picked_fields row insn.now }
{
    match row {
        PickRow::Select => field_mask(code(insn, 3) / 4),
        PickRow::All => 255,
        PickRow::Chosen => mask(insn, 1),
        PickRow::Sign => field_mask(field(insn, 1)),
        PickRow::Bit { .. } => field_mask(code(insn, 1) / 4),
    }
}

/// What an operation reads of the registers beside its operands.
pub fn special_of(operation: Operation, insn: &Insn) -> Special
    requires { HasLimits insn.now operation }
    ensures { result ≡ special_of operation insn.now }
{
    match operation {
        Operation::Alu(row) => xer_alone(reads_xer(row, insn)),
        Operation::Product(_) => xer_alone(long_reads_xer(insn)),
        Operation::Quotient(_) => xer_alone(long_reads_xer(insn)),
        Operation::Branch(row) => branch_special(row, insn),
        Operation::Field(row) => field_special(row, insn),
        Operation::Fields => nothing(),
        Operation::Pick(row) => fields_alone(picked_fields(row, insn)),
        Operation::Trap(_) => nothing(),
        Operation::Storage(_) => nothing(),
        Operation::Hint => nothing(),
        Operation::Call => nothing(),
        Operation::System(_) => nothing(),
    }
}
