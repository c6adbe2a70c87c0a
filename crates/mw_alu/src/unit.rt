ghost use Rattle.std.specs.Prelude.{◌≡◌};
ghost use Rattle.mw_alu.specs.Alu.{alu_of};

use crate::adder::{sum_by_ov, sum_of};
use crate::counts::{
    cntlzdm_of, cnttzdm_of, ones, popcntb_of, popcntw_of, prtyd_of, prtyw_of, zeros_left,
    zeros_left_word, zeros_right, zeros_right_word,
};
use crate::extend::extended;
use crate::logic::{and, eqv, nand, nor, or, valued, xor};
use crate::op::{AluOp, AluOut};
use crate::permutes::{
    bpermd_of, brh_of, brw_of, cfuged_of, cmpb_of, pdepd_of, pextd_of, reversed,
};
use crate::rotate::{inserted, rotated, rotated_word};
use crate::shift::{
    extended_left, left, left_word, right, right_word, signed_right, signed_right_word,
};

/// What a row gives (Book I, fixed-point arithmetic, logical, rotate, shift and byte-reverse instructions).
///
/// - `a` is the content of RA or RS, 0 for (RA|0) with register 0, or an address: that of the instruction
///   for paddi with R=1, the next one for addpcis. For rlwimi and rldimi it is rotated already.
/// - `b` is the content of RB, the number among the operands as 64 bits, or the count of a rotation. For
///   rlwimi and rldimi it is the mask.
/// - `c` is the mask of a rotation, or the number of places of srawi, sradi and extswsli. For rlwimi and
///   rldimi it is the old content of RA.
/// - `carry` is CA, and OV for addex.
///
/// What a row doesn't take isn't looked at, nor are the bits above those that its count or its number of
/// places has. Sums wrap at 2^64 and have all four flags, whichever of them the row writes, but for
/// addex, whose carries are `ov` and `ov32`. A signed shift to the right has `ca` and `ca32`. All other
/// flags are false. It can't fail and takes no memory.
pub fn alu(op: AluOp, a: u64, b: u64, c: u64, carry: bool) -> AluOut
    ensures { result ≡ alu_of op a b c carry }
{
    match op {
        AluOp::Addi | AluOp::Addic | AluOp::Paddi | AluOp::Add | AluOp::Addc => sum_of(a, b, false),
        AluOp::Addis | AluOp::Addpcis => sum_of(a, b << 16, false),
        AluOp::Subfic | AluOp::Subf | AluOp::Subfc => sum_of(!a, b, true),
        AluOp::Neg => sum_of(!a, 0, true),
        AluOp::Adde => sum_of(a, b, carry),
        AluOp::Subfe => sum_of(!a, b, carry),
        AluOp::Addme => sum_of(a, u64::MAX, carry),
        AluOp::Subfme => sum_of(!a, u64::MAX, carry),
        AluOp::Addze => sum_of(a, 0, carry),
        AluOp::Subfze => sum_of(!a, 0, carry),
        AluOp::Addex => sum_by_ov(a, b, carry),
        AluOp::Andi | AluOp::And => and(a, b),
        AluOp::Andis => and(a, b << 16),
        AluOp::Andc => and(a, !b),
        AluOp::Ori | AluOp::Or => or(a, b),
        AluOp::Oris => or(a, b << 16),
        AluOp::Orc => or(a, !b),
        AluOp::Xori | AluOp::Xor => xor(a, b),
        AluOp::Xoris => xor(a, b << 16),
        AluOp::Eqv => eqv(a, b),
        AluOp::Nand => nand(a, b),
        AluOp::Nor => nor(a, b),
        AluOp::Rlwinm | AluOp::Rlwnm => rotated_word(a, b, c),
        AluOp::Rldicl | AluOp::Rldicr | AluOp::Rldic => rotated(a, b, c),
        AluOp::Rldcl | AluOp::Rldcr => rotated(a, b, c),
        AluOp::Rlwimi | AluOp::Rldimi => inserted(a, b, c),
        AluOp::Slw => left_word(a, b % 64),
        AluOp::Srw => right_word(a, b % 64),
        AluOp::Sld => left(a, b % 128),
        AluOp::Srd => right(a, b % 128),
        AluOp::Sraw => signed_right_word(a, b % 64),
        AluOp::Srawi => signed_right_word(a, c % 32),
        AluOp::Srad => signed_right(a, b % 128),
        AluOp::Sradi => signed_right(a, c % 64),
        AluOp::Extswsli => extended_left(a, c % 64),
        AluOp::Extsb => extended(a, 8),
        AluOp::Extsh => extended(a, 16),
        AluOp::Extsw => extended(a, 32),
        AluOp::Cntlzw => zeros_left_word(a),
        AluOp::Cntlzd => zeros_left(a),
        AluOp::Cnttzw => zeros_right_word(a),
        AluOp::Cnttzd => zeros_right(a),
        AluOp::Cntlzdm => valued(cntlzdm_of(a, b)),
        AluOp::Cnttzdm => valued(cnttzdm_of(a, b)),
        AluOp::Popcntb => valued(popcntb_of(a)),
        AluOp::Popcntw => valued(popcntw_of(a)),
        AluOp::Popcntd => ones(a),
        AluOp::Prtyw => valued(prtyw_of(a)),
        AluOp::Prtyd => valued(prtyd_of(a)),
        AluOp::Brh => valued(brh_of(a)),
        AluOp::Brw => valued(brw_of(a)),
        AluOp::Brd => reversed(a),
        AluOp::Pdepd => valued(pdepd_of(a, b)),
        AluOp::Pextd => valued(pextd_of(a, b)),
        AluOp::Cfuged => valued(cfuged_of(a, b)),
        AluOp::Bpermd => valued(bpermd_of(a, b)),
        AluOp::Cmpb => valued(cmpb_of(a, b)),
    }
}
