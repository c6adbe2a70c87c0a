ghost use Rattle.std.specs.Prelude.{◌≡◌, ◌≤◌, IsTrue, length, if◌then◌else◌};
ghost use Rattle.std.specs.List.{list_all};
ghost use Rattle.mw_tables.specs.Row.{row_of};
ghost use Rattle.mw_tables.specs.Layouts.{fields_of, flag, flags_of, is_readable};

use crate::layout::{Field, Layout};
use crate::row::Row;
use named::{
    BA, BB, BC, BD, BF, BFA, BH, BI, BO, BT, CY, D, D_WIDE, DS, DX_D, FLAG_AA, FLAG_LK, FLAG_OE,
    FLAG_RC, FXM, L, L_DARN, L_MSR, L_SYNC, LI, MASK_END, MB, ME, NO_FLAG, PRS, R, R_WIDE, RA, RB,
    RC, RIC, RS, RT, SH, SH_WIDE, SI, SPR, TO, UI,
};

/// The fields, each under its name in the manual (Book I, instruction fields).
#[rattlefmt::skip]
pub(crate) mod named {
    use crate::layout::{Field, Piece};

    /// A piece that isn't used.
    const NO_BITS: Piece = Piece { low: 0, width: 0 };

    /// Bits `first` to `last` of the word or the suffix, numbered from the left of its 32.
    macro_rules! bits {
        ($first:literal, $last:literal) => {
            Piece { low: 31 - $last, width: $last - $first + 1 }
        };
    }

    /// Bits `first` to `last` of the prefix, numbered from the left of its 32.
    macro_rules! prefix_bits {
        ($first:literal, $last:literal) => {
            Piece { low: 63 - $last, width: $last - $first + 1 }
        };
    }

    /// RT: the target register.
    pub const RT: Field = Field { low: bits!(6, 10), middle: NO_BITS, high: NO_BITS, shift: 0, signed: false };
    /// RS: the source register.
    pub const RS: Field = Field { low: bits!(6, 10), middle: NO_BITS, high: NO_BITS, shift: 0, signed: false };
    /// TO: the conditions of a trap.
    pub const TO: Field = Field { low: bits!(6, 10), middle: NO_BITS, high: NO_BITS, shift: 0, signed: false };
    /// BO: when a branch is taken.
    pub const BO: Field = Field { low: bits!(6, 10), middle: NO_BITS, high: NO_BITS, shift: 0, signed: false };
    /// BT: the target bit of CR.
    pub const BT: Field = Field { low: bits!(6, 10), middle: NO_BITS, high: NO_BITS, shift: 0, signed: false };
    /// BF: the target field of CR.
    pub const BF: Field = Field { low: bits!(6, 8), middle: NO_BITS, high: NO_BITS, shift: 0, signed: false };
    /// L of a comparison: whether 64 bits are compared.
    pub const L: Field = Field { low: bits!(10, 10), middle: NO_BITS, high: NO_BITS, shift: 0, signed: false };
    /// RA: a register.
    pub const RA: Field = Field { low: bits!(11, 15), middle: NO_BITS, high: NO_BITS, shift: 0, signed: false };
    /// BA: a source bit of CR.
    pub const BA: Field = Field { low: bits!(11, 15), middle: NO_BITS, high: NO_BITS, shift: 0, signed: false };
    /// BI: the bit of CR that is tested.
    pub const BI: Field = Field { low: bits!(11, 15), middle: NO_BITS, high: NO_BITS, shift: 0, signed: false };
    /// BFA: the source field of CR.
    pub const BFA: Field = Field { low: bits!(11, 13), middle: NO_BITS, high: NO_BITS, shift: 0, signed: false };
    /// RB: a register.
    pub const RB: Field = Field { low: bits!(16, 20), middle: NO_BITS, high: NO_BITS, shift: 0, signed: false };
    /// BB: a source bit of CR.
    pub const BB: Field = Field { low: bits!(16, 20), middle: NO_BITS, high: NO_BITS, shift: 0, signed: false };
    /// SH: by how much a word is shifted.
    pub const SH: Field = Field { low: bits!(16, 20), middle: NO_BITS, high: NO_BITS, shift: 0, signed: false };
    /// BH: a hint of a branch.
    pub const BH: Field = Field { low: bits!(19, 20), middle: NO_BITS, high: NO_BITS, shift: 0, signed: false };
    /// RC: a register.
    pub const RC: Field = Field { low: bits!(21, 25), middle: NO_BITS, high: NO_BITS, shift: 0, signed: false };
    /// BC: the bit of CR that selects.
    pub const BC: Field = Field { low: bits!(21, 25), middle: NO_BITS, high: NO_BITS, shift: 0, signed: false };
    /// CY: the carry that is used.
    pub const CY: Field = Field { low: bits!(21, 22), middle: NO_BITS, high: NO_BITS, shift: 0, signed: false };
    /// MB: the first bit of a mask in a word.
    pub const MB: Field = Field { low: bits!(21, 25), middle: NO_BITS, high: NO_BITS, shift: 0, signed: false };
    /// ME: the last bit of a mask in a word.
    pub const ME: Field = Field { low: bits!(26, 30), middle: NO_BITS, high: NO_BITS, shift: 0, signed: false };
    /// SH in 6 bits: bit 30, then 16 to 20.
    pub const SH_WIDE: Field = Field { low: bits!(16, 20), middle: bits!(30, 30), high: NO_BITS, shift: 0, signed: false };
    /// MB or ME in 6 bits: bit 26, then 21 to 25.
    pub const MASK_END: Field = Field { low: bits!(21, 25), middle: bits!(26, 26), high: NO_BITS, shift: 0, signed: false };
    /// SI: a signed number.
    pub const SI: Field = Field { low: bits!(16, 31), middle: NO_BITS, high: NO_BITS, shift: 0, signed: true };
    /// UI: an unsigned number.
    pub const UI: Field = Field { low: bits!(16, 31), middle: NO_BITS, high: NO_BITS, shift: 0, signed: false };
    /// D: a displacement of bytes.
    pub const D: Field = Field { low: bits!(16, 31), middle: NO_BITS, high: NO_BITS, shift: 0, signed: true };
    /// DS: a displacement of bytes, a multiple of 4.
    pub const DS: Field = Field { low: bits!(16, 29), middle: NO_BITS, high: NO_BITS, shift: 2, signed: true };
    /// D in the format DX: bits 16 to 25, then 11 to 15, then 31.
    pub const DX_D: Field = Field { low: bits!(31, 31), middle: bits!(11, 15), high: bits!(16, 25), shift: 0, signed: true };
    /// LI: the displacement of a branch, a multiple of 4.
    pub const LI: Field = Field { low: bits!(6, 29), middle: NO_BITS, high: NO_BITS, shift: 2, signed: true };
    /// BD: the displacement of a conditional branch, a multiple of 4.
    pub const BD: Field = Field { low: bits!(16, 29), middle: NO_BITS, high: NO_BITS, shift: 2, signed: true };
    /// FXM: fields of CR, one a bit.
    pub const FXM: Field = Field { low: bits!(12, 19), middle: NO_BITS, high: NO_BITS, shift: 0, signed: false };
    /// SPR and TBR: bits 16 to 20, then 11 to 15.
    pub const SPR: Field = Field { low: bits!(11, 15), middle: bits!(16, 20), high: NO_BITS, shift: 0, signed: false };
    /// L of sync: its kind.
    pub const L_SYNC: Field = Field { low: bits!(8, 10), middle: NO_BITS, high: NO_BITS, shift: 0, signed: false };
    /// L of mtmsr and mtmsrd: whether EE and RI alone are set.
    pub const L_MSR: Field = Field { low: bits!(15, 15), middle: NO_BITS, high: NO_BITS, shift: 0, signed: false };
    /// L of darn: the format of the number.
    pub const L_DARN: Field = Field { low: bits!(14, 15), middle: NO_BITS, high: NO_BITS, shift: 0, signed: false };
    /// RIC: what tlbie reaches.
    pub const RIC: Field = Field { low: bits!(12, 13), middle: NO_BITS, high: NO_BITS, shift: 0, signed: false };
    /// PRS: whether tlbie is process-scoped.
    pub const PRS: Field = Field { low: bits!(14, 14), middle: NO_BITS, high: NO_BITS, shift: 0, signed: false };
    /// R: whether tlbie is of radix translation.
    pub const R: Field = Field { low: bits!(15, 15), middle: NO_BITS, high: NO_BITS, shift: 0, signed: false };
    /// D and SI in 34 bits: bits 14 to 31 of the prefix, then 16 to 31 of the suffix.
    pub const D_WIDE: Field = Field { low: bits!(16, 31), middle: prefix_bits!(14, 31), high: NO_BITS, shift: 0, signed: true };
    /// R of the prefix, bit 11: whether the address is that of the prefix and D.
    pub const R_WIDE: Field = Field { low: prefix_bits!(11, 11), middle: NO_BITS, high: NO_BITS, shift: 0, signed: false };
    /// OE: whether overflow is recorded.
    pub const FLAG_OE: Field = Field { low: bits!(21, 21), middle: NO_BITS, high: NO_BITS, shift: 0, signed: false };
    /// Rc: whether the result is recorded in field 0 of CR.
    pub const FLAG_RC: Field = Field { low: bits!(31, 31), middle: NO_BITS, high: NO_BITS, shift: 0, signed: false };
    /// AA: whether the target is absolute.
    pub const FLAG_AA: Field = Field { low: bits!(30, 30), middle: NO_BITS, high: NO_BITS, shift: 0, signed: false };
    /// LK: whether the link register is set.
    pub const FLAG_LK: Field = Field { low: bits!(31, 31), middle: NO_BITS, high: NO_BITS, shift: 0, signed: false };
    /// A form that a row doesn't have: no bits, and 0 is the one operand.
    pub const NO_FLAG: Field = Field { low: NO_BITS, middle: NO_BITS, high: NO_BITS, shift: 0, signed: false };
}

static D_RT_RA_SI: [Field; 3] = [RT, RA, SI];

static D_BF_L_RA_SI: [Field; 4] = [BF, L, RA, SI];

static D_BF_L_RA_UI: [Field; 4] = [BF, L, RA, UI];

static D_TO_RA_SI: [Field; 3] = [TO, RA, SI];

static D_RA_RS_UI: [Field; 3] = [RA, RS, UI];

static DX_RT_D: [Field; 2] = [RT, DX_D];

static I_TARGET: [Field; 1] = [LI];

static B_BO_BI_TARGET: [Field; 3] = [BO, BI, BD];

static XL_BO_BI_BH: [Field; 3] = [BO, BI, BH];

static XL_BT_BA_BB: [Field; 3] = [BT, BA, BB];

static XL_BF_BFA: [Field; 2] = [BF, BFA];

static M_RA_RS_SH_MB_ME: [Field; 5] = [RA, RS, SH, MB, ME];

static M_RA_RS_RB_MB_ME: [Field; 5] = [RA, RS, RB, MB, ME];

static MD_RA_RS_SH_MB: [Field; 4] = [RA, RS, SH_WIDE, MASK_END];

static MD_RA_RS_SH_ME: [Field; 4] = [RA, RS, SH_WIDE, MASK_END];

static MDS_RA_RS_RB_MB: [Field; 4] = [RA, RS, RB, MASK_END];

static MDS_RA_RS_RB_ME: [Field; 4] = [RA, RS, RB, MASK_END];

static VA_RT_RA_RB_RC: [Field; 4] = [RT, RA, RB, RC];

static X_RT_RA_RB: [Field; 3] = [RT, RA, RB];

static X_RT_RA: [Field; 2] = [RT, RA];

static Z23RT_RA_RB_CY: [Field; 4] = [RT, RA, RB, CY];

static X_RA_RS_RB: [Field; 3] = [RA, RS, RB];

static X_RA_RS_SH: [Field; 3] = [RA, RS, SH];

static XS_RA_RS_SH: [Field; 3] = [RA, RS, SH_WIDE];

static X_RA_RS: [Field; 2] = [RA, RS];

static X_BF_L_RA_RB: [Field; 4] = [BF, L, RA, RB];

static X_TO_RA_RB: [Field; 3] = [TO, RA, RB];

static A_RT_RA_RB_BC: [Field; 4] = [RT, RA, RB, BC];

static X_RT: [Field; 1] = [RT];

static XFX_RT_FXM: [Field; 2] = [RT, FXM];

static XFX_FXM_RS: [Field; 2] = [FXM, RS];

static X_RT_BFA: [Field; 2] = [RT, BFA];

static X_RT_BI: [Field; 2] = [RT, BI];

static X_BF_RA_RB: [Field; 3] = [BF, RA, RB];

static X_BF: [Field; 1] = [BF];

static D_RT_D_RA: [Field; 3] = [RT, D, RA];

static DS_RT_D_RA: [Field; 3] = [RT, DS, RA];

static X_RA_RB: [Field; 2] = [RA, RB];

static EMPTY: [Field; 0] = [];

static XL: [Field; 1] = [L_SYNC];

static X_RS_L: [Field; 2] = [RS, L_MSR];

static X_RB_RS_RIC_PRS_R: [Field; 5] = [RB, RS, RIC, PRS, R];

static XFX_RT_SPR: [Field; 2] = [RT, SPR];

static XFX_SPR_RS: [Field; 2] = [SPR, RS];

static XFX_RT_TBR: [Field; 2] = [RT, SPR];

static X_RT_L: [Field; 2] = [RT, L_DARN];

static MLS_RT_RA_SI_R: [Field; 4] = [RT, RA, D_WIDE, R_WIDE];

static WIDE_RT_D_RA_R: [Field; 4] = [RT, D_WIDE, RA, R_WIDE];

/// Where the operands stand in a layout, in their order. There are at most six.
pub fn fields_of(layout: Layout) -> &'static [Field]
    ensures value { result.now ≡ fields_of layout }
    ensures readable { IsTrue (list_all is_readable result.now) }
    ensures few { length result.now ≤ 6 }
{
    match layout {
        Layout::DRtRaSi => &D_RT_RA_SI,
        Layout::DBfLRaSi => &D_BF_L_RA_SI,
        Layout::DBfLRaUi => &D_BF_L_RA_UI,
        Layout::DToRaSi => &D_TO_RA_SI,
        Layout::DRaRsUi => &D_RA_RS_UI,
        Layout::DxRtD => &DX_RT_D,
        Layout::ITarget => &I_TARGET,
        Layout::BBoBiTarget => &B_BO_BI_TARGET,
        Layout::XlBoBiBh => &XL_BO_BI_BH,
        Layout::XlBtBaBb => &XL_BT_BA_BB,
        Layout::XlBfBfa => &XL_BF_BFA,
        Layout::MRaRsShMbMe => &M_RA_RS_SH_MB_ME,
        Layout::MRaRsRbMbMe => &M_RA_RS_RB_MB_ME,
        Layout::MdRaRsShMb => &MD_RA_RS_SH_MB,
        Layout::MdRaRsShMe => &MD_RA_RS_SH_ME,
        Layout::MdsRaRsRbMb => &MDS_RA_RS_RB_MB,
        Layout::MdsRaRsRbMe => &MDS_RA_RS_RB_ME,
        Layout::VaRtRaRbRc => &VA_RT_RA_RB_RC,
        Layout::XRtRaRb => &X_RT_RA_RB,
        Layout::XRtRa => &X_RT_RA,
        Layout::Z23RtRaRbCy => &Z23RT_RA_RB_CY,
        Layout::XRaRsRb => &X_RA_RS_RB,
        Layout::XRaRsSh => &X_RA_RS_SH,
        Layout::XsRaRsSh => &XS_RA_RS_SH,
        Layout::XRaRs => &X_RA_RS,
        Layout::XBfLRaRb => &X_BF_L_RA_RB,
        Layout::XToRaRb => &X_TO_RA_RB,
        Layout::ARtRaRbBc => &A_RT_RA_RB_BC,
        Layout::XRt => &X_RT,
        Layout::XfxRtFxm => &XFX_RT_FXM,
        Layout::XfxFxmRs => &XFX_FXM_RS,
        Layout::XRtBfa => &X_RT_BFA,
        Layout::XRtBi => &X_RT_BI,
        Layout::XBfRaRb => &X_BF_RA_RB,
        Layout::XBf => &X_BF,
        Layout::DRtDRa => &D_RT_D_RA,
        Layout::DsRtDRa => &DS_RT_D_RA,
        Layout::XRaRb => &X_RA_RB,
        Layout::Empty => &EMPTY,
        Layout::XL => &XL,
        Layout::XRsL => &X_RS_L,
        Layout::XRbRsRicPrsR => &X_RB_RS_RIC_PRS_R,
        Layout::XfxRtSpr => &XFX_RT_SPR,
        Layout::XfxSprRs => &XFX_SPR_RS,
        Layout::XfxRtTbr => &XFX_RT_TBR,
        Layout::XRtL => &X_RT_L,
        Layout::MlsRtRaSiR => &MLS_RT_RA_SI_R,
        Layout::WideRtDRaR => &WIDE_RT_D_RA_R,
    }
}

/// A field where the row has the form that it chooses, and a field without bits where not.
fn flag(exists: bool, field: Field) -> Field
    ensures { result ≡ flag exists field }
{
    if exists { field } else { NO_FLAG }
}

/// Where the forms of a row stand: OE, Rc, AA and LK, each a field of one bit, or of none where the row
/// lacks that form.
pub fn flags_of(row: &Row) -> [Field; 4]
    ensures value { result ≡ flags_of (row_of row.now) }
    ensures readable { IsTrue (list_all is_readable result) }
{
    [
        flag(row.oe, FLAG_OE),
        flag(row.rc, FLAG_RC),
        flag(row.absolute, FLAG_AA),
        flag(row.links, FLAG_LK),
    ]
}
