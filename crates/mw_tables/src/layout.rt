/// Some bits of an instruction's code, which is its word, or its prefix times 2^32 and its suffix.
#[derive(Clone, Copy, Debug, PartialEq, Eq)]
pub struct Piece {
    /// How many bits stand to the right of the piece.
    pub low: u32,
    /// How many bits the piece has.
    pub width: u32,
}

/// Where an operand stands: in up to three pieces, the lowest first, which are shifted left by `shift`,
/// and signed or not. A piece that isn't used has no bits.
#[derive(Clone, Copy, Debug, PartialEq, Eq)]
pub struct Field {
    /// The piece with the operand's lowest bits.
    pub low: Piece,
    /// The next one.
    pub middle: Piece,
    /// The one with the highest bits.
    pub high: Piece,
    /// By how many bits the number is shifted left.
    pub shift: u32,
    /// Whether the number is signed.
    pub signed: bool,
}

/// Where the operands of a row stand: the format and the operands, as one operand list can have several
/// layouts.
#[derive(Clone, Copy, Debug, PartialEq, Eq)]
pub enum Layout {
    /// RT,RA,SI in the format D.
    DRtRaSi,
    /// BF,L,RA,SI in the format D.
    DBfLRaSi,
    /// BF,L,RA,UI in the format D.
    DBfLRaUi,
    /// TO,RA,SI in the format D.
    DToRaSi,
    /// RA,RS,UI in the format D.
    DRaRsUi,
    /// RT,D in the format DX.
    DxRtD,
    /// The target in the format I.
    ITarget,
    /// BO,BI,target in the format B.
    BBoBiTarget,
    /// BO,BI,BH in the format XL.
    XlBoBiBh,
    /// BT,BA,BB in the format XL.
    XlBtBaBb,
    /// BF,BFA in the format XL.
    XlBfBfa,
    /// RA,RS,SH,MB,ME in the format M.
    MRaRsShMbMe,
    /// RA,RS,RB,MB,ME in the format M.
    MRaRsRbMbMe,
    /// RA,RS,SH,MB in the format MD.
    MdRaRsShMb,
    /// RA,RS,SH,ME in the format MD.
    MdRaRsShMe,
    /// RA,RS,RB,MB in the format MDS.
    MdsRaRsRbMb,
    /// RA,RS,RB,ME in the format MDS.
    MdsRaRsRbMe,
    /// RT,RA,RB,RC in the format VA.
    VaRtRaRbRc,
    /// RT,RA,RB in the formats X and XO.
    XRtRaRb,
    /// RT,RA in the format XO.
    XRtRa,
    /// RT,RA,RB,CY in the format Z23.
    Z23RtRaRbCy,
    /// RA,RS,RB in the format X.
    XRaRsRb,
    /// RA,RS,SH in the format X.
    XRaRsSh,
    /// RA,RS,SH in the format XS.
    XsRaRsSh,
    /// RA,RS in the format X.
    XRaRs,
    /// BF,L,RA,RB in the format X.
    XBfLRaRb,
    /// TO,RA,RB in the format X.
    XToRaRb,
    /// RT,RA,RB,BC in the format A.
    ARtRaRbBc,
    /// RT in the formats X and XFX.
    XRt,
    /// RT,FXM in the format XFX.
    XfxRtFxm,
    /// FXM,RS in the format XFX.
    XfxFxmRs,
    /// RT,BFA in the format X.
    XRtBfa,
    /// RT,BI in the format X.
    XRtBi,
    /// BF,RA,RB in the format X.
    XBfRaRb,
    /// BF in the format X.
    XBf,
    /// RT,D(RA) in the format D.
    DRtDRa,
    /// RT,D(RA) in the format DS.
    DsRtDRa,
    /// RA,RB in the format X.
    XRaRb,
    /// No operand in the formats X, XL and SC.
    Empty,
    /// L in the format X.
    XL,
    /// RS,L in the format X.
    XRsL,
    /// RB,RS,RIC,PRS,R in the format X.
    XRbRsRicPrsR,
    /// RT,SPR in the format XFX.
    XfxRtSpr,
    /// SPR,RS in the format XFX.
    XfxSprRs,
    /// RT,TBR in the format XFX.
    XfxRtTbr,
    /// RT,L in the format X.
    XRtL,
    /// RT,RA,SI,R in the format MLS:D.
    MlsRtRaSiR,
    /// RT,D(RA),R in the formats MLS:D and 8LS:D.
    WideRtDRaR,
}
