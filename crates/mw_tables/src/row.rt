/// Whether a row has a prefix, and which (Book I, prefixed instruction formats).
#[derive(Clone, Copy, Debug, PartialEq, Eq)]
pub enum PrefixKind {
    /// A word of its own.
    Plain,
    /// Type 2: the suffix's instruction with a displacement of 34 bits (MLS:D).
    Mls,
    /// Type 0: a load or store with a suffix opcode of its own (8LS:D).
    Eight,
    /// The prefix of pnop, with every suffix.
    Nop,
}

/// The operand list of a row, named after the operands in their order.
#[derive(Clone, Copy, Debug, PartialEq, Eq)]
pub enum Shape {
    /// RT,RA,SI.
    RtRaSi,
    /// BF,L,RA,SI.
    BfLRaSi,
    /// BF,L,RA,UI.
    BfLRaUi,
    /// TO,RA,SI.
    ToRaSi,
    /// RA,RS,UI.
    RaRsUi,
    /// RT,D.
    RtD,
    /// A target.
    Target,
    /// BO,BI,target.
    BoBiTarget,
    /// BO,BI,BH.
    BoBiBh,
    /// BT,BA,BB.
    BtBaBb,
    /// BF,BFA.
    BfBfa,
    /// RA,RS,SH,MB,ME.
    RaRsShMbMe,
    /// RA,RS,RB,MB,ME.
    RaRsRbMbMe,
    /// RA,RS,SH,MB.
    RaRsShMb,
    /// RA,RS,SH,ME.
    RaRsShMe,
    /// RA,RS,RB,MB.
    RaRsRbMb,
    /// RA,RS,RB,ME.
    RaRsRbMe,
    /// RT,RA,RB,RC.
    RtRaRbRc,
    /// RT,RA,RB.
    RtRaRb,
    /// RT,RA.
    RtRa,
    /// RT,RA,RB,CY.
    RtRaRbCy,
    /// RA,RS,RB.
    RaRsRb,
    /// RA,RS,SH.
    RaRsSh,
    /// RA,RS.
    RaRs,
    /// BF,L,RA,RB.
    BfLRaRb,
    /// TO,RA,RB.
    ToRaRb,
    /// RT,RA,RB,BC.
    RtRaRbBc,
    /// RT.
    Rt,
    /// RT,FXM.
    RtFxm,
    /// FXM,RS.
    FxmRs,
    /// RT,BFA.
    RtBfa,
    /// RT,BI.
    RtBi,
    /// BF,RA,RB.
    BfRaRb,
    /// BF.
    Bf,
    /// RT,D(RA).
    RtDRa,
    /// RA,RB.
    RaRb,
    /// No operand.
    Empty,
    /// L.
    L,
    /// RS,L.
    RsL,
    /// RB,RS,RIC,PRS,R.
    RbRsRicPrsR,
    /// RT,SPR.
    RtSpr,
    /// SPR,RS.
    SprRs,
    /// RT,TBR.
    RtTbr,
    /// RT,L.
    RtL,
    /// RT,RA,SI,R.
    RtRaSiR,
    /// RT,D(RA),R.
    RtDRaR,
}

/// A row of the instruction table.
#[derive(Clone, Copy)]
pub struct Row {
    /// The instruction's name, in lower case; some end in a point.
    pub name: &'static str,
    /// The bits that the row fixes in the word, or in the suffix where there is a prefix.
    pub mask: u32,
    /// What those bits are.
    pub value: u32,
    /// The prefix that goes before the word.
    pub prefix: PrefixKind,
    /// The operands.
    pub shape: Shape,
    /// Whether there is a form with OE=1.
    pub oe: bool,
    /// Whether there is a form with Rc=1.
    pub rc: bool,
    /// Whether there is a form with LK=1.
    pub links: bool,
    /// Whether there is a form with AA=1.
    pub absolute: bool,
}
