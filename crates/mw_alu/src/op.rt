/// A row of the instruction table whose result is there in one cycle, by the row's name without its point.
#[derive(Clone, Copy, Debug, PartialEq, Eq)]
pub enum AluOp {
    /// addi: a plus the number b.
    Addi,
    /// addis: a plus the number b shifted left by 16.
    Addis,
    /// addic and addic.: a plus the number b.
    Addic,
    /// subfic: the number b minus a.
    Subfic,
    /// addpcis: the address a plus the number b shifted left by 16.
    Addpcis,
    /// paddi: a plus the number b.
    Paddi,
    /// add: a plus b.
    Add,
    /// subf: b minus a.
    Subf,
    /// neg: 0 minus a.
    Neg,
    /// addc: a plus b.
    Addc,
    /// subfc: b minus a.
    Subfc,
    /// adde: a plus b plus the carry.
    Adde,
    /// subfe: b minus a, and 1 less without the carry.
    Subfe,
    /// addme: a minus 1, and 1 more with the carry.
    Addme,
    /// subfme: the complement of a minus 1, and 1 more with the carry.
    Subfme,
    /// addze: a plus the carry.
    Addze,
    /// subfze: the complement of a plus the carry.
    Subfze,
    /// addex: a plus b plus OV; its carries are OV and OV32.
    Addex,
    /// ori: the bits that a or the number b has.
    Ori,
    /// oris: the bits that a or the number b shifted left by 16 has.
    Oris,
    /// xori: the bits that just one of a and the number b has.
    Xori,
    /// xoris: the bits that just one of a and the number b shifted left by 16 has.
    Xoris,
    /// andi.: the bits that both a and the number b have.
    Andi,
    /// andis.: the bits that both a and the number b shifted left by 16 have.
    Andis,
    /// and: the bits that both a and b have.
    And,
    /// andc: the bits of a that b doesn't have.
    Andc,
    /// or: the bits that a or b has.
    Or,
    /// orc: the bits that a has or b doesn't have.
    Orc,
    /// xor: the bits that just one of a and b has.
    Xor,
    /// eqv: the bits that both a and b have or neither has.
    Eqv,
    /// nand: the bits that a or b doesn't have.
    Nand,
    /// nor: the bits that neither a nor b has.
    Nor,
    /// rlwinm: the low word of a rotated left by b, under the mask c.
    Rlwinm,
    /// rlwnm: the low word of a rotated left by b, under the mask c.
    Rlwnm,
    /// rlwimi: a, rotated already, under the mask b, and c elsewhere.
    Rlwimi,
    /// rldicl: a rotated left by b, under the mask c.
    Rldicl,
    /// rldicr: a rotated left by b, under the mask c.
    Rldicr,
    /// rldic: a rotated left by b, under the mask c.
    Rldic,
    /// rldimi: a, rotated already, under the mask b, and c elsewhere.
    Rldimi,
    /// rldcl: a rotated left by b, under the mask c.
    Rldcl,
    /// rldcr: a rotated left by b, under the mask c.
    Rldcr,
    /// slw: the low word of a shifted left by b.
    Slw,
    /// srw: the low word of a shifted right by b.
    Srw,
    /// sld: a shifted left by b.
    Sld,
    /// srd: a shifted right by b.
    Srd,
    /// sraw: the signed low word of a shifted right by b.
    Sraw,
    /// srawi: the signed low word of a shifted right by c.
    Srawi,
    /// srad: the signed number a shifted right by b.
    Srad,
    /// sradi: the signed number a shifted right by c.
    Sradi,
    /// extswsli: the signed low word of a shifted left by c.
    Extswsli,
    /// extsb: the signed low 8 bits of a.
    Extsb,
    /// extsh: the signed low 16 bits of a.
    Extsh,
    /// extsw: the signed low word of a.
    Extsw,
    /// cntlzw: how many zeros the low word of a has at the left.
    Cntlzw,
    /// cntlzd: how many zeros a has at the left.
    Cntlzd,
    /// cnttzw: how many zeros the low word of a has at the right.
    Cnttzw,
    /// cnttzd: how many zeros a has at the right.
    Cnttzd,
    /// cntlzdm: of the bits of a where b has ones, how many are 0 before the first 1 from the left.
    Cntlzdm,
    /// cnttzdm: of the bits of a where b has ones, how many are 0 before the first 1 from the right.
    Cnttzdm,
    /// popcntb: how many ones each byte of a has.
    Popcntb,
    /// popcntw: how many ones each word of a has.
    Popcntw,
    /// popcntd: how many ones a has.
    Popcntd,
    /// prtyw: the exclusive or of the last bits of the bytes of each word of a.
    Prtyw,
    /// prtyd: the exclusive or of the last bits of the bytes of a.
    Prtyd,
    /// brh: the bytes reversed in each halfword of a.
    Brh,
    /// brw: the bytes reversed in each word of a.
    Brw,
    /// brd: the bytes of a reversed.
    Brd,
    /// pdepd: the rightmost bits of a, in order, where b has ones.
    Pdepd,
    /// pextd: the bits of a where b has ones, in order, at the right.
    Pextd,
    /// cfuged: the bits of a where b has zeros, in order, and to their right the others, in order.
    Cfuged,
    /// bpermd: the eight bits of b whose numbers the bytes of a have.
    Bpermd,
    /// cmpb: ones in each byte in which a and b agree.
    Cmpb,
}

/// What a row gives that is done in one cycle: its result, carries and overflows.
#[derive(Clone, Copy, Debug, PartialEq, Eq)]
pub struct AluOut {
    /// The result.
    pub value: u64,
    /// CA: whether a sum carries out of 64 bits, or a negative number loses a 1 in a shift to the right.
    pub ca: bool,
    /// CA32: whether the sum of the low words carries out of 32 bits; in a shift what CA is.
    pub ca32: bool,
    /// OV: whether the sum of the signed numbers doesn't fit 64 bits; of addex the carry.
    pub ov: bool,
    /// OV32: whether the sum of the signed low words doesn't fit 32 bits; of addex the carry.
    pub ov32: bool,
}
