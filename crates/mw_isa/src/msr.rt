ghost use Rattle.std.specs.Prelude.{◌≡◌, ◌≤◌, ◌<◌, ◌^◌};
ghost use Rattle.mw_isa.specs.Msr.{bit_at, msr_from, msr_partly_from, with_bit, without_bit};

use crate::xer::has_bit;

/// The place of EE in MSR, counted from the left of 64: external and decrementer interrupts are taken (Book
/// III, machine state register).
pub const EE: u32 = 48;
/// The place of PR: problem state.
pub const PR: u32 = 49;
/// The place of IR: instruction addresses are translated.
pub const IR: u32 = 58;
/// The place of DR: data addresses are translated.
pub const DR: u32 = 59;
/// The place of RI: an interrupt can be recovered from.
pub const RI: u32 = 62;

/// The place in SRR1 of a fetch, and in DSISR, of the cause that there is no translation (Book III, data storage and
/// instruction storage interrupts; which bits tell a cause is this board's own choice).
pub const NO_TRANSLATION: u32 = 33;
/// The place in SRR1 of the cause that a translation doesn't permit the fetch.
pub const FETCH_REFUSED: u32 = 35;
/// The place in DSISR of the cause that a translation doesn't permit the access.
pub const DATA_REFUSED: u32 = 36;
/// The place in DSISR of the bit that tells of a store.
pub const STORE: u32 = 38;
/// The place in either of the cause that the tree isn't formed as it has to be.
pub const BAD_TREE: u32 = 44;
/// The place in either of the cause that the translation isn't marked as it has to be.
pub const UNMARKED: u32 = 45;

/// The place in SRR1 of the bit that tells that the interrupted instruction is prefixed (Book III, interrupt
/// definitions; which bits of SRR1 tell a cause is this board's own choice).
pub const PREFIXED: u32 = 34;
/// The place of the cause that the instruction would cross the end of a block of 64 bytes.
pub const CROSSING: u32 = 35;
/// The place of the cause that the instruction is illegal.
pub const ILLEGAL: u32 = 44;
/// The place of the cause that the instruction is privileged.
pub const PRIVILEGED: u32 = 45;
/// The place of the cause that the instruction's trap condition holds.
pub const TRAP: u32 = 46;

/// A number with the bit at a place alone, counted from the left of 64. It can't fail.
pub fn bit_at(place: u32) -> u64
    requires { place ≤ 63 }
    ensures { result ≡ bit_at place }
{
    1 << (63 - place)
}

/// A number whose bit at a place, counted from the left of 64, is 0. It can't fail.
pub fn without_bit(place: u32, number: u64) -> u64
    requires { place ≤ 63 }
    ensures { result ≡ without_bit place number }
{
    if has_bit(number, place) {
        number - bit_at(place)
    } else {
        number
    }
}

/// A number whose bit at a place, counted from the left of 64, is 1, or 0.
fn with_bit(set: bool, place: u32, number: u64) -> u64
    requires { place ≤ 63 }
    ensures { result ≡ with_bit set place number }
{
    if set {
        number | bit_at(place)
    } else {
        without_bit(place, number)
    }
}

/// MSR written from a source (Book III, mtmsr and return instructions): EE, IR and DR are its bit or its PR,
/// PR and RI its own, and the rest stays. It can't fail.
pub fn msr_from(source: u64, msr: u64) -> u64
    ensures { result ≡ msr_from source msr }
{
    let problem = has_bit(source, PR);
    let msr = with_bit(has_bit(source, RI), RI, msr);
    let msr = with_bit(has_bit(source, DR) || problem, DR, msr);
    let msr = with_bit(has_bit(source, IR) || problem, IR, msr);
    let msr = with_bit(problem, PR, msr);
    with_bit(has_bit(source, EE) || problem, EE, msr)
}

/// EE and RI of MSR alone written from a source, each from its own bit (Book III, mtmsr with L=1). It can't
/// fail.
pub fn msr_partly_from(source: u64, msr: u64) -> u64
    ensures { result ≡ msr_partly_from source msr }
{
    let msr = with_bit(has_bit(source, RI), RI, msr);
    with_bit(has_bit(source, EE), EE, msr)
}
