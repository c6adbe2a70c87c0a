ghost use Rattle.std.specs.Prelude.{◌≡◌};
ghost use Rattle.mw_step.specs.Prepared.{blank};

use arrayvec::ArrayVec;
use mw_decode::Insn;
use mw_isa::{Deed, Fetched, Outcome, Packet, PageFault, Raised, Stretches};

/// What is known of the next instruction before anything changes.
#[derive(Drop)]
pub struct Prepared {
    /// The words that the instruction is made of; of no use where its fetch fails.
    pub words: Fetched,
    /// The instruction.
    pub insn: Insn,
    /// What the instruction comes to.
    pub outcome: Outcome,
    /// Where the instruction's access stands, if it has one: its stretches, or the fault of a page.
    pub placed: Option<Result<Stretches, PageFault>>,
    /// The interrupt that the instruction raises, if it does; the rest, but for the packet, is then of no use.
    pub raised: Option<Raised>,
    /// What the update discipline sees of the instruction.
    pub packet: Packet,
}

impl Prepared {
    /// A place for `prepare` to write to, at which no instruction is known yet. It takes no memory, and can't fail.
    pub fn new() -> Prepared
        ensures { result ≡ blank }
    {
        Prepared {
            words: Fetched {
                word: 0,
                suffix: None,
            },
            insn: Insn::new(),
            outcome: Outcome::Done {
                targets: ArrayVec::new(),
                next: 0,
            },
            placed: None,
            raised: None,
            packet: Packet {
                cia: 0,
                word: 0,
                suffix: None,
                touches: ArrayVec::new(),
                deed: Deed::Plain,
                trap: None,
            },
        }
    }
}
