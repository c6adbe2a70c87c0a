ghost use Rattle.std.specs.Prelude.{◌≡◌, None, Some, option_map};
ghost use Rattle.mw_isa.specs.Discipline.{packet_coming, packet_raising};
ghost use Rattle.mw_isa.specs.Step.{data_of, deed_at};
ghost use Rattle.mw_isa.specs.Storage.{IsSized, OnMemory};

use arrayvec::ArrayVec;
use mw_isa::{Deed, Fetched, Outcome, Packet, PageFault, Raised, Stretches, Touch, Vector};
use mw_loadstore::{deed_by, reached};
use mw_sprs::system_deed;

/// Writes the accesses to data that an outcome comes to, in order, over `touches`.
fn set_touches(
    outcome: &Outcome,
    placed: &Option<Result<Stretches, PageFault>>,
    touches: &mut ArrayVec<Touch, 2>,
)
    requires { OnMemory IsSized outcome.now }
    ensures { touches.new.items ≡ data_of outcome.now placed.now }
{
    match outcome {
        Outcome::Done { .. } => touches.clear(),
        Outcome::Long(_) => touches.clear(),
        Outcome::System(_) => touches.clear(),
        Outcome::Trap { .. } => touches.clear(),
        Outcome::Memory(op) => match placed {
            None => touches.clear(),
            Some(_) => *touches = reached(op),
        },
    }
}

/// Writes what an outcome does to changed code and changed translations, where its access stands, a block being reserved
/// or not, over `deed`.
fn set_deed(
    outcome: &Outcome,
    placed: &Option<Result<Stretches, PageFault>>,
    reserve: Option<u32>,
    deed: &mut Deed,
)
    ensures { deed.new ≡ deed_at (Some outcome.now) placed.now reserve }
{
    match outcome {
        Outcome::Done { .. } => *deed = Deed::Plain,
        Outcome::Long(_) => *deed = Deed::Plain,
        Outcome::Trap { .. } => *deed = Deed::Plain,
        Outcome::System(op) => *deed = system_deed(op),
        Outcome::Memory(op) => match placed {
            None => *deed = Deed::Plain,
            Some(Err(_)) => *deed = Deed::Plain,
            Some(Ok(at)) => *deed = deed_by(op.what, at, reserve),
        },
    }
}

/// The vector of an interrupt, if there is one.
fn vector_of(raised: &Option<Raised>) -> Option<Vector>
    ensures { result ≡ option_map (λ it. it.vector) raised.now }
{
    match raised {
        None => None,
        Some(raised) => Some(raised.vector),
    }
}

/// Writes what is seen of an instruction whose fetch fails over `packet`.
pub fn set_failing(cia: u64, raised: &Option<Raised>, packet: &mut Packet)
    ensures { packet.new ≡ packet_raising cia None raised.now }
{
    packet.cia = cia;
    packet.word = 0;
    packet.suffix = None;
    packet.touches.clear();
    packet.deed = Deed::Plain;
    packet.trap = vector_of(raised);
}

/// Writes what is seen of words that are no instruction over `packet`.
pub fn set_raising(cia: u64, words: &Fetched, raised: &Option<Raised>, packet: &mut Packet)
    ensures { packet.new ≡ packet_raising cia (Some words.now) raised.now }
{
    packet.cia = cia;
    packet.word = words.word;
    packet.suffix = words.suffix;
    packet.touches.clear();
    packet.deed = Deed::Plain;
    packet.trap = vector_of(raised);
}

/// Writes what is seen of an instruction that comes to an outcome over `packet`, where its access stands, and it raises this
/// interrupt or none, a block being reserved or not.
pub fn set_coming(
    cia: u64,
    words: &Fetched,
    outcome: &Outcome,
    placed: &Option<Result<Stretches, PageFault>>,
    raised: &Option<Raised>,
    reserve: Option<u32>,
    packet: &mut Packet,
)
    requires { OnMemory IsSized outcome.now }
    ensures { packet.new ≡ packet_coming cia words.now outcome.now placed.now raised.now reserve }
{
    packet.cia = cia;
    packet.word = words.word;
    packet.suffix = words.suffix;
    set_touches(outcome, placed, &mut packet.touches);
    match raised {
        Some(_) => packet.deed = Deed::Plain,
        None => set_deed(outcome, placed, reserve, &mut packet.deed),
    }
    packet.trap = vector_of(raised);
}
