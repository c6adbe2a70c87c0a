ghost use Rattle.std.specs.Prelude.{◌≡◌, ◌<◌, Some};
ghost use Rattle.mw_tables.specs.Rows.{row_count};
ghost use Rattle.mw_isa.specs.Cycle.{event_at};
ghost use Rattle.mw_isa.specs.State.{seen};
ghost use Rattle.mw_isa.specs.Step.{CanFinish, regs_raised, saved_by, state_behind, step, written};
ghost use Rattle.mw_isa.specs.Take.{IsCause};
ghost use Rattle.mw_step.specs.Prepared.{IsPrepared};

use crate::long::finish_long;
use crate::prepared::Prepared;
use crate::storage::access;
use mw_exec::next_of;
use mw_irq::take;
use mw_isa::{Event, Outcome, PageFault, Raised, Regs, State, Stretches, Vector, set_targets};
use mw_sprs::carry;

/// Writes what an outcome writes, where its access stands.
fn write(outcome: &mut Outcome, placed: &Option<Result<Stretches, PageFault>>, state: &mut State)
    requires { CanFinish outcome.old placed.now }
    ensures value { seen state.new ≡ written outcome.old placed.now (seen state.old) }
    ensures room { state.new.devices.room ≡ state.old.devices.room }
{
    match outcome {
        Outcome::Done { targets, .. } => set_targets(targets.as_slice(), &mut state.regs),
        Outcome::Long(op) => finish_long(op, &mut state.regs),
        Outcome::System(op) => carry(op, &mut state.regs, &mut state.devices),
        Outcome::Trap { .. } => {}
        Outcome::Memory(op) => match placed {
            None => {}
            Some(Err(_)) => {}
            Some(Ok(at)) => access(op, at, state),
        },
    }
}

/// Leaves the state behind an instruction at an address.
fn finish(prepared: &mut Prepared, cia: u64, state: &mut State)
    requires row { prepared.old.insn.row < row_count }
    requires can { CanFinish prepared.old.outcome prepared.old.placed }
    ensures value { seen state.new ≡ state_behind (Some prepared.old.insn) (Some prepared.old.outcome) prepared.old.placed cia (seen state.old) }
    ensures room { state.new.devices.room ≡ state.old.devices.room }
{
    let next = next_of(&prepared.insn, &prepared.outcome, &state.regs, cia);
    write(&mut prepared.outcome, &prepared.placed, state);
    state.regs.cia = next;
}

/// The address that an interrupt saves: that of the instruction, for a system call the one behind it.
fn saved_by(vector: Vector, cia: u64) -> u64
    ensures { result ≡ saved_by vector cia }
{
    match vector {
        Vector::SystemCall => cia.wrapping_add(4),
        _ => cia,
    }
}

/// Takes an interrupt that the instruction at CIA raises, and sets DAR and DSISR where it sets them.
fn trap(raised: &Raised, regs: &mut Regs)
    requires { IsCause raised.now.cause }
    ensures { regs.new ≡ regs_raised raised.now regs.old.cia regs.old }
{
    let dar = raised.dar.unwrap_or(regs.dar);
    let dsisr = raised.dsisr.unwrap_or(regs.dsisr);
    let save = saved_by(raised.vector, regs.cia);
    take(regs, raised.vector, raised.cause, save);
    regs.dar = dar;
    regs.dsisr = dsisr;
}

/// Carries out the next instruction, as it was prepared, at the devices' cycle: the state is then the one
/// behind it, and the event says that it retired, or that it trapped (Books I to III). `prepared` is used up,
/// and of no use but to be written over. It can't fail and takes no memory.
pub fn carry_out(state: &mut State, prepared: &mut Prepared) -> Event
    requires { IsPrepared prepared.old (seen state.old) }
    ensures event { result ≡ event_at (step (seen state.old)).trap (seen state.old) }
    ensures after { seen state.new ≡ (step (seen state.old)).after }
    ensures room { state.new.devices.room ≡ state.old.devices.room }
{
    let cia = state.regs.cia;
    let cycle = state.devices.cycle();
    match prepared.raised {
        None => {
            let words = prepared.words;
            finish(prepared, cia, state);
            Event::Retire {
                cycle,
                cia,
                word: words.word,
                suffix: words.suffix,
            }
        }
        Some(raised) => {
            trap(&raised, &mut state.regs);
            Event::Trap {
                cycle,
                cia,
                vector: raised.vector,
            }
        }
    }
}
