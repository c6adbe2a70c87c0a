ghost use Rattle.std.specs.Prelude.{◌≡◌, OnOk, IfErr};
ghost use Rattle.mw_io.specs.Outside.{Counts};
ghost use Rattle.mw_isa.specs.Text.{event_lines};
ghost use Rattle.mw_cli.specs.declared.status.Status.TheVariants.{WriteFault, NoMemory};
ghost use Rattle.mw_cli.specs.Outside.{change, Took};
ghost use Rattle.mw_cli.specs.Products.{bytes_of};
ghost use Rattle.mw_cli.specs.Stages.{ending, IsWriteRefusal};

use crate::product::Product;
use crate::refusal::Refusal;
use crate::transfer::write_out;
use arrayvec::ArrayVec;
use mw_io::Sink;
use mw_isa::Event;
use mw_trace::{EVENTS_AT_ONCE, set_lines};

/// Writes the lines of events, those of some at a time. It takes no memory but the sink's. After an `Err` out has taken a
/// front of them, and not all.
fn write_events<'a, S: Sink>(out: &mut S, events: &[Event]) -> Result<(), Refusal<'a>>
    ensures took { OnOk result (Took (change (S.state out.old) (S.state out.new)) (event_lines events.now)) }
    ensures refused { IfErr result (IsWriteRefusal (change (S.state out.old) (S.state out.new)) (event_lines events.now)) }
    ensures faults { Counts (S.state out.old).faults (S.state out.new).faults (ending result ≡ WriteFault) }
    ensures wants { Counts (S.state out.old).wants (S.state out.new).wants (ending result ≡ NoMemory) }
{
    let mut piece = ArrayVec::new();
    let mut at = 0;
    while at < events.len() {
        let end = EVENTS_AT_ONCE.min(events.len() - at) + at;
        set_lines(&mut piece, &events[at..end]);
        match write_out(out, piece.as_slice()) {
            Ok(()) => at = end,
            Err(refusal) => return Err(refusal),
        }
    }
    Ok(())
}

/// Writes what an order gives. After an `Err` out has taken a front of it, and not all.
pub fn write_product<'a, S: Sink>(out: &mut S, product: &Product) -> Result<(), Refusal<'a>>
    ensures took { OnOk result (Took (change (S.state out.old) (S.state out.new)) (bytes_of product.now)) }
    ensures refused { IfErr result (IsWriteRefusal (change (S.state out.old) (S.state out.new)) (bytes_of product.now)) }
    ensures faults { Counts (S.state out.old).faults (S.state out.new).faults (ending result ≡ WriteFault) }
    ensures wants { Counts (S.state out.old).wants (S.state out.new).wants (ending result ≡ NoMemory) }
{
    match write_events(out, product.events.as_slice()) {
        Ok(()) => write_out(out, product.rest.as_slice()),
        Err(refusal) => Err(refusal),
    }
}
