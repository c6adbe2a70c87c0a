ghost use Rattle.std.specs.Prelude.{◌≡◌, ◌+◌, ◌≤◌, length, IfOk, IfErr, IfSome, IsTrue};
ghost use Rattle.mw_bus.specs.Memory.{ram_size};
ghost use Rattle.mw_isa.specs.Reading.{end_of};
ghost use Rattle.mw_words.specs.Grammar.{Run};
ghost use Rattle.mw_words.specs.Commands.{run_in, IsInRam};
ghost use Rattle.mw_cli.specs.Files.{files_of};
ghost use Rattle.mw_cli.specs.Headline.{run_of, SpellsRun};
ghost use Rattle.mw_io.specs.Outside.{Counts};
ghost use Rattle.mw_cli.specs.declared.status.Status.TheVariants.{ReadFault};
ghost use Rattle.mw_cli.specs.Outside.{change};
ghost use Rattle.mw_cli.specs.Answers.{Gives, Goes};
ghost use Rattle.mw_cli.specs.Products.{bytes_of};
ghost use Rattle.mw_cli.specs.Stages.{ending, IsRunRefusal, GivesNothing, IsStart};

use crate::product::Product;
use crate::refusal::Refusal;
use crate::script::script_of_file;
use crate::transfer::read_image;
use mw_board::{RunFault, simulate};
use mw_io::Host;
use mw_isa::Span;
use mw_trace::{events_fit, print_behind};
use mw_uart::Script;
use mw_words::RunCommand;
use std::alloc::Global;

/// What the board is started with.
#[derive(Drop)]
struct Start {
    /// The bytes that stand in RAM, which has room for them.
    image: Vec<u8>,
    /// The bytes that arrive at the UART.
    script: Script,
}

/// The text of a run of an image and a script, and the run's end. An `Err` says that memory is wanting.
fn text_of_run<'a>(
    alloc: Global,
    image: &[u8],
    script: &Script,
    cycles: u64,
    dump: Option<Span>,
) -> Result<Product, Refusal<'a>>
    requires fits { length image.now ≤ ram_size }
    requires few { cycles ≤ 4000000 }
    requires room { IfSome dump (λ span. span.at + span.len ≤ ram_size) }
    ensures text { IfOk result (λ product. SpellsRun (run_of image.now script.now cycles dump) (bytes_of product)) }
    ensures end { IfOk result (λ product. product.end ≡ end_of (bytes_of product)) }
    ensures refused { IfErr result IsRunRefusal }
{
    let run = match simulate(alloc, image, script, cycles) {
        Ok(run) => run,
        Err(RunFault::ImageTooLarge) => return Err(Refusal::TooLarge),
        Err(RunFault::NoMemory) => return Err(Refusal::OutOfMemory),
    };
    events_fit(run.events.as_slice());
    match print_behind(alloc, &run.end, &run.state, dump) {
        Ok(rest) => Ok(Product {
            events: run.events,
            rest,
            end: Some(run.end),
        }),
        Err(_) => Err(Refusal::OutOfMemory),
    }
}

/// Reads the image of a command, and then its script. No byte arrives where it names none.
fn read_start<'a, H: Host>(
    alloc: Global,
    command: &RunCommand<'a>,
    host: &mut H,
) -> Result<Start, Refusal<'a>>
    ensures start { IfOk result (λ start. IsStart (change (H.state host.old) (H.state host.new)) (run_in command.now) start.image.items start.script) }
    ensures refused { IfErr result (GivesNothing (change (H.state host.old) (H.state host.new)) (Run (run_in command.now))) }
    ensures faults { Counts (H.state host.old).faults (H.state host.new).faults (ending result ≡ ReadFault) }
    ensures goes { Goes (change (H.state host.old) (H.state host.new)) (files_of (Run (run_in command.now))) (ending result) }
    ensures same_files { (H.state host.new).files ≡ (H.state host.old).files }
    ensures stays_sound { IsTrue (H.state host.old).is_sound → IsTrue (H.state host.new).is_sound }
{
    let image = match read_image(alloc, command.image, host) {
        Ok(image) => image,
        Err(refusal) => return Err(refusal),
    };
    match command.script {
        None => Ok(Start {
            image,
            script: Script::new(alloc),
        }),
        Some(name) => match script_of_file(alloc, name, host) {
            Ok(script) => Ok(Start { image, script }),
            Err(refusal) => Err(refusal),
        },
    }
}

/// Reads the files of a command and runs it: the text of the run, and the run's end. An `Err` says what failed.
pub fn run<'a, H: Host>(
    alloc: Global,
    command: &RunCommand<'a>,
    host: &mut H,
) -> Result<Product, Refusal<'a>>
    requires few { command.now.cycles ≤ 4000000 }
    requires room { IsInRam command.now.dump }
    ensures gives { IfOk result (λ product. Gives (change (H.state host.old) (H.state host.new)) (Run (run_in command.now)) (bytes_of product) product.end) }
    ensures refused { IfErr result (GivesNothing (change (H.state host.old) (H.state host.new)) (Run (run_in command.now))) }
    ensures faults { Counts (H.state host.old).faults (H.state host.new).faults (ending result ≡ ReadFault) }
    ensures goes { Goes (change (H.state host.old) (H.state host.new)) (files_of (Run (run_in command.now))) (ending result) }
    ensures same_files { (H.state host.new).files ≡ (H.state host.old).files }
    ensures stays_sound { IsTrue (H.state host.old).is_sound → IsTrue (H.state host.new).is_sound }
{
    let start = match read_start(alloc, command, host) {
        Ok(start) => start,
        Err(refusal) => return Err(refusal),
    };
    text_of_run(
        alloc,
        start.image.as_slice(),
        &start.script,
        command.cycles,
        command.dump,
    )
}
