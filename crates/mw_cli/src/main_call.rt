ghost use Rattle.std.specs.Prelude.{◌≡◌, None, map, string_bytes, IfOk, IfErr, IsTrue};
ghost use Rattle.mw_io.specs.Outside.{Counts};
ghost use Rattle.mw_cli.specs.declared.status.Status.TheVariants.{ReadFault};
ghost use Rattle.mw_words.specs.Grammar.{order_of};
ghost use Rattle.mw_words.specs.Commands.{order_in, IsBounded};
ghost use Rattle.mw_cli.specs.Files.{files_of};
ghost use Rattle.mw_cli.specs.Outside.{change};
ghost use Rattle.mw_cli.specs.Numbers.{status_of};
ghost use Rattle.mw_cli.specs.Answers.{Gives, Goes, StaysWithout, Written, Says, Faults, Answers, GoesThrough};
ghost use Rattle.mw_cli.specs.Products.{bytes_of};
ghost use Rattle.mw_cli.specs.Stages.{ending, final, GivesNothing, HasCause};

use crate::assembly::image_of;
use crate::disassembly::listing_of;
use crate::product::Product;
use crate::refusal::Refusal;
use crate::report::{report, report_usage};
use crate::run::run;
use crate::seeded::run_of_seed;
use crate::status::{Status, ended};
use crate::writing::write_product;
use mw_bits::Bytes;
use mw_io::{Host, Sink};
use mw_isa::Events;
use mw_words::{Command, WordsFault, read_words};
use std::alloc::Global;

/// The status of a refusal.
fn status_of(refusal: Refusal<'_>) -> Status
    ensures { result ≡ status_of refusal.entry }
{
    match refusal {
        Refusal::Unreadable { .. } => Status::ReadFault,
        Refusal::TooLarge => Status::ImageTooLarge,
        Refusal::Bad { .. } => Status::BadInput,
        Refusal::Unwritable => Status::WriteFault,
        Refusal::OutOfMemory => Status::NoMemory,
    }
}

/// A product that tells of no run.
fn without_run(alloc: Global, rest: Bytes) -> Product
    ensures bytes { bytes_of result ≡ rest }
    ensures end { result.end ≡ None }
{
    Product {
        events: Events::new(alloc),
        rest,
        end: None,
    }
}

/// What a command writes, and the end of its run. An `Err` says why there is nothing to write.
fn output_of<'a, H: Host>(
    alloc: Global,
    command: &Command<'a>,
    host: &mut H,
) -> Result<Product, Refusal<'a>>
    requires bounded { IsBounded command.now }
    ensures gives { IfOk result (λ product. Gives (change (H.state host.old) (H.state host.new)) (order_in command.now) (bytes_of product) product.end) }
    ensures refused { IfErr result (GivesNothing (change (H.state host.old) (H.state host.new)) (order_in command.now)) }
    ensures faults { Counts (H.state host.old).faults (H.state host.new).faults (ending result ≡ ReadFault) }
    ensures goes { Goes (change (H.state host.old) (H.state host.new)) (files_of (order_in command.now)) (ending result) }
    ensures without { StaysWithout (change (H.state host.old) (H.state host.new)) (files_of (order_in command.now)) }
    ensures same_files { (H.state host.new).files ≡ (H.state host.old).files }
    ensures stays_sound { IsTrue (H.state host.old).is_sound → IsTrue (H.state host.new).is_sound }
{
    match command {
        Command::Run(command) => run(alloc, command, host),
        Command::Assemble { source } => match image_of(alloc, *source, host) {
            Ok(rest) => Ok(without_run(alloc, rest)),
            Err(refusal) => Err(refusal),
        },
        Command::Disassemble { image } => match listing_of(alloc, *image, host) {
            Ok(rest) => Ok(without_run(alloc, rest)),
            Err(refusal) => Err(refusal),
        },
        Command::Generate { seed, cycles } => run_of_seed(alloc, *seed, *cycles),
    }
}

/// Does what a command asks for: writes its output to out, all at the end, and answers how it ended. An `Err` says what
/// failed. Out took nothing before the output was whole, and after `Unwritable` or `OutOfMemory` it may have taken a
/// front of it.
fn fulfil<'a, H: Host, S: Sink>(
    alloc: Global,
    command: &Command<'a>,
    host: &mut H,
    out: &mut S,
) -> Result<Status, Refusal<'a>>
    requires bounded { IsBounded command.now }
    ensures written { IfOk result (Written (change (H.state host.old) (H.state host.new)) (change (S.state out.old) (S.state out.new)) (order_in command.now)) }
    ensures refused { IfErr result (HasCause (change (H.state host.old) (H.state host.new)) (change (S.state out.old) (S.state out.new)) (order_in command.now)) }
    ensures faults { Faults (change (H.state host.old) (H.state host.new)) (change (S.state out.old) (S.state out.new)) (final result) }
    ensures goes { Goes (change (H.state host.old) (H.state host.new)) (files_of (order_in command.now)) (final result) }
    ensures without { StaysWithout (change (H.state host.old) (H.state host.new)) (files_of (order_in command.now)) }
    ensures same_files { (H.state host.new).files ≡ (H.state host.old).files }
    ensures stays_sound { IsTrue (H.state host.old).is_sound → IsTrue (H.state host.new).is_sound }
{
    let product = match output_of(alloc, command, host) {
        Ok(product) => product,
        Err(refusal) => return Err(refusal),
    };
    match write_product(out, &product) {
        Ok(()) => Ok(ended(product.end)),
        Err(refusal) => Err(refusal),
    }
}

/// Does what the words ask for.
fn obey<H: Host, O: Sink, E: Sink>(
    alloc: Global,
    words: &[String],
    host: &mut H,
    out: &mut O,
    err: &mut E,
) -> Status
    ensures says { Says (record {
      words = map string_bytes words.now;
      host = change (H.state host.old) (H.state host.new);
      out = change (O.state out.old) (O.state out.new);
      err = change (E.state err.old) (E.state err.new);
    }) result }
    ensures faults { Faults (change (H.state host.old) (H.state host.new)) (change (O.state out.old) (O.state out.new)) result }
    ensures goes_through { GoesThrough (record {
      words = map string_bytes words.now;
      host = change (H.state host.old) (H.state host.new);
      out = change (O.state out.old) (O.state out.new);
      err = change (E.state err.old) (E.state err.new);
    }) result }
    ensures same_files { (H.state host.new).files ≡ (H.state host.old).files }
    ensures stays_sound { IsTrue (H.state host.old).is_sound → IsTrue (H.state host.new).is_sound }
{
    let command = match read_words(alloc, words) {
        Ok(command) => command,
        Err(WordsFault::Usage) => {
            report_usage(err);
            return Status::Usage;
        }
        Err(WordsFault::NoMemory) => {
            report(err, Refusal::OutOfMemory);
            return Status::NoMemory;
        }
    };
    match fulfil(alloc, &command, host, out) {
        Ok(status) => status,
        Err(refusal) => {
            report(err, refusal);
            status_of(refusal)
        }
    }
}

/// Does what the words behind the program's name ask for, and answers how the program ends. The first word is the command;
/// behind it names and options stand in any order, an option as `--x v` or `--x=v`. `run IMAGE --cycles N` reads the image
/// from the host, 16,777,216 bytes at most, runs it from address 0 for N cycles, at most 4,000,000, or up to an instruction
/// that breaks the update discipline, and writes the text of the run to out. `--dump A:L` adds the L bytes of RAM from real
/// address A on, as the run leaves them: at least one byte and at most 65,536, all of them in RAM. `--script FILE` has a
/// script read from the host behind the image, 1,048,576 bytes at most, whose bytes arrive at the UART; without it none
/// does. `asm SOURCE` reads the source from the host, 4,194,304 bytes at most, and writes the bytes of its image to out.
/// `dis IMAGE` reads the image as `run` does, and writes the text of its disassembly to out. `gen SEED --cycles N` opens no
/// file: it runs the image that is made from the seed, and writes a summary of the run to out. Reading stops one byte past
/// the file's limit. The status is `Offence` where the run ended with one, and `Done`
/// where it reached N. Both leave err as it was, and any other status writes its line there, or a front of it where a
/// write to err fails; the status stays what it is. Out takes nothing under another status, but for `WriteFault` and
/// `NoMemory`, which may leave a front of the text or of the image, and never all of it.
pub fn mw_main<H: Host, O: Sink, E: Sink>(
    alloc: Global,
    words: &[String],
    host: &mut H,
    out: &mut O,
    err: &mut E,
) -> Status
    ensures answers { Answers (record {
      words = map string_bytes words.now;
      host = change (H.state host.old) (H.state host.new);
      out = change (O.state out.old) (O.state out.new);
      err = change (E.state err.old) (E.state err.new);
    }) result }
    ensures goes_through { GoesThrough (record {
      words = map string_bytes words.now;
      host = change (H.state host.old) (H.state host.new);
      out = change (O.state out.old) (O.state out.new);
      err = change (E.state err.old) (E.state err.new);
    }) result }
    ensures same_files { (H.state host.new).files ≡ (H.state host.old).files }
    ensures stays_sound { IsTrue (H.state host.old).is_sound → IsTrue (H.state host.new).is_sound }
{
    obey(alloc, words, host, out, err)
}
