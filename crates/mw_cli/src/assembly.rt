ghost use Rattle.std.specs.Prelude.{◌≡◌, None, IfOk, IfErr, IsTrue};
ghost use Rattle.mw_words.specs.Grammar.{Assemble};
ghost use Rattle.mw_cli.specs.Files.{files_of};
ghost use Rattle.mw_io.specs.Outside.{Counts};
ghost use Rattle.mw_cli.specs.declared.status.Status.TheVariants.{ReadFault};
ghost use Rattle.mw_cli.specs.Outside.{change};
ghost use Rattle.mw_cli.specs.Answers.{Gives, Goes};
ghost use Rattle.mw_cli.specs.Stages.{ending, GivesNothing};

use crate::refusal::Refusal;
use crate::transfer::read_file;
use mw_asm::{AsmFault, assemble};
use mw_bits::Bytes;
use mw_io::Host;
use std::alloc::Global;

/// The most bytes that a source may have.
const MOST_BYTES: usize = 4194304;

/// Reads the source of a name and assembles it: the bytes of its image. A source that goes on past the limit is refused
/// there, as its first bytes show. An `Err` says which of the two failed.
pub fn image_of<'a, H: Host>(
    alloc: Global,
    source: &'a str,
    host: &mut H,
) -> Result<Bytes, Refusal<'a>>
    ensures gives { IfOk result (λ bytes. Gives (change (H.state host.old) (H.state host.new)) (Assemble source.now) bytes None) }
    ensures refused { IfErr result (GivesNothing (change (H.state host.old) (H.state host.new)) (Assemble source.now)) }
    ensures faults { Counts (H.state host.old).faults (H.state host.new).faults (ending result ≡ ReadFault) }
    ensures goes { Goes (change (H.state host.old) (H.state host.new)) (files_of (Assemble source.now)) (ending result) }
    ensures same_files { (H.state host.new).files ≡ (H.state host.old).files }
    ensures stays_sound { IsTrue (H.state host.old).is_sound → IsTrue (H.state host.new).is_sound }
{
    let bytes = match read_file(alloc, source, host, MOST_BYTES) {
        Ok(bytes) => bytes,
        Err(refusal) => return Err(refusal),
    };
    match assemble(alloc, bytes.as_slice()) {
        Ok(image) => Ok(image),
        Err(AsmFault::Bad { line, column, .. }) => Err(Refusal::Bad {
            name: source,
            line,
            column,
        }),
        Err(AsmFault::NoMemory) => Err(Refusal::OutOfMemory),
    }
}
