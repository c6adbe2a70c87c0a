ghost use Rattle.std.specs.Prelude.{◌≡◌, None, IfOk, IfErr, IsTrue};
ghost use Rattle.mw_words.specs.Grammar.{Disassemble};
ghost use Rattle.mw_cli.specs.Files.{files_of};
ghost use Rattle.mw_io.specs.Outside.{Counts};
ghost use Rattle.mw_cli.specs.declared.status.Status.TheVariants.{ReadFault};
ghost use Rattle.mw_cli.specs.Outside.{change};
ghost use Rattle.mw_cli.specs.Answers.{Gives, Goes};
ghost use Rattle.mw_cli.specs.Stages.{ending, GivesNothing};

use crate::refusal::Refusal;
use crate::transfer::read_image;
use mw_asm::disassemble;
use mw_bits::Bytes;
use mw_io::Host;
use std::alloc::Global;

/// Reads the image of a name and disassembles it: the text. An `Err` says which of the two failed.
pub fn listing_of<'a, H: Host>(
    alloc: Global,
    image: &'a str,
    host: &mut H,
) -> Result<Bytes, Refusal<'a>>
    ensures gives { IfOk result (λ text. Gives (change (H.state host.old) (H.state host.new)) (Disassemble image.now) text None) }
    ensures refused { IfErr result (GivesNothing (change (H.state host.old) (H.state host.new)) (Disassemble image.now)) }
    ensures faults { Counts (H.state host.old).faults (H.state host.new).faults (ending result ≡ ReadFault) }
    ensures goes { Goes (change (H.state host.old) (H.state host.new)) (files_of (Disassemble image.now)) (ending result) }
    ensures same_files { (H.state host.new).files ≡ (H.state host.old).files }
    ensures stays_sound { IsTrue (H.state host.old).is_sound → IsTrue (H.state host.new).is_sound }
{
    let bytes = match read_image(alloc, image, host) {
        Ok(bytes) => bytes,
        Err(refusal) => return Err(refusal),
    };
    match disassemble(alloc, bytes.as_slice()) {
        Ok(text) => Ok(text),
        Err(_) => Err(Refusal::OutOfMemory),
    }
}
