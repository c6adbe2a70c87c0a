ghost use Rattle.std.specs.Prelude.{◌≡◌, Ok, [], ◌∷◌, IfOk, IfErr, IsTrue};
ghost use Rattle.mw_uart.specs.Script.{script_of, text_limit};
ghost use Rattle.mw_io.specs.Outside.{Counts};
ghost use Rattle.mw_cli.specs.declared.status.Status.TheVariants.{ReadFault};
ghost use Rattle.mw_cli.specs.Outside.{change, Opens};
ghost use Rattle.mw_cli.specs.Stages.{ending, IsTextRefusal, IsScript, IsScriptRefusal};

use crate::refusal::Refusal;
use crate::transfer::read_file;
use mw_io::Host;
use mw_uart::{BadScript, Script, read_script};
use std::alloc::Global;

/// The most bytes that the text of a script may have.
const MOST_BYTES: usize = 1048576;

/// The script that the text of the file of a name describes.
fn script_of_text<'a>(alloc: Global, name: &'a str, text: &[u8]) -> Result<Script, Refusal<'a>>
    ensures script { IfOk result (λ script. script_of text.now ≡ Ok script) }
    ensures refused { IfErr result (IsTextRefusal name.now text.now) }
{
    match read_script(alloc, text) {
        Ok(script) => Ok(script),
        Err(BadScript::Bad { line, column }) => Err(Refusal::Bad { name, line, column }),
        Err(BadScript::NoMemory) => Err(Refusal::OutOfMemory),
    }
}

/// Reads the script of a name. A text that goes on past the limit is refused there, as its first bytes show. An `Err`
/// says what failed.
pub fn script_of_file<'a, H: Host>(
    alloc: Global,
    name: &'a str,
    host: &mut H,
) -> Result<Script, Refusal<'a>>
    ensures script { IfOk result (IsScript (change (H.state host.old) (H.state host.new)) name.now) }
    ensures refused { IfErr result (IsScriptRefusal (change (H.state host.old) (H.state host.new)) name.now) }
    ensures faults { Counts (H.state host.old).faults (H.state host.new).faults (ending result ≡ ReadFault) }
    ensures opens { Opens (change (H.state host.old) (H.state host.new)) (record { name = name.now; most = text_limit } ∷ []) }
    ensures same_files { (H.state host.new).files ≡ (H.state host.old).files }
    ensures stays_sound { IsTrue (H.state host.old).is_sound → IsTrue (H.state host.new).is_sound }
{
    let text = match read_file(alloc, name, host, MOST_BYTES) {
        Ok(text) => text,
        Err(refusal) => return Err(refusal),
    };
    script_of_text(alloc, name, text.as_slice())
}
