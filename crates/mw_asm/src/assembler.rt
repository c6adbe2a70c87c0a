ghost use Rattle.std.specs.Prelude.{◌≡◌, ◌+◌, ◌<◌, ◌≤◌, Ok, Err, Some, None, IfOk, IfErr, length};
ghost use Rattle.mw_syntax.specs.declared.fault.What.TheVariants.{TooLong};
ghost use Rattle.mw_asm.specs.declared.fault.AsmFault.TheVariants.{Bad};
ghost use Rattle.mw_asm.specs.Assembled.{assembled, image_limit, last_of, lines_of, place_past, source_limit};
ghost use Rattle.mw_asm.specs.Passes.{IfBad};
ghost use Rattle.mw_asm.specs.Source.{meaning_of, refusal_of};

use crate::fault::AsmFault;
use crate::passes::{cut_line, place_labels, write_lines};
use mw_bits::Bytes;
use mw_syntax::What;
use std::alloc::Global;

/// A source has at most 4 MiB.
const SOURCE_LIMIT: usize = 4_194_304;

/// The place behind a text, where a source is too long.
fn behind_text(text: &[u8]) -> AsmFault
    requires { length text.now ≤ source_limit }
    ensures { result ≡ Bad (length (lines_of text.now)) (length (last_of (lines_of text.now)) + 1) TooLong }
{
    let mut line = 1;
    let mut rest = text;
    loop {
        let (first, behind) = cut_line(rest);
        match behind {
            Some(behind) => rest = behind,
            None => {
                return AsmFault::Bad {
                    line,
                    column: first.len() as u32 + 1,
                    what: What::TooLong,
                };
            }
        }
        line += 1;
    }
}

/// The first byte past the limit of a source.
fn past(source: &[u8]) -> AsmFault
    requires { source_limit < length source.now }
    ensures { IfBad result (λ place. place ≡ place_past source.now) }
{
    behind_text(&source[..SOURCE_LIMIT])
}

/// The bytes that both passes give, or the first refused place.
fn pass_twice(alloc: Global, source: &[u8]) -> Result<Bytes, AsmFault>
    ensures ok { IfOk result (λ bytes. assembled source.now ≡ Ok bytes) }
    ensures bad { IfErr result (λ fault. IfBad fault (λ place. assembled source.now ≡ Err place)) }
    ensures fits { IfOk result (λ bytes. length bytes ≤ image_limit) }
{
    if source.len() > SOURCE_LIMIT {
        return Err(past(source));
    }
    match place_labels(alloc, source) {
        Ok(labels) => write_lines(alloc, source, &labels),
        Err(fault) => Err(fault),
    }
}

/// The bytes of the image that a source describes, from address 0 on, at most 16,777,216; or its first
/// refused place.
///
/// A line is blank, or has an optional label `name:`, then an optional statement: a directive or an
/// instruction with its operands. `#` begins a comment. Lines are read twice: the first pass places
/// labels and refuses what is wrong before values are known, in order of lines; the second gives the
/// bytes and refuses labels that aren't defined and values out of range. A source of more than 4 MiB is
/// refused at its first byte past the limit, before all else. The other error is want of memory.
pub fn assemble(alloc: Global, source: &[u8]) -> Result<Bytes, AsmFault>
    ensures ok { IfOk result (λ bytes. assembled source.now ≡ Ok bytes) }
    ensures bad { IfErr result (λ fault. IfBad fault (λ place. assembled source.now ≡ Err place)) }
    ensures fits { IfOk result (λ bytes. length bytes ≤ image_limit) }
    ensures meaning { IfOk result (λ bytes. (refusal_of source.now ≡ None) × (bytes ≡ meaning_of source.now)) }
    ensures refusal { IfErr result (λ fault. IfBad fault (λ place. refusal_of source.now ≡ Some place)) }
{
    pass_twice(alloc, source)
}
