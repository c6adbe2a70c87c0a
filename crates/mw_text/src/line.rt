ghost use Rattle.std.specs.Prelude.{◌≡◌, ◌^◌, ◌<◌, length, All, Ok, Err, IfOk, IfErr};
ghost use Rattle.mw_text.specs.declared.line.LineFault.TheVariants.{NoMemory as LineNoMemory};
ghost use Rattle.mw_text.specs.Lines.{tokens_of, AreSpans, AreTokens, IfBad, IsRefused, IsSpan};
ghost use Rattle.mw_text.specs.Texts.{AreLongest};

use crate::piece::{Piece, piece_at};
use crate::token::Token;
use crate::tokens::Tokens;
use std::alloc::{AllocError, Global};

/// Why a line has no tokens.
#[derive(Clone, Copy, Debug, PartialEq, Eq)]
pub enum LineFault {
    /// No token stands at a byte, or a number above 64 bits begins there.
    Bad {
        /// The byte's column; the line's first byte is column 1.
        column: u32,
    },
    /// There was no memory for the tokens.
    NoMemory,
}

impl From<AllocError> for LineFault {
    ghost from_gives = { λ _ e. e ≡ LineNoMemory };

    fn from(_: AllocError) -> LineFault {
        LineFault::NoMemory
    }
}

/// The tokens of a line, which is given without its line feed. The error is the first byte at which no
/// token stands or at which a number above 64 bits begins, or want of memory.
pub fn read_line(alloc: Global, line: &[u8]) -> Result<Tokens, LineFault>
    requires { length line.now < 2 ^ 32 }
    ensures tokens { IfOk result (λ tokens. tokens_of line.now ≡ Ok tokens) }
    ensures bad { IfErr result (λ fault. IfBad fault (λ column. tokens_of line.now ≡ Err column)) }
    ensures refused { IfErr result (λ fault. IfBad fault (IsRefused line.now)) }
    ensures spans { IfOk result (AreSpans 0 (length line.now)) }
    ensures within { IfOk result (All (IsSpan (length line.now))) }
    ensures longest { IfOk result (AreLongest line.now) }
    ensures each { IfOk result (AreTokens line.now 0) }
{
    let mut tokens = Tokens::new(alloc);
    let mut at = 0;
    while at < line.len() {
        match piece_at(&line[at..]) {
            Piece::Blank => at += 1,
            Piece::Comment => return Ok(tokens),
            Piece::Found { kind, length } => {
                let to = at + length;
                tokens.push(Token {
                    kind,
                    from: at as u32,
                    to: to as u32,
                })?;
                at = to;
            }
            Piece::Bad => {
                return Err(LineFault::Bad {
                    column: at as u32 + 1,
                });
            }
        }
    }
    Ok(tokens)
}
