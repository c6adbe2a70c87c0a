ghost use Rattle.std.specs.Prelude.{◌≡◌, ◌-◌, ◌^◌, ◌<◌, ◌≤◌, length, All, Ok, Err, IfOk, IfErr};
ghost use Rattle.mw_text.specs.Lines.{IsSpan};
ghost use Rattle.mw_syntax.specs.declared.data.ValuesFault.TheVariants.{NoMemory as ValuesNoMemory};
ghost use Rattle.mw_syntax.specs.Lines.{unit_of, values_at};
ghost use Rattle.mw_syntax.specs.Faults.{IfPlace};

use crate::item::Item;
use crate::operands::is_mark;
use crate::reading::expression_at;
use crate::statement::Unit;
use crate::values::Values;
use mw_text::Token;
use std::alloc::{AllocError, Global};

/// Why values aren't read.
#[derive(Clone, Copy, Debug, PartialEq, Eq)]
pub(crate) enum ValuesFault {
    /// The token at this place can't stand there.
    Refused {
        /// How many tokens of the line stand before it.
        place: usize,
    },
    /// There was no memory for the values.
    NoMemory,
}

impl From<AllocError> for ValuesFault {
    ghost from_gives = { λ _ e. e ≡ ValuesNoMemory };

    fn from(_: AllocError) -> ValuesFault {
        ValuesFault::NoMemory
    }
}

/// What a directive of data gives for each expression.
pub(crate) fn unit_of(name: &[u8]) -> Option<Unit>
    ensures { result ≡ unit_of name.now }
{
    if name == b".byte".as_slice() {
        Some(Unit::Byte)
    } else if name == b".long".as_slice() {
        Some(Unit::Long)
    } else if name == b".quad".as_slice() {
        Some(Unit::Quad)
    } else if name == b".be64".as_slice() {
        Some(Unit::BigQuad)
    } else {
        None
    }
}

/// The values that are written from a place on, one or more joined by commas, up to the line's end. Each
/// has a token at least.
pub(crate) fn read_values(
    alloc: Global,
    line: &[u8],
    tokens: &[Token],
    start: usize,
) -> Result<Values, ValuesFault>
    requires short { length line.now < 2 ^ 32 - 1 }
    requires within { All (IsSpan (length line.now)) tokens.now }
    requires inside { start ≤ length tokens.now }
    ensures ok { IfOk result
        (λ values. values_at (length tokens.now) line.now tokens.now start ≡ Ok values) }
    ensures err { IfErr result (λ fault. IfPlace fault
        (λ place. values_at (length tokens.now) line.now tokens.now start ≡ Err place)) }
{
    let mut values = Values::new(alloc);
    let mut place = start;
    for _ in 0..tokens.len() {
        let read = match expression_at(line, tokens, place) {
            Ok(read) => read,
            Err(place) => return Err(ValuesFault::Refused { place }),
        };
        values.push(read.expression)?;
        if read.next == tokens.len() {
            return Ok(values);
        }
        if !is_mark(Item::Comma, tokens, read.next) {
            return Err(ValuesFault::Refused { place: read.next });
        }
        place = read.next + 1;
    }
    Err(ValuesFault::Refused { place })
}
