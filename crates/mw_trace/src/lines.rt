ghost use Rattle.std.specs.Prelude.{◌≡◌, ◌^◌, ◌<◌, ◌∷◌, ◌++◌, All, OnOk};
ghost use Rattle.std.specs.List.{join_with_byte};
ghost use Rattle.mw_digits.specs.Digits.{hex};
ghost use Rattle.mw_isa.specs.Text.{kind_word, status_word, fresh_words, why_words, end_words, event_lines, end_line};
ghost use Rattle.mw_isa.specs.Reading.{FitsEvent, FitsWhy, FitsEnd};

use crate::event_line::set_event;
use crate::words::add_hex;
use arrayvec::ArrayVec;
use mw_bits::Bytes;
use mw_digits::add_decimal;
use mw_isa::{Access, BlockStatus, End, Event, Fresh, Kind, Why};
use std::alloc::AllocError as NoMemory;

/// Appends the lines of the events.
pub fn add_events(text: &mut Bytes, events: &[Event]) -> Result<(), NoMemory>
    ensures lines { OnOk result (text.new ≡ text.old ++ event_lines events.now) }
    ensures fit { OnOk result (All FitsEvent events.now) }
{
    let mut row = ArrayVec::new();
    for event in events {
        set_event(&mut row, *event);
        text.add(row.as_slice())?;
    }
    Ok(())
}

/// The word of what an access is for.
fn kind_word(kind: Kind) -> &'static [u8]
    ensures { result.now ≡ kind_word kind }
{
    match kind {
        Kind::Fetch => b"fetch",
        Kind::Load => b"load",
        Kind::Store => b"store",
    }
}

/// The word of what was done to a block.
fn status_word(status: BlockStatus) -> &'static [u8]
    ensures { result.now ≡ status_word status }
{
    match status {
        BlockStatus::Changed => b"changed",
        BlockStatus::Invalidated => b"invalidated",
    }
}

/// Appends the words of what a page comes to by the tables, a blank before each.
fn add_fresh(text: &mut Bytes, fresh: Fresh) -> Result<(), NoMemory>
    ensures { OnOk result (text.new ≡ text.old ++ 32 ∷ join_with_byte 32 (fresh_words fresh)) }
{
    match fresh {
        Fresh::Page(real) => add_hex(text, 16, real),
        Fresh::Fault(vector) => {
            text.add(b" fault")?;
            add_hex(text, 4, vector.address())
        }
    }
}

/// Appends the words of why an access breaks the update discipline, a blank before each.
fn add_why(text: &mut Bytes, why: Why) -> Result<(), NoMemory>
    ensures words { OnOk result (text.new ≡ text.old ++ 32 ∷ join_with_byte 32 (why_words why)) }
    ensures fits { OnOk result (FitsWhy why) }
{
    match why {
        Why::Page { kept, fresh } => {
            text.add(b" page")?;
            add_hex(text, 16, kept)?;
            add_fresh(text, fresh)
        }
        Why::Block { block, status } => {
            text.add(b" block")?;
            add_hex(text, 16, block)?;
            text.add(b" ")?;
            text.add(status_word(status))
        }
    }
}

/// Appends the words of an access that breaks the update discipline, a blank before each.
fn add_access(text: &mut Bytes, access: Access) -> Result<(), NoMemory>
    ensures words { OnOk result (text.new ≡ text.old
        ++ 32 ∷ join_with_byte 32 (kind_word access.kind ∷ hex 16 access.ea ∷ why_words access.why)) }
    ensures ea { OnOk result (access.ea < 2 ^ 64) }
    ensures fits { OnOk result (FitsWhy access.why) }
{
    text.add(b" ")?;
    text.add(kind_word(access.kind))?;
    add_hex(text, 16, access.ea)?;
    add_why(text, access.why)
}

/// Appends the words of the end.
fn add_end_words(text: &mut Bytes, end: End) -> Result<(), NoMemory>
    ensures words { OnOk result (text.new ≡ text.old ++ join_with_byte 32 (end_words end)) }
    ensures fits { OnOk result (FitsEnd end) }
{
    match end {
        End::Ran { cycle } => {
            text.add(b"end ran ")?;
            add_decimal(text, cycle)
        }
        End::Offence { cycle, access } => {
            text.add(b"end offence ")?;
            add_decimal(text, cycle)?;
            add_access(text, access)
        }
    }
}

/// Appends the line of the end.
#[tactic(auto, unfolding(mw_isa::specs::Text::line))]
pub fn add_end(text: &mut Bytes, end: End) -> Result<(), NoMemory>
    ensures line { OnOk result (text.new ≡ text.old ++ end_line end) }
    ensures fits { OnOk result (FitsEnd end) }
{
    add_end_words(text, end)?;
    text.add(b"\n")
}
