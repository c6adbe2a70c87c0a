ghost use Rattle.std.specs.Prelude.{◌≡◌, ◌+◌, ◌≤◌, [], ◌∷◌, ◌++◌, decimal, length};
ghost use Rattle.std.specs.List.{join_with_byte};
ghost use Rattle.std.specs.Option.{option_map_or};
ghost use Rattle.mw_digits.specs.Digits.{hex};
ghost use Rattle.mw_isa.specs.Text.{line, event_words};
ghost use Rattle.mw_isa.specs.Reading.{FitsEvent};

use crate::words::instruction;
use arrayvec::ArrayVec;
use mw_digits::write_hex;
use mw_isa::Event;

/// Appends a piece to a line that has room for it.
fn push(line: &mut ArrayVec<u8, 64>, piece: &[u8])
    requires { length line.old.items + length piece.now ≤ 64 }
    ensures { line.new.items ≡ line.old.items ++ piece.now }
{
    let Ok(()) = line.try_extend_from_slice(piece) else {
        unreachable!();
    };
}

/// The first two words of an event, its kind and its cycle, in an empty line.
fn push_head(line: &mut ArrayVec<u8, 64>, kind: u8, cycle: u64)
    requires { line.old.items ≡ [] }
    ensures words { line.new.items ≡ join_with_byte 32 ((kind ∷ []) ∷ decimal cycle ∷ []) }
    ensures short { length line.new.items ≤ 22 }
{
    push(line, &[kind, b' ']);
    push(line, itoa::Buffer::new().format(cycle).as_bytes());
}

/// Appends a blank and a number in hexadecimal digits, 4 or 8 or 16 of them.
fn push_hex(line: &mut ArrayVec<u8, 64>, digits: usize, number: u64)
    requires few { digits ≤ 16 }
    requires room { length line.old.items + digits ≤ 63 }
    ensures word { line.new.items ≡ line.old.items ++ 32 ∷ hex digits number }
    ensures len { length line.new.items ≡ length line.old.items + 1 + digits }
{
    let mut word = [b' '; 17];
    write_hex(&mut word[1..=digits], number);
    push(line, &word[..=digits]);
}

/// Appends the word behind a prefix, if there is one.
fn push_suffix(line: &mut ArrayVec<u8, 64>, suffix: Option<u32>)
    requires { length line.old.items ≤ 48 }
    ensures word { line.new.items ≡ line.old.items ++ option_map_or (λ word. 32 ∷ hex 8 word) suffix [] }
    ensures short { length line.new.items ≤ 57 }
{
    if let Some(word) = suffix {
        push_hex(line, 8, u64::from(word));
    }
}

/// The words of an event, in an empty line.
fn push_words(line: &mut ArrayVec<u8, 64>, event: Event)
    requires { line.old.items ≡ [] }
    ensures words { line.new.items ≡ join_with_byte 32 (event_words event) }
    ensures fits { FitsEvent event }
    ensures short { length line.new.items ≤ 57 }
{
    match event {
        Event::Retire {
            cycle,
            cia,
            word,
            suffix,
        } => {
            push_head(line, b'R', cycle);
            push(line, &instruction(cia, word));
            push_suffix(line, suffix);
        }
        Event::Trap { cycle, cia, vector } => {
            push_head(line, b'T', cycle);
            push_hex(line, 16, cia);
            push_hex(line, 4, vector.address());
        }
        Event::Irq { cycle, nia, vector } => {
            push_head(line, b'I', cycle);
            push_hex(line, 16, nia);
            push_hex(line, 4, vector.address());
        }
    }
}

/// The line of an event, in place of what the line was.
#[tactic(auto, unfolding(mw_isa::specs::Text::line))]
pub fn set_event(row: &mut ArrayVec<u8, 64>, event: Event)
    ensures line { row.new.items ≡ line (event_words event) }
    ensures fits { FitsEvent event }
    ensures short { length row.new.items ≤ 58 }
{
    row.clear();
    push_words(row, event);
    push(row, b"\n");
}
