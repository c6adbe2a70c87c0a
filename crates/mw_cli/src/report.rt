ghost use Rattle.std.specs.Prelude.{◌≡◌, ◌≤◌, ◌++◌, MatchBool, codes, decimal};
ghost use Rattle.mw_cli.specs.Verdict.{place_line, bad_line};
ghost use Rattle.mw_cli.specs.Outside.{change, Took, Stopped, TookUnlessFault};
ghost use Rattle.mw_cli.specs.Answers.{usage_line};
ghost use Rattle.mw_cli.specs.Stages.{line_of};

use crate::refusal::Refusal;
use mw_io::{Sink, write_all};

/// Writes a piece, and says whether the sink took it whole.
fn write_piece<S: Sink>(sink: &mut S, piece: &[u8]) -> bool
    ensures cases { let w = change (S.state sink.old) (S.state sink.new) in
        MatchBool result (Took w piece.now) (Stopped w piece.now) }
    ensures faults { (S.state sink.old).faults ≤ (S.state sink.new).faults }
    ensures wants { (S.state sink.old).wants ≤ (S.state sink.new).wants }
{
    match write_all(sink, piece) {
        Ok(()) => true,
        Err(_) => false,
    }
}

/// Writes two pieces, and says whether the sink took them whole.
fn write_both<S: Sink>(sink: &mut S, first: &[u8], second: &[u8]) -> bool
    ensures cases { let w = change (S.state sink.old) (S.state sink.new) in
        MatchBool result (Took w (first.now ++ second.now)) (Stopped w (first.now ++ second.now)) }
    ensures faults { (S.state sink.old).faults ≤ (S.state sink.new).faults }
    ensures wants { (S.state sink.old).wants ≤ (S.state sink.new).wants }
{
    if write_piece(sink, first) {
        write_piece(sink, second)
    } else {
        false
    }
}

/// Writes three pieces, and says whether the sink took them whole.
fn write_three<S: Sink>(sink: &mut S, first: &[u8], second: &[u8], third: &[u8]) -> bool
    ensures cases { let w = change (S.state sink.old) (S.state sink.new) in
        MatchBool result (Took w (first.now ++ second.now ++ third.now)) (Stopped w (first.now ++ second.now ++ third.now)) }
    ensures faults { (S.state sink.old).faults ≤ (S.state sink.new).faults }
    ensures wants { (S.state sink.old).wants ≤ (S.state sink.new).wants }
{
    if write_both(sink, first, second) {
        write_piece(sink, third)
    } else {
        false
    }
}

/// Writes a number in decimal and a piece, and says whether the sink took them whole.
fn write_number<S: Sink>(sink: &mut S, number: u32, piece: &[u8]) -> bool
    ensures cases { let w = change (S.state sink.old) (S.state sink.new) in
        MatchBool result (Took w (decimal number ++ piece.now)) (Stopped w (decimal number ++ piece.now)) }
    ensures faults { (S.state sink.old).faults ≤ (S.state sink.new).faults }
    ensures wants { (S.state sink.old).wants ≤ (S.state sink.new).wants }
{
    write_both(sink, itoa::Buffer::new().format(number).as_bytes(), piece)
}

/// Writes a line and a column, up to the end of the line on err, and says whether the sink took them whole.
fn write_place<S: Sink>(sink: &mut S, line: u32, column: u32) -> bool
    ensures cases { let w = change (S.state sink.old) (S.state sink.new) in
        MatchBool result (Took w (place_line line column)) (Stopped w (place_line line column)) }
    ensures faults { (S.state sink.old).faults ≤ (S.state sink.new).faults }
    ensures wants { (S.state sink.old).wants ≤ (S.state sink.new).wants }
{
    if write_number(sink, line, b":") {
        write_number(sink, column, b": bad input\n")
    } else {
        false
    }
}

/// Writes one piece, as far as the sink takes it.
fn write_one<S: Sink>(sink: &mut S, piece: &[u8])
    ensures took { TookUnlessFault (change (S.state sink.old) (S.state sink.new)) piece.now }
    ensures faults { (S.state sink.old).faults ≤ (S.state sink.new).faults }
    ensures wants { (S.state sink.old).wants ≤ (S.state sink.new).wants }
{
    write_piece(sink, piece);
}

/// Writes to err the line `mw: usage: ` with the commands and their words. Where a write fails, err keeps a front of the line.
pub fn report_usage<S: Sink>(err: &mut S)
    ensures took { TookUnlessFault (change (S.state err.old) (S.state err.new)) usage_line }
    ensures faults { (S.state err.old).faults ≤ (S.state err.new).faults }
    ensures wants { (S.state err.old).wants ≤ (S.state err.new).wants }
{
    write_one(
        err,
        b"mw: usage: mw run IMAGE --cycles N [--script FILE] [--dump A:L] | asm SOURCE | dis IMAGE | gen SEED --cycles N\n",
    );
}

/// Writes to err the line of a refused source or script: its name and the refused place, as far as the sink takes it.
fn report_bad<S: Sink>(err: &mut S, name: &str, line: u32, column: u32)
    ensures took { TookUnlessFault (change (S.state err.old) (S.state err.new)) (bad_line name.now line column) }
    ensures faults { (S.state err.old).faults ≤ (S.state err.new).faults }
    ensures wants { (S.state err.old).wants ≤ (S.state err.new).wants }
{
    if write_three(err, b"mw: ", name.as_bytes(), b":") {
        write_place(err, line, column);
    }
}

/// Writes to err three pieces of a line, as far as the sink takes them.
fn report_three<S: Sink>(err: &mut S, first: &[u8], second: &[u8], third: &[u8])
    ensures took { TookUnlessFault (change (S.state err.old) (S.state err.new)) (first.now ++ second.now ++ third.now) }
    ensures faults { (S.state err.old).faults ≤ (S.state err.new).faults }
    ensures wants { (S.state err.old).wants ≤ (S.state err.new).wants }
{
    write_three(err, first, second, third);
}

/// Writes to err the line of a refusal: its cause, with the file's name and the refused place where it has one. Where a
/// write fails, err keeps a front of the line.
pub fn report<S: Sink>(err: &mut S, refusal: Refusal<'_>)
    ensures took { TookUnlessFault (change (S.state err.old) (S.state err.new)) (line_of refusal.entry) }
    ensures faults { (S.state err.old).faults ≤ (S.state err.new).faults }
    ensures wants { (S.state err.old).wants ≤ (S.state err.new).wants }
{
    match refusal {
        Refusal::Unreadable { name } => report_three(
            err,
            b"mw: cannot read ",
            name.as_bytes(),
            b"\n",
        ),
        Refusal::TooLarge => write_one(err, b"mw: image exceeds 16777216 bytes\n"),
        Refusal::Bad { name, line, column } => report_bad(err, name, line, column),
        Refusal::Unwritable => write_one(err, b"mw: cannot write\n"),
        Refusal::OutOfMemory => write_one(err, b"mw: out of memory\n"),
    }
}
