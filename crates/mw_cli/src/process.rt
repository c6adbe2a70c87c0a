ghost use Rattle.std.specs.Prelude.{◌≡◌, List, ℕ, IsTrue};
ghost use Rattle.mw_cli.specs.Outside.{change};
ghost use Rattle.mw_cli.specs.Answers.{AreWords, EndsAs, Ends};

use crate::main_call::mw_main;
use crate::refusal::Refusal;
use crate::report::report;
use crate::status::Status;
use mw_io::{Host, Sink};
use std::alloc::{AllocError, Global};
use std::env;
use std::io::ErrorKind;
use std::process::ExitCode;
use std::rt::Env;

/// The words behind the program's name. Words that aren't text are none, which no command has.
pub fn words_of<R: Env + AllocGlobal>(rt: &R) -> Result<Vec<String>, AllocError> {
    let alloc = rt.alloc();
    match env::args(rt) {
        Ok(all) => all.skip(1).collect(alloc),
        Err(error) => match error.kind() {
            ErrorKind::OutOfMemory => Err(AllocError),
            _ => Ok(Vec::new(alloc)),
        },
    }
}

/// Does what the words ask for, as `mw_main`. Where there was no memory for them, err is told so.
fn status_of_words<H: Host, O: Sink, E: Sink>(
    alloc: Global,
    words: Result<Vec<String>, AllocError>,
    host: &mut H,
    out: &mut O,
    err: &mut E,
) -> Status
    ensures ends { (given : List (List ℕ)) → AreWords words given → EndsAs (record {
      words = given;
      host = change (H.state host.old) (H.state host.new);
      out = change (O.state out.old) (O.state out.new);
      err = change (E.state err.old) (E.state err.new);
    }) result }
    ensures same_files { (H.state host.new).files ≡ (H.state host.old).files }
    ensures stays_sound { IsTrue (H.state host.old).is_sound → IsTrue (H.state host.new).is_sound }
{
    match words {
        Ok(words) => mw_main(alloc, words.as_slice(), host, out, err),
        Err(_) => {
            report(err, Refusal::OutOfMemory);
            Status::NoMemory
        }
    }
}

/// Does what the words ask for, as `mw_main`, and answers how the process ends: with the number of the status. Where
/// there was no memory for the words, that is the number of `NoMemory`.
pub fn mw_process<H: Host, O: Sink, E: Sink>(
    alloc: Global,
    words: Result<Vec<String>, AllocError>,
    host: &mut H,
    out: &mut O,
    err: &mut E,
) -> ExitCode
    ensures ends { (given : List (List ℕ)) → AreWords words given → Ends (record {
      words = given;
      host = change (H.state host.old) (H.state host.new);
      out = change (O.state out.old) (O.state out.new);
      err = change (E.state err.old) (E.state err.new);
    }) result }
    ensures same_files { (H.state host.new).files ≡ (H.state host.old).files }
    ensures stays_sound { IsTrue (H.state host.old).is_sound → IsTrue (H.state host.new).is_sound }
{
    let status = status_of_words(alloc, words, host, out, err);
    ExitCode::from(status.number())
}
