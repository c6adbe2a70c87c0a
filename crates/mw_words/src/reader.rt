ghost use Rattle.std.specs.Prelude.{◌≡◌, map, string_bytes, is_some, true, Some, IfOk};
ghost use Rattle.clap.specs.Words.{app_of, found_of, kind_of};
ghost use Rattle.clap.specs.declared.error.kind.ErrorKind.TheVariants.{OutOfMemory};
ghost use Rattle.mw_words.specs.Grammar.{all_said, idle, unsaid};
ghost use Rattle.mw_words.specs.Reader.{id_of, name_reader, with_option, reader_of, said_found};

use crate::verb::{Key, Verb};
use clap::{Arg, ArgMatches, Command, Error};
use std::alloc::{AllocError as NoMemory, Global};

/// The id under which the reader keeps what was said; an option's is its name behind the two minuses.
pub fn id_of<'a>(key: Key) -> &'a str
    ensures { result.now ≡ id_of key }
{
    match key {
        Key::Name => "name",
        Key::Cycles => "cycles",
        Key::Script => "script",
        Key::Dump => "dump",
    }
}

/// The reader of a name.
fn name_reader<'a>(alloc: Global) -> Result<Command<'a>, NoMemory>
    ensures { IfOk result (λ reader. app_of reader ≡ name_reader) }
{
    Command::new(alloc, "mw")
        .no_binary_name(true)
        .disable_help_flag(true)
        .disable_version_flag(true)
        .arg(Arg::new(alloc, id_of(Key::Name)))
}

/// A reader with one option more.
fn with_option<'a>(alloc: Global, reader: Command<'a>, key: Key) -> Result<Command<'a>, NoMemory>
    ensures { IfOk result (λ more. app_of more ≡ with_option (app_of reader.entry) key) }
{
    reader.arg(Arg::new(alloc, id_of(key)).long(id_of(key)))
}

/// The reader of a command's words.
fn reader_of<'a>(alloc: Global, verb: Verb) -> Result<Command<'a>, NoMemory>
    ensures { IfOk result (λ reader. app_of reader ≡ reader_of verb) }
{
    let reader = name_reader(alloc)?;
    match verb {
        Verb::Run => {
            let reader = with_option(alloc, reader, Key::Cycles)?;
            let reader = with_option(alloc, reader, Key::Script)?;
            with_option(alloc, reader, Key::Dump)
        }
        Verb::Generate => with_option(alloc, reader, Key::Cycles),
        Verb::Assemble | Verb::Disassemble => Ok(reader),
    }
}

/// An error of a reader that takes the words: memory is wanting.
fn no_memory(_error: Error) -> NoMemory
    requires { kind_of _error ≡ OutOfMemory }
{
    NoMemory
}

/// What a reader makes of the words behind a command's. The only error is want of memory.
pub fn read<'a>(alloc: Global, verb: Verb, words: &'a [String]) -> Result<ArgMatches<'a>, NoMemory>
    requires { is_some (all_said verb (idle unsaid) (map string_bytes words.now)) ≡ true }
    ensures { IfOk result (λ matches. all_said verb (idle unsaid) (map string_bytes words.now) ≡ Some (said_found (found_of matches))) }
{
    let reader = reader_of(alloc, verb)?;
    match reader.try_get_matches_from(words) {
        Ok(matches) => Ok(matches),
        Err(error) => Err(no_memory(error)),
    }
}
