ghost use Rattle.std.specs.Prelude.{◌≡◌, ℕ, List, map, string_bytes, option_map, is_some, IfSome};
ghost use Rattle.mw_words.specs.Grammar.{unless_twice, with_said, now_said, if_name, option_said, other_said, word_said, all_said, idle, unsaid};
ghost use Rattle.mw_words.specs.Commands.{said_in, reading_in};

use crate::verb::{Key, Verb, is_name, option_of};

/// What the words behind a command's say, each at most once.
#[derive(Clone, Copy)]
pub struct Said<'a> {
    /// The name.
    pub name: Option<&'a str>,
    /// The value of `--cycles`.
    pub cycles: Option<&'a str>,
    /// The value of `--script`.
    pub script: Option<&'a str>,
    /// The value of `--dump`.
    pub dump: Option<&'a str>,
}

/// Between two words.
#[derive(Clone, Copy)]
struct Reading<'a> {
    /// The option whose value is the next word, if there is one.
    awaited: Option<Key>,
    /// What was said.
    said: Said<'a>,
}

/// What is said now, unless it was said before.
fn unless_twice<'a>(before: Option<&'a str>, now: Said<'a>) -> Option<Said<'a>>
    ensures { option_map said_in result ≡ unless_twice (option_map (λ word. word.now) before.entry) (said_in now.entry) }
{
    match before {
        None => Some(now),
        Some(_) => None,
    }
}

/// What is said with a name or an option's value, each at most once.
fn with_said<'a>(key: Key, value: &'a str, said: Said<'a>) -> Option<Said<'a>>
    ensures { option_map said_in result ≡ with_said key value.now (said_in said.entry) }
{
    let word = Some(value);
    match key {
        Key::Name => unless_twice(said.name, Said { name: word, ..said }),
        Key::Cycles => unless_twice(
            said.cycles,
            Said {
                cycles: word,
                ..said
            },
        ),
        Key::Script => unless_twice(
            said.script,
            Said {
                script: word,
                ..said
            },
        ),
        Key::Dump => unless_twice(said.dump, Said { dump: word, ..said }),
    }
}

/// A name or a value is said, and nothing is awaited.
fn now_said<'a>(key: Key, value: &'a str, said: Said<'a>) -> Option<Reading<'a>>
    ensures { option_map reading_in result ≡ now_said key value.now (said_in said.entry) }
{
    match with_said(key, value, said) {
        Some(said) => Some(Reading {
            awaited: None,
            said,
        }),
        None => None,
    }
}

/// A value is said, if it is one.
fn if_name<'a>(key: Key, value: &'a str, said: Said<'a>) -> Option<Reading<'a>>
    ensures { option_map reading_in result ≡ if_name key value.now (said_in said.entry) }
{
    if is_name(value) {
        now_said(key, value, said)
    } else {
        None
    }
}

/// An option without its value, or with it behind the first equals sign.
fn option_said<'a>(key: Option<Key>, value: Option<&'a str>, said: Said<'a>) -> Option<Reading<'a>>
    ensures { (behind : List ℕ) → IfSome value.entry (λ word. word.now ≡ behind) → option_map reading_in result ≡ option_said key (is_some value.entry) behind (said_in said.entry) }
{
    match (key, value) {
        (None, _) => None,
        (Some(key), None) => Some(Reading {
            awaited: Some(key),
            said,
        }),
        (Some(key), Some(value)) => if_name(key, value, said),
    }
}

/// What is said with a word that is no awaited value.
fn other_said<'a>(verb: Verb, word: &'a str, said: Said<'a>) -> Option<Reading<'a>>
    ensures { option_map reading_in result ≡ other_said verb word.now (said_in said.entry) }
{
    if is_name(word) {
        return now_said(Key::Name, word, said);
    }
    match word.split_once('=') {
        Some((option, value)) => option_said(option_of(verb, option), Some(value), said),
        None => option_said(option_of(verb, word), None, said),
    }
}

/// What is said with one word more, if the word can stand there.
#[tactic(auto, unfolding(crate::specs::Grammar::word_said))]
fn word_said<'a>(verb: Verb, reading: Reading<'a>, word: &'a str) -> Option<Reading<'a>>
    ensures { option_map reading_in result ≡ word_said verb (reading_in reading.entry) word.now }
{
    match reading.awaited {
        Some(key) => if_name(key, word, reading.said),
        None => other_said(verb, word, reading.said),
    }
}

/// Whether the words behind a command's are names and options that it takes, each at most once, and each option with a
/// value.
#[tactic(auto, unfolding(crate::specs::Grammar::all_said))]
pub fn are_said(verb: Verb, words: &[String]) -> bool
    ensures { result ≡ is_some (all_said verb (idle unsaid) (map string_bytes words.now)) }
{
    let mut reading = Reading {
        awaited: None,
        said: Said {
            name: None,
            cycles: None,
            script: None,
            dump: None,
        },
    };
    for word in words {
        match word_said(verb, reading, word.as_str()) {
            Some(next) => reading = next,
            None => return false,
        }
    }
    match reading.awaited {
        None => true,
        Some(_) => false,
    }
}
