ghost use Rattle.std.specs.Prelude.{◌≡◌};
ghost use Rattle.mw_words.specs.Grammar.{is_name, verb_of, if_taken, option_of};

/// What a command does.
#[derive(Clone, Copy, Debug, PartialEq, Eq)]
pub enum Verb {
    /// `run`: an image is run.
    Run,
    /// `asm`: a source is assembled.
    Assemble,
    /// `dis`: an image is disassembled.
    Disassemble,
    /// `gen`: an image is made from a seed and run.
    Generate,
}

/// What a command's words may say, each at most once.
#[derive(Clone, Copy, Debug, PartialEq, Eq)]
pub enum Key {
    /// The name, of a file or of a seed, which stands by itself.
    Name,
    /// `--cycles`: the number of cycles.
    Cycles,
    /// `--script`: the script's name.
    Script,
    /// `--dump`: the stretch of RAM that is dumped.
    Dump,
}

/// Whether a word can be a name or a value: it isn't empty and doesn't begin with a minus.
pub fn is_name(word: &str) -> bool
    ensures { result ≡ is_name word.now }
{
    match word.as_bytes() {
        [] => false,
        [first, ..] => *first != b'-',
    }
}

/// The command that a word names.
pub fn verb_of(word: &str) -> Option<Verb>
    ensures { result ≡ verb_of word.now }
{
    if word == "run" {
        Some(Verb::Run)
    } else if word == "asm" {
        Some(Verb::Assemble)
    } else if word == "dis" {
        Some(Verb::Disassemble)
    } else if word == "gen" {
        Some(Verb::Generate)
    } else {
        None
    }
}

/// The option, if a command takes it.
fn if_taken(verb: Verb, key: Key) -> Option<Key>
    ensures { result ≡ if_taken verb key }
{
    match (verb, key) {
        (Verb::Run, _) => Some(key),
        (Verb::Generate, Key::Cycles) => Some(Key::Cycles),
        _ => None,
    }
}

/// The option of a command that a word names.
pub fn option_of(verb: Verb, word: &str) -> Option<Key>
    ensures { result ≡ option_of verb word.now }
{
    if word == "--cycles" {
        if_taken(verb, Key::Cycles)
    } else if word == "--script" {
        if_taken(verb, Key::Script)
    } else if word == "--dump" {
        if_taken(verb, Key::Dump)
    } else {
        None
    }
}
