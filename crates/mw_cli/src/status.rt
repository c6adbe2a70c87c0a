ghost use Rattle.std.specs.Prelude.{◌≡◌};
ghost use Rattle.mw_cli.specs.Numbers.{number_of, ended};

use mw_isa::End;

/// How the program ends. `number` has the numbers.
#[derive(Clone, Copy, Debug, PartialEq, Eq)]
pub enum Status {
    /// What the words ask for is done: the text of the run or of the disassembly, the summary of the run from a seed, or the
    /// image of the source, is written. A run reached its number of cycles. Err took nothing.
    Done,
    /// The run ended before an instruction that breaks the update discipline, and its text is written, which says so.
    /// Err took nothing.
    Offence,
    /// The words aren't those of a command: `run IMAGE --cycles N`, with `--script FILE` and `--dump A:L` or without, `asm
    /// SOURCE`, `dis IMAGE` or `gen SEED --cycles N`, in any order behind the command's word.
    Usage,
    /// A call of the host failed, as at a name that isn't among its files.
    ReadFault,
    /// A write to out failed. Out took a front of the text or of the image.
    WriteFault,
    /// The image to run or to disassemble is longer than RAM, 16,777,216 bytes. Out took nothing.
    ImageTooLarge,
    /// The source or the script is refused at a place, or goes on past 4,194,304 bytes, or 1,048,576. Out took nothing.
    BadInput,
    /// Memory is wanting. Out took nothing, or a front of the text or of the image.
    NoMemory,
}

impl Status {
    /// The number that the process ends with: 0 to 7, in their order. No status has 8.
    pub fn number(self) -> u8
        ensures { result ≡ number_of self }
    {
        match self {
            Status::Done => 0,
            Status::Offence => 1,
            Status::Usage => 2,
            Status::ReadFault => 3,
            Status::WriteFault => 4,
            Status::ImageTooLarge => 5,
            Status::BadInput => 6,
            Status::NoMemory => 7,
        }
    }
}

/// The status of an order that was carried out, by the end of its run, if it is a run.
pub fn ended(end: Option<End>) -> Status
    ensures { result ≡ ended end }
{
    match end {
        None => Status::Done,
        Some(End::Ran { .. }) => Status::Done,
        Some(End::Offence { .. }) => Status::Offence,
    }
}
