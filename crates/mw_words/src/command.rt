use mw_isa::Span;

/// A run of an image for a number of cycles, a dump and a script.
#[derive(Clone, Copy)]
pub struct RunCommand<'a> {
    /// The name of the image's file. In an order it is not empty and doesn't begin with a minus.
    pub image: &'a str,
    /// How many cycles the run has. In an order they are at most `MOST_CYCLES`.
    pub cycles: u64,
    /// The stretch of RAM that is dumped, if one is. In an order it has 1 to 65,536 bytes, all of them in RAM.
    pub dump: Option<Span>,
    /// The name of the script's file, if there is one. In an order it is not empty and doesn't begin with a minus.
    pub script: Option<&'a str>,
}

/// What the words ask for.
#[derive(Clone, Copy)]
pub enum Command<'a> {
    /// A run.
    Run(RunCommand<'a>),
    /// The image of a source.
    Assemble {
        /// The name of the source's file. In an order it is not empty and doesn't begin with a minus.
        source: &'a str,
    },
    /// The disassembly of an image.
    Disassemble {
        /// The name of the image's file. In an order it is not empty and doesn't begin with a minus.
        image: &'a str,
    },
    /// A run of an image that is made from a seed.
    Generate {
        /// The seed.
        seed: u64,
        /// How many cycles the run has. In an order they are at most `MOST_CYCLES`.
        cycles: u64,
    },
}
