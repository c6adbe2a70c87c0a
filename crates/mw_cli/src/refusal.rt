/// Why what the words ask for isn't written. Each has a status and a line on err.
#[derive(Clone, Copy, Debug, PartialEq, Eq)]
pub enum Refusal<'a> {
    /// A call of the host failed, so the file isn't read.
    Unreadable {
        /// The file's name.
        name: &'a str,
    },
    /// The image is longer than RAM, 16,777,216 bytes.
    TooLarge,
    /// The source or the script is refused.
    Bad {
        /// The name of the file of the source or the script.
        name: &'a str,
        /// The line of the first refused place, counted from 1.
        line: u32,
        /// The column of the first refused place; the line's first byte is column 1.
        column: u32,
    },
    /// A write to out failed, after a front of the text or of the image.
    Unwritable,
    /// Memory is wanting, for the file, the run, a text, the image of a source or out.
    OutOfMemory,
}
