//! The assembler, from a source to the bytes of an image, and the disassembler.
#![tactic(auto)]

mod assembler;
mod disassembly;
mod fault;
mod image;
mod instruction;
mod labels;
mod passes;
mod value;

pub use assembler::assemble;
pub use disassembly::{disassemble, print_statement};
pub use fault::AsmFault;
pub use mw_syntax::What;
