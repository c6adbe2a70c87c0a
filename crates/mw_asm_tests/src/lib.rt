//! The tests of the assembler and the disassembler, of a line of source by itself and of generated images, over their
//! public calls.
#![tactic(auto)]

#[cfg(test)]
mod generator;
#[cfg(test)]
mod images;
#[cfg(test)]
mod lines;
#[cfg(test)]
mod sources;
#[cfg(test)]
mod vectors;
