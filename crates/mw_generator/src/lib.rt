//! Images that a seed generates, for runs that are too long to write by hand: a start, a handler of the decrementer,
//! tables of radix translation and a long program of drawn instructions.
#![tactic(auto)]

mod draws;
mod image;
mod laying;
mod word;

pub use image::generate;
