//! The tests of the crates below the machine, over their public calls.
#![tactic(auto)]

#[cfg(test)]
mod bits;
#[cfg(test)]
mod bus;
#[cfg(test)]
mod decode;
#[cfg(test)]
mod digits;
#[cfg(test)]
mod encode;
#[cfg(test)]
mod io;
#[cfg(test)]
mod muldiv;
#[cfg(test)]
mod operands;
#[cfg(test)]
mod prefix;
#[cfg(test)]
mod script;
#[cfg(test)]
mod soc;
#[cfg(test)]
mod tables;
#[cfg(test)]
mod text;
#[cfg(test)]
mod uart;
#[cfg(test)]
mod xics;
