//! The tests of the machine, from one instruction to a run, over its crates' public calls.
#![tactic(auto)]

#[cfg(test)]
mod devices;
#[cfg(test)]
mod discipline;
#[cfg(test)]
mod exec;
#[cfg(test)]
mod isa;
#[cfg(test)]
mod loadstore;
#[cfg(test)]
mod runs;
#[cfg(test)]
mod sprs;
#[cfg(test)]
mod storage;
#[cfg(test)]
mod stretches;
#[cfg(test)]
mod translations;
#[cfg(test)]
mod walks;
