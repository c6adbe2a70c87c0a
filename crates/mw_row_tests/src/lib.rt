//! The tests of rows: each in each of its forms, by what it leaves.
#![tactic(auto)]

#[cfg(test)]
mod alone;
#[cfg(test)]
mod branches;
#[cfg(test)]
mod compares;
#[cfg(test)]
mod conditions;
#[cfg(test)]
mod controller;
#[cfg(test)]
mod fetches;
#[cfg(test)]
mod interrupts;
#[cfg(test)]
mod left;
#[cfg(test)]
mod logic;
#[cfg(test)]
mod numbers;
#[cfg(test)]
mod offences;
#[cfg(test)]
mod pending;
#[cfg(test)]
mod problem;
#[cfg(test)]
mod programs;
#[cfg(test)]
mod results;
#[cfg(test)]
mod rotates;
#[cfg(test)]
mod sums;
#[cfg(test)]
mod system;
#[cfg(test)]
mod translated;
#[cfg(test)]
mod translations;
#[cfg(test)]
mod traps;
#[cfg(test)]
mod tree;
#[cfg(test)]
mod units;
