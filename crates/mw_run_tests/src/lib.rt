//! The tests of runs and dumps from the command line, over its one call.
#![tactic(auto)]

#[cfg(test)]
mod dumps;
#[cfg(test)]
mod faults;
#[cfg(test)]
mod offences;
#[cfg(test)]
mod runs;
#[cfg(test)]
mod scripts;
#[cfg(test)]
mod seeds;
#[cfg(test)]
mod shared;
#[cfg(test)]
mod traps;
#[cfg(test)]
mod worked;
