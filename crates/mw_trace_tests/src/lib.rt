//! The tests of a run's events and text, over the public calls that make them.
#![tactic(auto)]

#[cfg(test)]
mod both;
#[cfg(test)]
mod ends;
#[cfg(test)]
mod reading;
#[cfg(test)]
mod summaries;
#[cfg(test)]
mod trace;
