use mw_isa::{End, Events, State};

/// A run: what happened, how it ended, and the last state.
#[derive(Drop)]
pub struct Run {
    /// What happened, in order: one event for each cycle.
    pub events: Events,
    /// How the run ended.
    pub end: End,
    /// The state at the end, its devices brought to the end's cycle.
    pub state: State,
}

/// Why there is no run. Of an image that doesn't fit RAM nothing else is said.
#[derive(Clone, Copy, Debug, PartialEq, Eq)]
pub enum RunFault {
    /// The image is longer than RAM, which has 16,777,216 bytes.
    ImageTooLarge,
    /// Memory is wanting.
    NoMemory,
}
