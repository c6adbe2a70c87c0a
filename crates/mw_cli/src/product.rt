use mw_bits::Bytes;
use mw_isa::{End, Events};

/// What an order gives that is carried out. What is written are the lines of its events, if it asks for the text of a run,
/// and the rest behind them.
#[derive(Drop)]
pub struct Product {
    /// The events whose lines come first.
    pub events: Events,
    /// What is to be written behind them.
    pub rest: Bytes,
    /// How the run ended of which it tells, if the order asks for a run.
    pub end: Option<End>,
}
