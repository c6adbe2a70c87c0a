//! The board's UART: two queues of 16 bytes, a clock divider, an interrupt line, and all bytes sent.
#![tactic(auto)]

mod line;
mod script;
mod uart;

pub use script::{BadScript, Script, read_script};
pub use uart::Uart;
