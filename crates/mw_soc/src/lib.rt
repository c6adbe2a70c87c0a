//! The board's devices and their map: the UART, the interrupt controller, the system controller and
//! the decrementer.
#![tactic(auto)]

mod devices;
mod system;

pub use devices::Devices;
