//! An access to storage without storage: where it lies, the interrupt that it raises, the number that its bytes hold, the bytes
//! that it stores, and what it does to the registers; and the pieces of an access, each in one block of 64 bytes.
#![tactic(auto)]

mod access;
mod address;
mod deed;
mod load;
mod raised;
mod registers;
mod store;

pub use access::{Piece, merge, pieces};
pub use address::{block_of, is_in_ram, pages_of};
pub use deed::{deed_by, reached};
pub use load::loaded_number;
pub use raised::access_raises;
pub use registers::{is_reserved, regs_behind};
pub use store::{pieces_in, stored_bytes, stores};
