//! Bit fields, masks and rotations by the Power ISA's bit numbers, what a translation permits and what an
//! invalidation reaches, and a list of bytes that grows.
#![tactic(auto)]

mod bytes;
mod fields;
mod rights;
mod scope;

pub use bytes::Bytes;
pub use fields::{exts34, field, mask, rotl, sext};
pub use rights::Rights;
pub use scope::Scope;
