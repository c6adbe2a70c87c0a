// A host and a sink in memory that fail only for want of memory.
ghost use Rattle.std.specs.Prelude.{◌≡◌, ◌≢◌, ◌≤◌, ◌<◌, ◌↔◌, ℕ, List, [], ◌++◌, true, false, length, take, drop, is_ok, IsTrue, IsOk, OnOk, OnErr, IfOk, Some, None};
ghost use Rattle.mw_io.specs.Outside.{RoseBy, content_of};

use crate::host::{Host, HostFailed};
use crate::shelf::Shelf;
use crate::sink::{Sink, SinkFault};
use crate::tally::Tally;
use std::alloc::{AllocError, Global};

/// Files in memory. A name that is not among them opens as an empty file, so no call fails.
#[derive(Drop)]
pub struct SureHost {
    shelf: Shelf,
    tally: Tally,
}

impl SureHost {
    ghost use Rattle.mw_io.specs.Sure.{sure_files, sure_is_open, sure_opened, sure_given};

    /// A host with no files.
    pub fn new(alloc: Global) -> Self
        ensures files { (name : List ℕ) → sure_files result name ≡ None }
        ensures closed { sure_is_open result ≡ false }
        ensures opened { sure_opened result ≡ 0 }
        ensures given { sure_given result ≡ 0 }
    {
        SureHost {
            shelf: Shelf::new(alloc),
            tally: Tally::new(),
        }
    }

    /// Adds a file, or replaces the one of this name. An `Err` leaves the files as they were.
    pub fn put(&mut self, name: &str, content: &[u8]) -> Result<(), AllocError>
        requires { sure_is_open self.old ≡ false }
        ensures named { OnOk result (sure_files self.new name.now ≡ Some content.now) }
        ensures others { (other : List ℕ) → other ≢ name.now → sure_files self.new other ≡ sure_files self.old other }
        ensures err { OnErr result (sure_files self.new ≡ sure_files self.old) }
        ensures closed { sure_is_open self.new ≡ false }
    {
        self.shelf.put(name.as_bytes(), content)
    }
}

impl Host for SureHost {
    ghost use Rattle.std.specs.Prelude.{◌≡◌, ℕ, true, Some, refl, ⊤};
    ghost use Rattle.mw_io.specs.Sure.{sure_files, sure_is_open, sure_rest, sure_opened, sure_given, sure_state};

    ghost state = { sure_state };

    ghost tells = { λ h sound. refl };

    fn open(&mut self, name: &str) -> Result<(), HostFailed>
        ensures opened { sure_is_open self.new ≡ is_ok result }
        ensures start { OnOk result (sure_rest self.new ≡ content_of (sure_files self.old) name.now) }
        ensures same_files { sure_files self.new ≡ sure_files self.old }
        ensures ok { IsOk result }
        ensures asked { RoseBy 1 (sure_opened self.old) (sure_opened self.new) }
        ensures given { sure_given self.new ≡ sure_given self.old }
    {
        self.tally.count_open();
        self.shelf.open(name.as_bytes());
        Ok(())
    }

    fn read(&mut self, buf: &mut [u8]) -> Result<usize, HostFailed> {
        let count = self.shelf.read(buf);
        self.tally.count_bytes(count);
        Ok(count)
    }
}

/// A sink that keeps what it takes in memory.
#[derive(Drop)]
pub struct SureSink {
    bytes: Vec<u8>,
    wants: u64,
}

impl SureSink {
    ghost use Rattle.mw_io.specs.Sure.{sure_taken, sure_wants};

    /// A sink that has taken nothing.
    pub fn new(alloc: Global) -> Self
        ensures taken { sure_taken result ≡ [] }
        ensures wants { sure_wants result ≡ 0 }
    {
        SureSink {
            bytes: Vec::new(alloc),
            wants: 0,
        }
    }

    /// The bytes taken so far.
    pub fn as_slice(&self) -> &[u8]
        ensures { result.now ≡ sure_taken self.now }
    {
        self.bytes.as_slice()
    }
}

impl Sink for SureSink {
    ghost use Rattle.mw_io.specs.Sure.{sure_sink_state};

    ghost state = { sure_sink_state };

    fn write(&mut self, piece: &[u8]) -> Result<usize, SinkFault> {
        match self.bytes.extend_from_slice(piece) {
            Ok(()) => Ok(piece.len()),
            Err(_) => {
                self.wants = self.wants.saturating_add(1);
                Err(SinkFault::NoMemory)
            }
        }
    }
}
