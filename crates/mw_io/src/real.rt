// The system's files, and a writer, as a host and a sink.
ghost use Rattle.std.specs.Prelude.{◌≡◌, ◌<◌, ◌≤◌, false, None, length, is_some, IsTrue, IsErr, IsErrOf, IfOk, option_and_then};
ghost use Rattle.std.specs.Io.KnownBytes.{ReadConsumes, WriteAppends};
ghost use Rattle.std.specs.Result.{result_unwrap_or};
ghost use Rattle.mw_io.specs.declared.sink.SinkFault.TheVariants.{Failed, NoMemory};
ghost use Rattle.mw_io.specs.Outside.{Counts, RoseBy};
ghost use Rattle.mw_io.specs.Real.{real_file, real_faults, real_opened, real_given, real_writer, real_sink_faults};

use crate::host::{Host, HostFailed};
use crate::sink::{Sink, SinkFault};
use crate::tally::Tally;
use std::fs;
use std::io::{Read, Write};
use std::rt::Files;

/// The files of a system, which the host doesn't tell. To open a file that is not there is a fault.
pub struct RealHost<'a, R: Files> {
    files: &'a R,
    file: Option<R::File>,
    faults: u64,
    tally: Tally,
}

impl<'a, R: Files> Drop for RealHost<'a, R> {
    fn drop(self) {
        let RealHost {
            files: _,
            file,
            faults: _,
            tally: _,
        } = self;
        drop(file);
    }
}

impl<'a, R: Files> RealHost<'a, R> {
    /// The files that `files` reaches, none of them open.
    pub fn new(files: &'a R) -> Self
        ensures closed { real_file result ≡ None }
        ensures faults { real_faults result ≡ 0 }
        ensures opened { real_opened result ≡ 0 }
        ensures given { real_given result ≡ 0 }
    {
        RealHost {
            files,
            file: None,
            faults: 0,
            tally: Tally::new(),
        }
    }
}

impl<'a, R: Files> Host for RealHost<'a, R> {
    ghost use Rattle.mw_io.specs.Real.{real_state};

    ghost state = { real_state };

    ghost tells = { λ h sound. sound };

    fn open(&mut self, name: &str) -> Result<(), HostFailed> {
        self.tally.count_open();
        match fs::open(self.files, name) {
            Ok(file) => {
                self.file = Some(file);
                Ok(())
            }
            Err(_) => {
                self.file = None;
                self.faults = self.faults.saturating_add(1);
                Err(HostFailed)
            }
        }
    }

    fn read(&mut self, buf: &mut [u8]) -> Result<usize, HostFailed>
        requires opened { IsTrue (is_some (real_file self.old)) }
        requires room { 0 < length buf.old }
        ensures count { IfOk result (λ n. n ≤ length buf.new) }
        ensures still_open { IsTrue (is_some (real_file self.new)) }
        ensures cause { Counts (real_faults self.old) (real_faults self.new) (IsErr result) }
        ensures asked { real_opened self.new ≡ real_opened self.old }
        ensures given { RoseBy (result_unwrap_or result 0) (real_given self.old) (real_given self.new) }
        ensures passes { ReadConsumes (option_and_then R.File.remaining (real_file self.old)) (option_and_then R.File.remaining (real_file self.new)) result buf.new }
    {
        let Some(file) = &mut self.file else {
            unreachable!()
        };
        match file.read(buf) {
            Ok(count) => {
                self.tally.count_bytes(count);
                Ok(count)
            }
            Err(_) => {
                self.faults = self.faults.saturating_add(1);
                Err(HostFailed)
            }
        }
    }
}

/// A writer. The sink doesn't tell what it took, and passes it on. A write of no bytes is a fault.
#[derive(Drop)]
pub struct RealSink<W: Write> {
    writer: W,
    faults: u64,
}

impl<W: Write> RealSink<W> {
    /// A sink that passes on to `writer` what it takes.
    pub fn new(writer: W) -> Self
        ensures writer { real_writer result ≡ writer }
        ensures faults { real_sink_faults result ≡ 0 }
    {
        RealSink { writer, faults: 0 }
    }
}

impl<W: Write> Sink for RealSink<W> {
    ghost use Rattle.mw_io.specs.Real.{real_sink_state};

    ghost state = { real_sink_state };

    fn write(&mut self, piece: &[u8]) -> Result<usize, SinkFault>
        requires { 0 < length piece.now }
        ensures some { IfOk result (λ n. 0 < n) }
        ensures within { IfOk result (λ n. n ≤ length piece.now) }
        ensures fault { Counts (real_sink_faults self.old) (real_sink_faults self.new) (IsErrOf result Failed) }
        ensures enough { IsErrOf result NoMemory → ⊥ }
        ensures passes { WriteAppends (W.contents (real_writer self.old)) (W.contents (real_writer self.new)) result piece.now }
    {
        match self.writer.write(piece) {
            Ok(count) if 0 < count => Ok(count),
            _ => {
                self.faults = self.faults.saturating_add(1);
                Err(SinkFault::Failed)
            }
        }
    }
}
