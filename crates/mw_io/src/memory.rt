// A host and a sink in memory whose calls fail where a test says so.
ghost use Rattle.std.specs.Prelude.{◌≡◌, ◌≢◌, ◌+◌, ◌-◌, ◌^◌, ◌<◌, ◌≤◌, ◌↔◌, ◌||◌, min, ℕ, List, [], ◌∷◌, ◌++◌, Some, None, false, length, take, drop, is_ok, is_err, is_none, IsTrue, IsOk, IsErr, IsErrOf, OnOk, OnErr, IfOk};
ghost use Rattle.std.specs.Result.{result_unwrap_or};
ghost use Rattle.mw_io.specs.declared.sink.SinkFault.TheVariants.{Failed, NoMemory};
ghost use Rattle.mw_io.specs.Outside.{Counts, RoseBy, content_of};

use crate::host::{Host, HostFailed};
use crate::plan::Plan;
use crate::shelf::Shelf;
use crate::sink::{Sink, SinkFault};
use crate::sure::SureSink;
use crate::tally::Tally;
use std::alloc::{AllocError, Global};

/// Files in memory. A call whose number is in a list fails, and so does the opening of a name that is not among the files.
/// Its calls, `open` and `read` alike, have one count from 0 on.
#[derive(Drop)]
pub struct MemHost {
    shelf: Shelf,
    plan: Plan,
    faults: u64,
    tally: Tally,
}

impl MemHost {
    ghost use Rattle.mw_io.specs.Memory.{host_files, host_is_open, host_to_fail, host_calls, host_faults, host_opened, host_given};

    /// A host with no files, of which no call is to fail.
    pub fn new(alloc: Global) -> Self
        ensures files { (name : List ℕ) → host_files result name ≡ None }
        ensures closed { host_is_open result ≡ false }
        ensures to_fail { host_to_fail result ≡ [] }
        ensures calls { host_calls result ≡ 0 }
        ensures faults { host_faults result ≡ 0 }
        ensures opened { host_opened result ≡ 0 }
        ensures given { host_given result ≡ 0 }
    {
        MemHost {
            shelf: Shelf::new(alloc),
            plan: Plan::new(alloc),
            faults: 0,
            tally: Tally::new(),
        }
    }

    /// Adds a file, or replaces the one of this name. An `Err` leaves the files as they were.
    pub fn put(&mut self, name: &str, content: &[u8]) -> Result<(), AllocError>
        requires { host_is_open self.old ≡ false }
        ensures named { OnOk result (host_files self.new name.now ≡ Some content.now) }
        ensures others { (other : List ℕ) → other ≢ name.now → host_files self.new other ≡ host_files self.old other }
        ensures err { OnErr result (host_files self.new ≡ host_files self.old) }
        ensures closed { host_is_open self.new ≡ false }
        ensures to_fail { host_to_fail self.new ≡ host_to_fail self.old }
        ensures calls { host_calls self.new ≡ host_calls self.old }
        ensures faults { host_faults self.new ≡ host_faults self.old }
    {
        self.shelf.put(name.as_bytes(), content)
    }

    /// Has the call with this number fail too. An `Err` leaves the list as it was.
    pub fn fail(&mut self, call: u64) -> Result<(), AllocError>
        ensures ok { OnOk result (host_to_fail self.new ≡ host_to_fail self.old ++ call ∷ []) }
        ensures err { OnErr result (host_to_fail self.new ≡ host_to_fail self.old) }
        ensures files { host_files self.new ≡ host_files self.old }
        ensures is_open { host_is_open self.new ≡ host_is_open self.old }
        ensures calls { host_calls self.new ≡ host_calls self.old }
        ensures faults { host_faults self.new ≡ host_faults self.old }
    {
        self.plan.fail(call)
    }
}

impl Host for MemHost {
    ghost use Rattle.std.specs.Prelude.{ℕ, refl};
    ghost use Rattle.mw_io.specs.Memory.{host_files, host_is_open, host_rest, host_to_fail, host_calls, host_faults, host_opened, host_given, host_state, is_clear, is_due};

    ghost state = { host_state };

    ghost tells = { λ h sound. refl };

    fn open(&mut self, name: &str) -> Result<(), HostFailed>
        ensures is_open { host_is_open self.new ≡ is_ok result }
        ensures start { OnOk result (host_rest self.new ≡ content_of (host_files self.old) name.now) }
        ensures same_files { host_files self.new ≡ host_files self.old }
        ensures cause { Counts (host_faults self.old) (host_faults self.new) (IsErr result) }
        ensures stays_sound { IsTrue (is_clear (host_to_fail self.old)) → IsTrue (is_clear (host_to_fail self.new)) }
        ensures absent { IsTrue (is_clear (host_to_fail self.old)) → OnErr result (host_files self.old name.now ≡ None) }
        ensures fails { is_err result ≡ (is_due (host_to_fail self.old) (host_calls self.old) || is_none (host_files self.old name.now)) }
        ensures to_fail { host_to_fail self.new ≡ host_to_fail self.old }
        ensures calls { host_calls self.new ≡ min (host_calls self.old + 1) (2 ^ 64 - 1) }
        ensures opened { RoseBy 1 (host_opened self.old) (host_opened self.new) }
        ensures given { host_given self.new ≡ host_given self.old }
    {
        self.tally.count_open();
        if !self.plan.count() && self.shelf.open(name.as_bytes()) {
            Ok(())
        } else {
            self.shelf.close();
            self.faults = self.faults.saturating_add(1);
            Err(HostFailed)
        }
    }

    fn read(&mut self, buf: &mut [u8]) -> Result<usize, HostFailed>
        requires opened { IsTrue (host_is_open self.old) }
        requires room { 0 < length buf.old }
        ensures count { IfOk result (λ n. n ≤ length buf.new) }
        ensures bytes { IfOk result (λ n. take n buf.new ≡ take n (host_rest self.old)) }
        ensures left { IfOk result (λ n. host_rest self.new ≡ drop n (host_rest self.old)) }
        ensures end { IfOk result (λ n. (n ≡ 0) ↔ (host_rest self.old ≡ [])) }
        ensures failed { OnErr result (host_rest self.new ≡ host_rest self.old) }
        ensures still_open { IsTrue (host_is_open self.new) }
        ensures same_files { host_files self.new ≡ host_files self.old }
        ensures cause { Counts (host_faults self.old) (host_faults self.new) (IsErr result) }
        ensures stays_sound { IsTrue (is_clear (host_to_fail self.old)) → IsTrue (is_clear (host_to_fail self.new)) }
        ensures sure { IsTrue (is_clear (host_to_fail self.old)) → IsOk result }
        ensures fails { is_err result ≡ is_due (host_to_fail self.old) (host_calls self.old) }
        ensures to_fail { host_to_fail self.new ≡ host_to_fail self.old }
        ensures calls { host_calls self.new ≡ min (host_calls self.old + 1) (2 ^ 64 - 1) }
        ensures opened { host_opened self.new ≡ host_opened self.old }
        ensures given { RoseBy (result_unwrap_or result 0) (host_given self.old) (host_given self.new) }
    {
        if self.plan.count() {
            self.faults = self.faults.saturating_add(1);
            return Err(HostFailed);
        }
        let count = self.shelf.read(buf);
        self.tally.count_bytes(count);
        Ok(count)
    }
}

/// A sink that keeps what it takes in memory. A call whose number is in a list fails; the calls are counted from 0.
#[derive(Drop)]
pub struct MemSink {
    kept: SureSink,
    plan: Plan,
    faults: u64,
}

impl MemSink {
    ghost use Rattle.mw_io.specs.Memory.{sink_taken, sink_to_fail, sink_calls, sink_faults, sink_wants};

    /// A sink that has taken nothing, of which no call is to fail.
    pub fn new(alloc: Global) -> Self
        ensures taken { sink_taken result ≡ [] }
        ensures to_fail { sink_to_fail result ≡ [] }
        ensures calls { sink_calls result ≡ 0 }
        ensures faults { sink_faults result ≡ 0 }
        ensures wants { sink_wants result ≡ 0 }
    {
        MemSink {
            kept: SureSink::new(alloc),
            plan: Plan::new(alloc),
            faults: 0,
        }
    }

    /// Has the call with this number fail too. An `Err` leaves the list as it was.
    pub fn fail(&mut self, call: u64) -> Result<(), AllocError>
        ensures ok { OnOk result (sink_to_fail self.new ≡ sink_to_fail self.old ++ call ∷ []) }
        ensures err { OnErr result (sink_to_fail self.new ≡ sink_to_fail self.old) }
        ensures taken { sink_taken self.new ≡ sink_taken self.old }
        ensures calls { sink_calls self.new ≡ sink_calls self.old }
        ensures faults { sink_faults self.new ≡ sink_faults self.old }
        ensures wants { sink_wants self.new ≡ sink_wants self.old }
    {
        self.plan.fail(call)
    }

    /// The bytes taken so far.
    pub fn as_slice(&self) -> &[u8]
        ensures { result.now ≡ sink_taken self.now }
    {
        self.kept.as_slice()
    }
}

impl Sink for MemSink {
    ghost use Rattle.mw_io.specs.Memory.{sink_taken, sink_to_fail, sink_calls, sink_faults, sink_wants, sink_state, is_due};

    ghost state = { sink_state };

    fn write(&mut self, piece: &[u8]) -> Result<usize, SinkFault>
        requires { 0 < length piece.now }
        ensures some { IfOk result (λ n. 0 < n) }
        ensures within { IfOk result (λ n. n ≤ length piece.now) }
        ensures takes { IfOk result (λ n. sink_taken self.new ≡ sink_taken self.old ++ take n piece.now) }
        ensures err { OnErr result (sink_taken self.new ≡ sink_taken self.old) }
        ensures fault { Counts (sink_faults self.old) (sink_faults self.new) (IsErrOf result Failed) }
        ensures want { Counts (sink_wants self.old) (sink_wants self.new) (IsErrOf result NoMemory) }
        ensures fails { IsErrOf result Failed ↔ IsTrue (is_due (sink_to_fail self.old) (sink_calls self.old)) }
        ensures to_fail { sink_to_fail self.new ≡ sink_to_fail self.old }
        ensures calls { sink_calls self.new ≡ min (sink_calls self.old + 1) (2 ^ 64 - 1) }
    {
        if self.plan.count() {
            self.faults = self.faults.saturating_add(1);
            return Err(SinkFault::Failed);
        }
        self.kept.write(piece)
    }
}
