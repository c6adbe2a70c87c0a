// Files that are read, one at a time.
ghost use Rattle.std.specs.Prelude.{◌≡◌, ◌<◌, ◌≤◌, ◌↔◌, ℕ, [], None, length, take, drop, is_ok, IsTrue, IsOk, IsErr, IfOk, OnOk, OnErr, IfSome, OnSome, IsSome, IsSomeAnd};
ghost use Rattle.std.specs.Result.{result_unwrap_or};
ghost use Rattle.mw_io.specs.Outside.{HostState, Counts, RoseBy, content_of};

/// A call of a host failed.
#[derive(Clone, Copy, Debug, PartialEq, Eq)]
pub struct HostFailed;

/// Files that are read, one at a time.
pub trait Host {
    /// What the host shows of itself.
    ghost state: { Self → HostState };

    /// Opens a file at its first byte, and leaves the one that was open before. A name that is not among the files may
    /// open as an empty file. After an `Err` no file is open. Each call is counted as asked for.
    fn open(&mut self, name: &str) -> Result<(), HostFailed>
        ensures is_open { (state self.new).is_open ≡ is_ok result }
        ensures start { OnOk result (IfSome (state self.old).files (λ told. (state self.new).rest ≡ content_of told name.now)) }
        ensures same_files { (state self.new).files ≡ (state self.old).files }
        ensures cause { Counts (state self.old).faults (state self.new).faults (IsErr result) }
        ensures opened { RoseBy 1 (state self.old).opened (state self.new).opened }
        ensures given { (state self.new).given ≡ (state self.old).given }
        ensures stays_sound { IsTrue (state self.old).is_sound → IsTrue (state self.new).is_sound }
        ensures absent { IsTrue (state self.old).is_sound → OnErr result (IsSomeAnd (state self.old).files (λ told. told name.now ≡ None)) };

    /// Reads the next bytes of the open file into the front of the buffer, and answers how many. The answer 0 says that
    /// the file has ended. An `Err` leaves what is left of the file, and gives no byte.
    fn read(&mut self, buf: &mut [u8]) -> Result<usize, HostFailed>
        requires opened { IsTrue (state self.old).is_open }
        requires room { 0 < length buf.old }
        ensures count { IfOk result (λ n. n ≤ length buf.new) }
        ensures bytes { IfOk result (λ n. OnSome (state self.old).files (take n buf.new ≡ take n (state self.old).rest)) }
        ensures left { IfOk result (λ n. OnSome (state self.old).files ((state self.new).rest ≡ drop n (state self.old).rest)) }
        ensures end { IfOk result (λ n. OnSome (state self.old).files ((n ≡ 0) ↔ ((state self.old).rest ≡ []))) }
        ensures failed { OnErr result ((state self.new).rest ≡ (state self.old).rest) }
        ensures still_open { IsTrue (state self.new).is_open }
        ensures same_files { (state self.new).files ≡ (state self.old).files }
        ensures cause { Counts (state self.old).faults (state self.new).faults (IsErr result) }
        ensures opened { (state self.new).opened ≡ (state self.old).opened }
        ensures given { RoseBy (result_unwrap_or result 0) (state self.old).given (state self.new).given }
        ensures stays_sound { IsTrue (state self.old).is_sound → IsTrue (state self.new).is_sound }
        ensures sure { IsTrue (state self.old).is_sound → IsOk result };

    /// A sound host tells its files.
    ghost tells: { (host : Self) → IsTrue (state host).is_sound → IsSome (state host).files };
}
