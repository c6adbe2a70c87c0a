// What takes bytes.
ghost use Rattle.std.specs.Prelude.{◌≡◌, ◌<◌, ◌≤◌, length, take, IfOk, OnErr, IsErrOf};
ghost use Rattle.mw_io.specs.declared.sink.SinkFault.TheVariants.{Failed, NoMemory};
ghost use Rattle.mw_io.specs.Outside.{SinkState, Counts, with_more};

/// Why a sink took nothing.
#[derive(Clone, Copy, Debug, PartialEq, Eq)]
pub enum SinkFault {
    /// The call failed, and the sink's count of faults rose.
    Failed,
    /// Memory was wanting, and the sink's count of wants rose.
    NoMemory,
}

/// What takes bytes, a piece at a time.
pub trait Sink {
    /// What the sink shows of itself.
    ghost state: { Self → SinkState };

    /// Takes a front of the piece, and answers its length. An `Err` takes nothing.
    fn write(&mut self, piece: &[u8]) -> Result<usize, SinkFault>
        requires { 0 < length piece.now }
        ensures some { IfOk result (λ n. 0 < n) }
        ensures within { IfOk result (λ n. n ≤ length piece.now) }
        ensures takes { IfOk result (λ n. (state self.new).taken ≡ with_more (state self.old).taken (take n piece.now)) }
        ensures err { OnErr result ((state self.new).taken ≡ (state self.old).taken) }
        ensures fault { Counts (state self.old).faults (state self.new).faults (IsErrOf result Failed) }
        ensures want { Counts (state self.old).wants (state self.new).wants (IsErrOf result NoMemory) };
}
