// Which calls are to fail, by their numbers from 0.
ghost use Rattle.std.specs.Prelude.{◌≡◌, ◌+◌, ◌-◌, ◌^◌, ◌++◌, ◌∷◌, min, ℕ, List, [], OnOk, OnErr};

use std::alloc::{AllocError, Global};

#[derive(Drop)]
pub(crate) struct Plan {
    to_fail: Vec<u64>,
    calls: u64,
}

impl Plan {
    ghost use Rattle.mw_io.specs.Memory.{is_due};

    pub(crate) fn new(alloc: Global) -> Self
        ensures to_fail { result.to_fail.items ≡ [] }
        ensures calls { result.calls ≡ 0 }
    {
        Plan {
            to_fail: Vec::new(alloc),
            calls: 0,
        }
    }

    pub(crate) fn fail(&mut self, call: u64) -> Result<(), AllocError>
        ensures ok { OnOk result (self.new.to_fail.items ≡ self.old.to_fail.items ++ call ∷ []) }
        ensures err { OnErr result (self.new.to_fail.items ≡ self.old.to_fail.items) }
        ensures calls { self.new.calls ≡ self.old.calls }
    {
        self.to_fail.push(call)?;
        Ok(())
    }

    // Counts a call, and answers whether it is to fail.
    pub(crate) fn count(&mut self) -> bool
        ensures due { result ≡ is_due self.old.to_fail.items self.old.calls }
        ensures calls { self.new.calls ≡ min (self.old.calls + 1) (2 ^ 64 - 1) }
        ensures to_fail { self.new.to_fail.items ≡ self.old.to_fail.items }
    {
        let is_due = self.to_fail.as_slice().contains(&self.calls);
        self.calls = self.calls.saturating_add(1);
        is_due
    }
}
