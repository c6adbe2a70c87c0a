// How often a host was asked to open a file, and how many bytes its reads have given.
ghost use Rattle.std.specs.Prelude.{◌≡◌};

#[derive(Clone, Copy)]
pub(crate) struct Tally {
    opened: u64,
    given: u64,
}

impl Tally {
    ghost use Rattle.mw_io.specs.Outside.{RoseBy};

    pub(crate) fn new() -> Self
        ensures opened { result.opened ≡ 0 }
        ensures given { result.given ≡ 0 }
    {
        Tally {
            opened: 0,
            given: 0,
        }
    }

    pub(crate) fn count_open(&mut self)
        ensures opened { RoseBy 1 self.old.opened self.new.opened }
        ensures given { self.new.given ≡ self.old.given }
    {
        self.opened = self.opened.saturating_add(1);
    }

    pub(crate) fn count_bytes(&mut self, bytes: usize)
        ensures opened { self.new.opened ≡ self.old.opened }
        ensures given { RoseBy bytes self.old.given self.new.given }
    {
        self.given = self.given.saturating_add(bytes as u64);
    }
}
