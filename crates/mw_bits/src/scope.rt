ghost use Rattle.std.specs.Prelude.{◌≡◌};
ghost use Rattle.mw_bits.specs.Scopes.{is_in_scope};

/// The kept translations that an invalidation reaches (Book III, tlbie).
#[derive(Clone, Copy, Debug, PartialEq, Eq)]
pub enum Scope {
    /// No translation is reached.
    Nothing,
    /// All translations are reached.
    All,
    /// The translations of one process are reached.
    Pid(u32),
    /// The translations of one process for some pages that follow one another are reached.
    Region {
        /// The process.
        pid: u32,
        /// The first page, as an effective address in units of 4 KiB.
        page: u64,
        /// How many pages of 4 KiB.
        pages: u64,
    },
}

impl Scope {
    /// Whether the translation of a page of 4 KiB, by its number, for a process is reached (Book III, tlbie). It can't
    /// fail.
    pub fn has(self, process: u32, number: u64) -> bool
        ensures { result ≡ is_in_scope self process number }
    {
        match self {
            Scope::Nothing => false,
            Scope::All => true,
            Scope::Pid(pid) => process == pid,
            Scope::Region { pid, page, pages } => {
                process == pid && page <= number && number - page < pages
            }
        }
    }
}
