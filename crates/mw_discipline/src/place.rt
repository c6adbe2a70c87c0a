ghost use Rattle.std.specs.Prelude.{◌≡◌};
ghost use Rattle.mw_discipline.specs.Inside.{given_up, settled, status_at, stored, waits};

use mw_isa::BlockStatus;

/// What is kept of a block, in a byte.
#[derive(Clone, Copy, Debug, PartialEq, Eq)]
pub enum Place {
    /// It is clean.
    Clean,
    /// It was stored to.
    Changed,
    /// It was stored to, and then its copy among the instructions was given up; it is listed.
    Invalidated,
    /// It was stored to again while it is listed.
    Again,
}

/// The status of a block.
pub fn status_at(place: Place) -> Option<BlockStatus>
    ensures { result ≡ status_at place }
{
    match place {
        Place::Clean => None,
        Place::Changed => Some(BlockStatus::Changed),
        Place::Invalidated => Some(BlockStatus::Invalidated),
        Place::Again => Some(BlockStatus::Changed),
    }
}

/// A block behind a store to it.
pub fn stored(place: Place) -> Place
    ensures { result ≡ stored place }
{
    match place {
        Place::Clean => Place::Changed,
        Place::Changed => Place::Changed,
        Place::Invalidated => Place::Again,
        Place::Again => Place::Again,
    }
}

/// A block of which the instructions' copy is given up.
pub fn given_up(place: Place) -> Place
    ensures { result ≡ given_up place }
{
    match place {
        Place::Clean => Place::Clean,
        Place::Changed => Place::Invalidated,
        Place::Invalidated => Place::Invalidated,
        Place::Again => Place::Invalidated,
    }
}

/// A block behind a synchronizing event.
pub fn settled(place: Place) -> Place
    ensures { result ≡ settled place }
{
    match place {
        Place::Clean => Place::Clean,
        Place::Changed => Place::Changed,
        Place::Invalidated => Place::Clean,
        Place::Again => Place::Changed,
    }
}
