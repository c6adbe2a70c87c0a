ghost use Rattle.std.specs.Prelude.{◌≡◌, [], ◌∷◌, ◌++◌, OnOk, OnErr};

use crate::event::Event;
use std::alloc::{AllocError as NoMemory, Global};
use std::marker::Model;

/// A list of events that grows at its end.
#[derive(Drop)]
pub struct Events {
    items: Vec<Event>,
}

impl Model for Events {
    ghost use Rattle.std.specs.Prelude.{List};
    ghost use Rattle.mw_isa.specs.declared.event.Event.{Event as EventData};

    ghost Value = { List EventData };

    ghost view = { λ e. e.items.items };
}

impl Events {
    /// A list with no event. It takes no memory.
    pub fn new(alloc: Global) -> Events
        ensures { result ≡ [] }
    {
        Events {
            items: Vec::new(alloc),
        }
    }

    /// Appends the event. Where memory is wanting the list stays as it was.
    pub fn push(&mut self, event: Event) -> Result<(), NoMemory>
        ensures ok { OnOk result (self.new ≡ self.old ++ event ∷ []) }
        ensures err { OnErr result (self.new ≡ self.old) }
    {
        self.items.push(event)?;
        Ok(())
    }

    /// The events in order.
    pub fn as_slice(&self) -> &[Event]
        ensures { result.now ≡ self.now }
    {
        self.items.as_slice()
    }
}
