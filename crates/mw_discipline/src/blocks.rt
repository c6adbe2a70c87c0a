ghost use Rattle.std.specs.Prelude.{◌≡◌, ◌+◌, ◌/◌, ◌<◌, ◌≤◌, All, IfOk, OnErr, OnOk, Some, length, map, slice_set};
ghost use Rattle.mw_bus.specs.Memory.{ram_size};
ghost use Rattle.mw_isa.specs.declared.offence.BlockStatus.TheVariants.{Changed};
ghost use Rattle.mw_isa.specs.Discipline.{block_count, blocks_in, changed_by, changed_from, clean_blocks, cleaned, invalidated_at, status_in};
ghost use Rattle.mw_discipline.specs.Inside.{listed_by, past_block, settled_at};

use crate::place::{Place, given_up, settled, status_at, stored};
use mw_bus::RAM_SIZE;
use mw_isa::{BlockStatus, Span};
use std::alloc::{AllocError as NoMemory, Global};
use std::marker::Model;

/// How many blocks of 64 bytes RAM has.
const BLOCKS: usize = RAM_SIZE / 64;

/// The blocks of RAM, seen as the list of their statuses.
#[derive(Drop)]
pub struct Blocks {
    /// Each block of RAM, in order.
    places: Vec<Place>,
    /// The numbers of the blocks that wait for a synchronizing event.
    waiting: Vec<u32>,
}

impl Model for Blocks {
    ghost use Rattle.std.specs.Prelude.{List, Option, map};
    ghost use Rattle.mw_isa.specs.declared.offence.BlockStatus.{BlockStatus};

    ghost Value = { List (Option BlockStatus) };

    ghost use Rattle.mw_discipline.specs.Inside.{AreListed, status_at};

    ghost view = { λ b. map status_at b.places.items };

    ghost invariant = { λ b. AreListed b.places.items b.waiting.items };
}

/// Lists a block that is to wait and doesn't yet, by what is kept of it.
fn list(place: Place, block: u32, waiting: &mut Vec<u32>) -> Result<(), NoMemory>
    ensures ok { OnOk result (waiting.new.items ≡ listed_by place block waiting.old.items) }
    ensures err { OnErr result (waiting.new.items ≡ waiting.old.items) }
{
    if place == Place::Changed {
        waiting.push(block)?;
    }
    Ok(())
}

/// The number of the first block behind a stretch of RAM.
fn past_block(span: Span) -> u32
    requires { span.at + span.len ≤ ram_size }
    ensures { result ≡ past_block span }
{
    (span.at + span.len + 63) / 64
}

/// Settles the blocks of these numbers, and no other.
fn settle(places: &mut Vec<Place>, waiting: &[u32])
    requires size { length places.old.items ≡ block_count }
    requires within { All (λ block. block < block_count) waiting.now }
    ensures { places.new.items ≡ settled_at waiting.now places.old.items }
{
    for block in waiting {
        let at = *block as usize;
        places[at] = settled(places[at]);
    }
}

impl Blocks {
    /// All blocks clean. The only error is want of memory.
    pub fn new(alloc: Global) -> Result<Blocks, NoMemory>
        ensures { IfOk result (λ blocks. blocks ≡ clean_blocks block_count) }
    {
        let mut places = Vec::new(alloc);
        places.resize(BLOCKS, Place::Clean)?;
        Ok(Blocks {
            places,
            waiting: Vec::new(alloc),
        })
    }

    /// The status of a block; none where it is clean.
    pub fn status(&self, block: u32) -> Option<BlockStatus>
        requires { block < block_count }
        ensures { result ≡ status_in self.now block }
    {
        status_at(self.places[block as usize])
    }

    /// A byte of the block is stored to: it is changed.
    fn change(&mut self, block: u32)
        requires { block < block_count }
        ensures { self.new ≡ slice_set self.old block (Some Changed) }
    {
        let at = block as usize;
        self.places[at] = stored(self.places[at]);
    }

    /// A stretch of RAM is stored to: the blocks in which its bytes lie are changed.
    fn store_span(&mut self, span: Span)
        requires { span.at + span.len ≤ ram_size }
        ensures { self.new ≡ changed_from (blocks_in span) (span.at / 64) self.old }
    {
        for block in span.at / 64..past_block(span) {
            self.change(block);
        }
    }

    /// Stretches of RAM are stored to: the blocks in which their bytes lie are changed.
    pub fn store(&mut self, spans: &[Span])
        requires { All (λ span. span.at + span.len ≤ ram_size) spans.now }
        ensures { self.new ≡ changed_by spans.now self.old }
    {
        for span in spans {
            self.store_span(*span);
        }
    }

    /// The copy of the block among the instructions is given up: it is invalidated where it was changed. Where memory is
    /// wanting nothing changes.
    pub fn invalidate(&mut self, block: u32) -> Result<(), NoMemory>
        requires { block < block_count }
        ensures ok { OnOk result (self.new ≡ invalidated_at block self.old) }
        ensures err { OnErr result (self.new ≡ self.old) }
    {
        let at = block as usize;
        let place = self.places[at];
        list(place, block, &mut self.waiting)?;
        self.places[at] = given_up(place);
        Ok(())
    }

    /// A synchronizing event: each invalidated block is clean. It looks at the blocks that were invalidated since the last
    /// such event, and at no other.
    pub fn sync(&mut self)
        ensures { self.new ≡ map cleaned self.old }
    {
        settle(&mut self.places, &self.waiting);
        self.waiting.clear();
    }
}
