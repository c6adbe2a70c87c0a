ghost use Rattle.std.specs.Prelude.{◌≡◌, ℕ, List, [], Some, None, if◌then◌else◌, bytes_eq, OnOk, OnErr};
ghost use Rattle.mw_asm.specs.Values.{address_of};

use std::alloc::{AllocError as NoMemory, Global};
use std::collections::BTreeMap;
use std::marker::Model;

/// Labels with their addresses. Their names are bytes of the source.
#[derive(Drop)]
pub(crate) struct Labels<'a> {
    addresses: BTreeMap<&'a [u8], u32>,
}

impl<'a> Model for Labels<'a> {
    ghost use Rattle.std.specs.Prelude.{List};
    ghost use Rattle.mw_asm.specs.Values.{Placed};
    ghost use Rattle.mw_asm.specs.Labels.{labels_in};

    ghost Value = { List Placed };

    ghost view = { λ l. labels_in l.addresses.entries };
}

impl<'a> Labels<'a> {
    /// No label. It takes no memory.
    pub(crate) fn new(alloc: Global) -> Labels<'a>
        ensures { result ≡ [] }
    {
        Labels {
            addresses: BTreeMap::new(alloc),
        }
    }

    /// The address of a name, if it is a label.
    pub(crate) fn address_of(&self, name: &[u8]) -> Option<u32>
        ensures { result ≡ address_of self.now name.now }
    {
        self.addresses.get(name).copied()
    }

    /// Gives a name an address. Where memory is wanting the labels stay as they were.
    pub(crate) fn add(&mut self, name: &'a [u8], address: u32) -> Result<(), NoMemory>
        ensures ok { OnOk result
            ((q : List ℕ) → address_of self.new q
            ≡ (if bytes_eq name.now q then Some address else address_of self.old q)) }
        ensures err { OnErr result (self.new ≡ self.old) }
    {
        self.addresses.insert(name, address)?;
        Ok(())
    }
}
