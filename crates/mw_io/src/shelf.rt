// Files in memory, and the place that reads have come to.
ghost use Rattle.std.specs.Prelude.{◌≡◌, ◌≢◌, ◌≤◌, ◌<◌, ◌↔◌, ℕ, Bool, true, false, Option, List, [], length, take, drop, IsTrue, OnOk, OnErr, is_some, nat_lt};

use std::alloc::{AllocError, Global};

#[derive(Drop)]
pub(crate) struct NamedFile {
    name: Vec<u8>,
    content: Vec<u8>,
}

// A file by its number, and how many of its bytes were read.
#[derive(Clone, Copy)]
pub(crate) struct Place {
    file: usize,
    offset: usize,
}

#[derive(Drop)]
pub(crate) struct Shelf {
    alloc: Global,
    files: Vec<NamedFile>,
    place: Option<Place>,
}

impl Shelf {
    ghost use Rattle.mw_io.specs.Shelf.{content_named, content_at, shelf_files, shelf_is_open, shelf_rest};
    ghost use Rattle.mw_io.specs.Outside.{content_of};

    pub(crate) fn new(alloc: Global) -> Self
        ensures files { (name : List ℕ) → shelf_files result name ≡ None }
        ensures closed { shelf_is_open result ≡ false }
    {
        Shelf {
            alloc,
            files: Vec::new(alloc),
            place: None,
        }
    }

    // The number of the first file of this name, or the number of files.
    #[tactic(auto, using(crate::proofs::Files::named_from, crate::proofs::Files::found_at, crate::proofs::Files::named_past, crate::proofs::Files::at_number, crate::proofs::Files::at_past))]
    fn find(&self, name: &[u8]) -> usize
        ensures content { content_at self.now.files.items result ≡ content_of (shelf_files self.now) name.now }
        ensures found { is_some (shelf_files self.now name.now) ≡ nat_lt result (length self.now.files.items) }
    {
        for (i, file) in self.files.iter().enumerate() {
            if file.name.as_slice() == name {
                return i;
            }
        }
        self.files.len()
    }

    // Adds a file before the others, so that it hides one of the same name.
    pub(crate) fn put(&mut self, name: &[u8], content: &[u8]) -> Result<(), AllocError>
        requires { shelf_is_open self.old ≡ false }
        ensures named { OnOk result (shelf_files self.new name.now ≡ Some content.now) }
        ensures others { (other : List ℕ) → other ≢ name.now → shelf_files self.new other ≡ shelf_files self.old other }
        ensures err { OnErr result (shelf_files self.new ≡ shelf_files self.old) }
        ensures closed { shelf_is_open self.new ≡ false }
    {
        let file = NamedFile {
            name: Vec::from_slice(self.alloc, name)?,
            content: Vec::from_slice(self.alloc, content)?,
        };
        self.files.insert(0, file)?;
        Ok(())
    }

    // Whether the name is among the files. A file is open from then on, an empty one where it is not.
    pub(crate) fn open(&mut self, name: &[u8]) -> bool
        ensures found { result ≡ is_some (shelf_files self.old name.now) }
        ensures opened { shelf_is_open self.new ≡ true }
        ensures start { shelf_rest self.new ≡ content_of (shelf_files self.old) name.now }
        ensures same_files { shelf_files self.new ≡ shelf_files self.old }
    {
        let file = self.find(name);
        self.place = Some(Place { file, offset: 0 });
        file < self.files.len()
    }

    pub(crate) fn close(&mut self)
        ensures closed { shelf_is_open self.new ≡ false }
        ensures same_files { shelf_files self.new ≡ shelf_files self.old }
    {
        self.place = None;
    }

    pub(crate) fn read(&mut self, buf: &mut [u8]) -> usize
        requires opened { IsTrue (shelf_is_open self.old) }
        requires room { 0 < length buf.old }
        ensures count { result ≤ length buf.new }
        ensures bytes { take result buf.new ≡ take result (shelf_rest self.old) }
        ensures left { shelf_rest self.new ≡ drop result (shelf_rest self.old) }
        ensures end { (result ≡ 0) ↔ (shelf_rest self.old ≡ []) }
        ensures still_open { IsTrue (shelf_is_open self.new) }
        ensures same_files { shelf_files self.new ≡ shelf_files self.old }
    {
        let Some(place) = self.place else {
            unreachable!()
        };
        if place.file >= self.files.len() {
            return 0;
        }
        let content = self.files[place.file].content.as_slice();
        if place.offset >= content.len() {
            return 0;
        }
        let count = buf.len().min(content.len() - place.offset);
        buf[..count].copy_from_slice(&content[place.offset..place.offset + count]);
        self.place = Some(Place {
            file: place.file,
            offset: place.offset + count,
        });
        count
    }
}
