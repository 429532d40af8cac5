//! A folder in memory, which tells what stands in it.
ghost use Rattle.std.specs.Prelude.{◌≡◌, IfOk};
ghost use Rattle.cfb_extract.specs.Items.{texts};

use crate::folder::{Folder, FolderFault};
use std::alloc::{AllocError, Allocator as Heap, Global};

/// A folder, or a file with its bytes, in a folder in memory.
#[derive(Drop)]
pub struct MemoryItem<A: Heap = Global> {
    place: Vec<String<A>, A>,
    content: Option<Vec<u8, A>>,
}

impl<A: Heap> MemoryItem<A> {
    /// The names that lead to it, its own last.
    pub fn place(&self) -> &[String<A>] {
        self.place.as_slice()
    }

    /// The bytes of a file. A folder has none.
    pub fn content(&self) -> Option<&[u8]> {
        match &self.content {
            None => None,
            Some(bytes) => Some(bytes.as_slice()),
        }
    }
}

/// A folder in memory.
#[derive(Drop)]
pub struct MemoryFolder<A: Heap + Drop = Global> {
    items: Vec<MemoryItem<A>, A>,
    alloc: A,
}

/// The same names.
fn copy_of<A: Heap + Clone, B: Heap>(
    alloc: &A,
    place: &[String<B>],
) -> Result<Vec<String<A>, A>, AllocError>
    ensures { IfOk result (λ copy. texts copy.items ≡ texts place.now) }
{
    let mut copy = Vec::new(alloc.clone()?);
    for name in place {
        let same = String::from_str(alloc.clone()?, name.as_str())?;
        copy.push(same)?;
    }
    Ok(copy)
}

/// Whether both say the same names.
fn is_same<A: Heap, B: Heap>(one: &[String<A>], other: &[String<B>]) -> bool {
    if one.len() != other.len() {
        return false;
    }
    for (name, as_well) in one.iter().zip(other.iter()) {
        if name.as_str() != as_well.as_str() {
            return false;
        }
    }
    true
}

impl<A: Heap + Clone + Drop> MemoryFolder<A> {
    ghost use Rattle.std.specs.Prelude.{◌++◌, ◌∷◌, [], OnOk, OnErr, Option, Some, None};
    ghost use Rattle.std.specs.Option.{option_map};
    ghost use Rattle.cfb_extract.specs.Memory.{items_in, made_item};

    /// A folder in which nothing is.
    pub fn new(alloc: A) -> Result<MemoryFolder<A>, AllocError>
        ensures { IfOk result (λ folder. items_in folder ≡ []) }
    {
        Ok(MemoryFolder {
            items: Vec::new(alloc.clone()?),
            alloc,
        })
    }

    /// What was made in it, the oldest first.
    pub fn items(&self) -> &[MemoryItem<A>] {
        self.items.as_slice()
    }

    /// Whether something stands at this place.
    fn stands<B: Heap>(&self, place: &[String<B>]) -> bool {
        for item in &self.items {
            if is_same(item.place.as_slice(), place) {
                return true;
            }
        }
        false
    }

    /// Makes what is empty at this place: a folder, or a file where there is room for bytes.
    fn make<B: Heap>(
        &mut self,
        place: &[String<B>],
        content: Option<Vec<u8, A>>,
    ) -> Result<(), FolderFault>
        ensures made { OnOk result
            (items_in self.new ≡ items_in self.old ++ made_item (texts place.now) content ∷ []) }
        ensures kept { OnErr result (items_in self.new ≡ items_in self.old) }
    {
        if self.stands(place) {
            return Err(FolderFault::System);
        }
        let place = copy_of(&self.alloc, place)?;
        self.items.push(MemoryItem { place, content })?;
        Ok(())
    }
}

impl<A: Heap + Clone + Drop> Folder for MemoryFolder<A> {
    ghost use Rattle.std.specs.Prelude.{true};
    ghost use Rattle.cfb_extract.specs.Memory.{items_in};

    ghost tells = { true };

    ghost items = { λ folder. items_in folder };

    fn make_folder<B: Heap>(&mut self, place: &[String<B>]) -> Result<(), FolderFault> {
        self.make(place, None)
    }

    fn make_file<B: Heap>(&mut self, place: &[String<B>]) -> Result<(), FolderFault> {
        let bytes = Vec::new(self.alloc.clone()?);
        self.make(place, Some(bytes))
    }

    fn write(&mut self, bytes: &[u8]) -> Result<(), FolderFault> {
        let count = self.items.len();
        if count == 0 {
            return Err(FolderFault::System);
        }
        match &mut self.items[count - 1].content {
            None => Err(FolderFault::System),
            Some(content) => Ok(content.extend_from_slice(bytes)?),
        }
    }
}
