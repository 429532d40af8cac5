//! What the searches for flaws know of a file.
ghost use Rattle.std.specs.Prelude.{◌≡◌};
ghost use Rattle.cfb_flaws.specs.Telling.{owners_of};

use crate::owner::{Owner, Table};
use cfb_soundness::parts::Parts;
use std::alloc::{Allocator, Global};

/// The parts of a file, the owners of its sectors and mini sectors, and the sectors of its mini stream.
#[derive(Drop)]
pub(crate) struct Known<'a, 'b, A: Allocator = Global> {
    pub(crate) heap: A,
    pub(crate) parts: &'a Parts<'b, A>,
    pub(crate) sectors: Vec<Owner, A>,
    pub(crate) mini_sectors: Vec<Owner, A>,
    pub(crate) root: Vec<u32, A>,
}

/// The owners of the numbers of that table.
pub(crate) fn owners_in<'k, A: Allocator>(table: Table, known: &'k Known<'_, '_, A>) -> &'k [Owner]
    ensures { result.now ≡ owners_of table known.now }
{
    match table {
        Table::Fat => known.sectors.as_slice(),
        Table::Minifat => known.mini_sectors.as_slice(),
    }
}

/// The sectors of the mini stream.
pub(crate) fn root_in<'k, A: Allocator>(known: &'k Known<'_, '_, A>) -> &'k [u32]
    ensures { result.now ≡ known.now.root.items }
{
    known.root.as_slice()
}
