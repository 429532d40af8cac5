//! What sectors and mini sectors are used for.
ghost use Rattle.std.specs.Prelude.{◌≡◌, ◌↔◌, IsTrue};
ghost use Rattle.cfb_flaws.specs.Owners.{owner_at};

/// What a sector or a mini sector is used for.
#[derive(Clone, Copy, Debug, PartialEq, Eq, Drop)]
pub enum Owner {
    /// The sector holds words of the FAT.
    Fat,
    /// It holds entries of the DIFAT.
    Difat,
    /// It holds directory entries.
    Directory,
    /// It holds words of the MiniFAT.
    Minifat,
    /// It holds mini sectors.
    MiniStream,
    /// It holds bytes of the stream whose directory entry has this number.
    Stream(u32),
    /// Nothing uses it, and its table marks it as free.
    Free,
    /// Nothing uses it, and yet its table does not mark it as free.
    Unused,
}

/// The FAT or the MiniFAT.
#[derive(Clone, Copy, Debug, PartialEq, Eq, Drop)]
pub enum Table {
    Fat,
    Minifat,
}

impl Owner {
    ghost use Rattle.cfb_flaws.specs.Owners.{is_chained, is_of_tables, is_unused};

    /// Whether no list has claimed the sector.
    pub(crate) fn is_unused(self) -> bool
        ensures { result ≡ is_unused self }
    {
        match self {
            Owner::Unused => true,
            _ => false,
        }
    }

    /// Whether the sector holds words of the FAT or entries of the DIFAT.
    pub(crate) fn is_of_tables(self) -> bool
        ensures { result ≡ is_of_tables self }
    {
        matches!(self, Owner::Fat | Owner::Difat)
    }

    /// Whether both are the same owner.
    pub fn is_same(self, other: Owner) -> bool
        ensures { IsTrue result ↔ self ≡ other }
    {
        match self {
            Owner::Fat => matches!(other, Owner::Fat),
            Owner::Difat => matches!(other, Owner::Difat),
            Owner::Directory => matches!(other, Owner::Directory),
            Owner::Minifat => matches!(other, Owner::Minifat),
            Owner::MiniStream => matches!(other, Owner::MiniStream),
            Owner::Stream(number) => matches!(other, Owner::Stream(same) if same == number),
            Owner::Free => matches!(other, Owner::Free),
            Owner::Unused => matches!(other, Owner::Unused),
        }
    }

    /// Whether a chain of the FAT or of the MiniFAT has the sector.
    pub fn is_chained(self) -> bool
        ensures { result ≡ is_chained self }
    {
        match self {
            Owner::Directory | Owner::Minifat | Owner::MiniStream | Owner::Stream(_) => true,
            Owner::Fat | Owner::Difat | Owner::Free | Owner::Unused => false,
        }
    }
}

/// The owner of that number; past the end none has one.
pub(crate) fn owner_at(owners: &[Owner], number: usize) -> Owner
    ensures { result ≡ owner_at owners.now number }
{
    if number >= owners.len() {
        return Owner::Unused;
    }
    owners[number]
}
