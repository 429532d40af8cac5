//! Reasons why a file is not sound.
use crate::owner::{Owner, Table};

/// Where a chain breaks.
#[derive(Clone, Copy, Debug, PartialEq, Eq, Drop)]
pub enum Break {
    /// It begins at this number, which is none of the table's.
    BeginsAt(u32),
    /// The one number leads to the other, which is none of the table's.
    LeadsTo(u32, u32),
    /// The one number leads to the other, at which the chain begins.
    LeadsBackTo(u32, u32),
    /// A place that was not looked for.
    Somewhere,
}

/// A reason why a file is not consistent.
#[derive(Clone, Copy, Debug, PartialEq, Eq, Drop)]
pub enum Flaw {
    /// The FAT has this many words, and the file has more sectors.
    TooFewWords {
        words: u64,
        sectors: u64,
    },
    /// The FAT lists this sector twice.
    ListedTwice(u32),
    /// The owner has each of these numbers, and the other one has them too.
    UsedTwice {
        table: Table,
        first: u32,
        last: u32,
        owner: Owner,
        other: Owner,
    },
    /// This owner has no chain in that table.
    Broken {
        table: Table,
        owner: Owner,
        place: Break,
    },
    /// The mini stream has room for this many mini sectors, and the MiniFAT names more.
    TooLittleRoom {
        room: u64,
        named: u64,
    },
    /// Nothing uses the one number, which goes on in the other, and that is free or has an owner.
    Loose {
        table: Table,
        number: u64,
        next: u32,
        owner: Owner,
    },
    /// Of the stream with this entry only so many bytes can be read.
    Cut {
        stream: u32,
        readable: u64,
        len: u64,
    },
    /// The FAT says that this sector goes on in the other, which is past the last one of the file.
    PastFile {
        sector: u64,
        next: u32,
    },
}
