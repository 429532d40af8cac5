//! What the definitions promise about each other. None of these functions does anything: each has a law
//! as its contract.
ghost use Rattle.cfb_directory.specs.HeldLaws.{DirectoryStaysHeld, HeldDirectoryIsRead, HeldDirectoryIsStrict};
ghost use Rattle.cfb_directory.specs.NameLaws.{InsertedIsFound, RemovedIsFoundNoMore};

/// A directory that the bytes hold is the one that opening reads from them, and where they hold it as strict opening wants it, strict
/// opening takes it (MS-CFB 2.6).
pub fn held_directory_is_read()
    ensures read { HeldDirectoryIsRead }
    ensures strict { HeldDirectoryIsStrict }
{}

/// A directory stays held by the bytes through changes that spare its sectors and leave the words of the header that speak of it.
pub fn directory_stays_held()
    ensures { DirectoryStaysHeld }
{}

/// A directory is a map from chains of names to entries, through all storages: an entry that was put into it is found by its name in
/// its storage, one that was taken out is not, and all else is found as before (MS-CFB 2.6.4).
pub fn names_follow_changes()
    ensures inserted { InsertedIsFound }
    ensures removed { RemovedIsFoundNoMore }
{}
