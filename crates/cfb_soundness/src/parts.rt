//! The parts of a file that its soundness hangs on.
use cfb_codecs::direntry::DirEntry;
use cfb_format::version::Version;
use std::alloc::{Allocator, Global};

/// The parts of a file, as opening reads them (MS-CFB 2.2 to 2.6).
#[derive(Drop)]
pub struct Parts<'a, A: Allocator = Global> {
    pub version: Version,
    /// The length of the file, in bytes.
    pub len: u64,
    /// The FAT sectors and the DIFAT sectors, in order.
    pub fat_sectors: &'a [u32],
    pub difat_sectors: &'a [u32],
    /// The value of each sector.
    pub fat: &'a [u32],
    /// The directory's sectors and its entries.
    pub directory: &'a [u32],
    pub entries: &'a [DirEntry<A>],
    /// The numbers of the entries that are streams of the tree.
    pub streams: &'a [u32],
    /// The MiniFAT's sectors and the value of each mini sector.
    pub minifat_sectors: &'a [u32],
    pub minifat: &'a [u32],
    /// No word of the FAT points past the file, those of listed FAT and DIFAT sectors aside.
    pub points_into_file: bool,
}
