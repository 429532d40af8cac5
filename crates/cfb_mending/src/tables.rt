//! Where a file has its tables, and of which sectors these say something.
ghost use Rattle.std.specs.Prelude.{◌≡◌, ◌<◌, ◌*◌, ◌+◌, ◌^◌, ◌-◌, ◌++◌, ◌==◌, ◌&&◌, ℕ, List, length, nat_lt, not, take, IsTrue, IfOk, IfSome, OnOk};
ghost use Rattle.std.specs.List.{All, suffix_len};
ghost use Rattle.cfb_format.specs.Bytes.{points_below};
ghost use Rattle.cfb_mending.specs.Listing.{ListsOne, difat_patches, fat_sectors, is_named_cut, listed_from, listed_patches, named_from, named_patches, without_zeros};
ghost use Rattle.cfb_mending.specs.Missing.{cut_end, difat_from, first_difat_link, known_of};
ghost use Rattle.cfb_mending.specs.Tables.{IsDifatEntry, IsDifatLink, IsFatSector, AreInTables, fat_place};

use crate::bounds::{Bounds, holder_of, index_of, place_in, words_in};
use crate::loaded::word_at;
use crate::scan::Scan;
use cfb_format::consts::{
    END_OF_CHAIN, FREE_SECTOR, MAX_REGULAR_SECTOR, NUM_DIFAT_ENTRIES_IN_HEADER,
};
use cfb_format::error::Error;
use cfb_format::header::Header;
use cfb_format::medium::ReadMedium;
use std::alloc::Allocator as Heap;

// Where the header has the first DIFAT sector, and its entries of the DIFAT (MS-CFB 2.2).
const FIRST_DIFAT_AT: u64 = 68;

const DIFAT_AT: u64 = 76;

/// Where a file has its tables.
#[derive(Drop)]
pub(crate) struct Tables<A: Heap> {
    pub(crate) bounds: Bounds,
    /// The FAT sectors, up to the first that is missing.
    pub(crate) fat: Vec<u32, A>,
}

impl<A: Heap> Tables<A> {
    /// For how many sectors the FAT has words.
    pub(crate) fn known(&self) -> u64
        ensures { result ≡ known_of self.now.bounds.version self.now.bounds.sectors
            self.now.fat.items }
    {
        let words = words_in(self.bounds.version) as u64;
        let covered = (self.fat.len() as u64).saturating_mul(words);
        self.bounds.sectors.min(covered)
    }

    /// Whether the word names a sector that the file has not, or of which the FAT says nothing.
    pub(crate) fn is_missing(&self, word: u32) -> bool
        ensures { result ≡ not (points_below (known_of self.now.bounds.version
            self.now.bounds.sectors self.now.fat.items) word) }
    {
        word <= MAX_REGULAR_SECTOR && self.known() <= u64::from(word)
    }

    /// Where the FAT has the word of a sector, if it has one.
    pub(crate) fn fat_place(&self, sector: u32) -> Option<u64>
        ensures is { result ≡ fat_place self.now.bounds.version self.now.fat.items sector }
        ensures bound { IfSome result (λ place. place < 2 ^ 63) }
    {
        let version = self.bounds.version;
        let holder = self.fat.get(holder_of(version, sector))?;
        Some(place_in(version, *holder, index_of(version, sector)))
    }
}

impl<F: ReadMedium, A: Heap + Clone> Scan<F, A> {
    /// Adds the FAT sectors that so many words name, the first of which stands at `at`, up to one that is no number. Where a sector or a word
    /// is missing the list ends with it: whether that is so.
    fn list_in(
        &mut self,
        bounds: Bounds,
        at: u64,
        count: usize,
        fat: &mut Vec<u32, A>,
    ) -> Result<bool, Error>
        requires bound { at + 4 * count < 2 ^ 63 }
        requires entries { IsTrue F.tells → (index : ℕ) → index < count
            → IsDifatEntry bounds.version (F.bytes self.old.medium) (at + 4 * index) }
        ensures same { IsTrue F.tells → F.bytes self.new.medium ≡ F.bytes self.old.medium }
        ensures listed { IsTrue F.tells
            → All (IsFatSector bounds.version (F.bytes self.old.medium)) fat.old.items
            → OnOk result (All (IsFatSector bounds.version (F.bytes self.old.medium))
            fat.new.items) }
        ensures mends { IsTrue F.tells → (table : List ℕ)
            → AreInTables bounds.version (F.bytes self.old.medium) table self.old.patches.items
            → OnOk result (AreInTables bounds.version (F.bytes self.old.medium) table
            self.new.patches.items) }
        ensures named { IsTrue F.tells → (bytes : List ℕ) → F.bytes self.old.medium ≡ bytes
            → bounds.len ≡ length bytes → OnOk result (fat.new.items
            ≡ fat.old.items ++ named_from bounds.sectors bytes at count) }
        ensures patched { IsTrue F.tells → (bytes : List ℕ) → F.bytes self.old.medium ≡ bytes
            → bounds.len ≡ length bytes → OnOk result (self.new.patches.items
            ≡ self.old.patches.items ++ named_patches bounds.sectors bytes at count) }
        ensures ends { IsTrue F.tells → (bytes : List ℕ) → F.bytes self.old.medium ≡ bytes
            → bounds.len ≡ length bytes → IfOk result (λ ends. ends
            ≡ is_named_cut bounds.sectors bytes at count) }
    {
        for index in 0..count {
            let place = at + 4 * index as u64;
            let end = at + 4 * count as u64;
            if !bounds.has_word(place) {
                self.set(place, end, FREE_SECTOR)?;
                return Ok(true);
            }
            let word = word_at(&mut self.medium, place)?;
            if word > MAX_REGULAR_SECTOR {
                return Ok(false);
            }
            if !bounds.has(word) {
                self.set(place, end, FREE_SECTOR)?;
                return Ok(true);
            }
            fat.push(word)?;
        }
        Ok(false)
    }

    /// The FAT sectors up to the first that is missing, with which the DIFAT ends.
    pub(crate) fn list_fat(&mut self, bounds: Bounds, header: &Header) -> Result<Vec<u32, A>, Error>
        ensures same { IsTrue F.tells → F.bytes self.new.medium ≡ F.bytes self.old.medium }
        ensures listed { IsTrue F.tells → IfOk result (λ fat.
            All (IsFatSector bounds.version (F.bytes self.old.medium)) fat.items) }
        ensures mends { IsTrue F.tells → (table : List ℕ)
            → AreInTables bounds.version (F.bytes self.old.medium) table self.old.patches.items
            → OnOk result (AreInTables bounds.version (F.bytes self.old.medium) table
            self.new.patches.items) }
        ensures is { IsTrue F.tells → (bytes : List ℕ) → F.bytes self.old.medium ≡ bytes
            → bounds.len ≡ length bytes → IfOk result (λ fat. fat.items
            ≡ fat_sectors bounds.version bytes bounds.sectors header.now.num_fat_sectors) }
        ensures patched { IsTrue F.tells → (bytes : List ℕ) → F.bytes self.old.medium ≡ bytes
            → bounds.len ≡ length bytes → OnOk result (self.new.patches.items
            ≡ self.old.patches.items ++ difat_patches bounds.version bytes bounds.sectors) }
    {
        let mut fat = Vec::new(self.heap.clone()?);
        let is_cut = self.list_in(bounds, DIFAT_AT, NUM_DIFAT_ENTRIES_IN_HEADER, &mut fat)?;
        self.list_in_sectors(bounds, is_cut, &mut fat)?;
        drop_padding(&mut fat, header);
        Ok(fat)
    }

    /// Adds those that the DIFAT's sectors list, unless the list has ended.
    fn list_in_sectors(
        &mut self,
        bounds: Bounds,
        is_cut: bool,
        fat: &mut Vec<u32, A>,
    ) -> Result<(), Error>
        ensures same { IsTrue F.tells → F.bytes self.new.medium ≡ F.bytes self.old.medium }
        ensures listed { IsTrue F.tells
            → All (IsFatSector bounds.version (F.bytes self.old.medium)) fat.old.items
            → OnOk result (All (IsFatSector bounds.version (F.bytes self.old.medium))
            fat.new.items) }
        ensures mends { IsTrue F.tells → (table : List ℕ)
            → AreInTables bounds.version (F.bytes self.old.medium) table self.old.patches.items
            → OnOk result (AreInTables bounds.version (F.bytes self.old.medium) table
            self.new.patches.items) }
        ensures named { IsTrue F.tells → (bytes : List ℕ) → F.bytes self.old.medium ≡ bytes
            → bounds.len ≡ length bytes → OnOk result (fat.new.items
            ≡ fat.old.items ++ listed_from bounds.version bytes bounds.sectors bounds.sectors is_cut
            first_difat_link) }
        ensures patched { IsTrue F.tells → (bytes : List ℕ) → F.bytes self.old.medium ≡ bytes
            → bounds.len ≡ length bytes → OnOk result (self.new.patches.items
            ≡ self.old.patches.items ++ listed_patches bounds.version bytes bounds.sectors
            bounds.sectors is_cut first_difat_link) }
    {
        let mut link = FIRST_DIFAT_AT;
        let mut is_cut = is_cut;
        for _turn in 0..bounds.sectors {
            let Some((next, ends)) = self.list_behind(bounds, link, is_cut, fat)? else {
                return Ok(());
            };
            link = next;
            is_cut = ends;
        }
        Ok(())
    }

    /// Adds the FAT sectors that the DIFAT sector lists whose number stands at `link`, and tells where that of the next one stands, and whether
    /// the list ends with a missing one. None where there is no such sector; where it or the link is missing, or the list has ended, so does the DIFAT.
    fn list_behind(
        &mut self,
        bounds: Bounds,
        link: u64,
        is_cut: bool,
        fat: &mut Vec<u32, A>,
    ) -> Result<Option<(u64, bool)>, Error>
        requires bound { link < 2 ^ 63 }
        requires link { IsTrue F.tells
            → IsDifatLink bounds.version (F.bytes self.old.medium) link }
        ensures same { IsTrue F.tells → F.bytes self.new.medium ≡ F.bytes self.old.medium }
        ensures next { IfOk result (λ r. IfSome r (λ next. next.0 < 2 ^ 63)) }
        ensures link { IsTrue F.tells → IfOk result (λ r. IfSome r (λ next.
            IsDifatLink bounds.version (F.bytes self.old.medium) next.0)) }
        ensures listed { IsTrue F.tells
            → All (IsFatSector bounds.version (F.bytes self.old.medium)) fat.old.items
            → OnOk result (All (IsFatSector bounds.version (F.bytes self.old.medium))
            fat.new.items) }
        ensures mends { IsTrue F.tells → (table : List ℕ)
            → AreInTables bounds.version (F.bytes self.old.medium) table self.old.patches.items
            → OnOk result (AreInTables bounds.version (F.bytes self.old.medium) table
            self.new.patches.items) }
        ensures one { IsTrue F.tells → (bytes : List ℕ) → F.bytes self.old.medium ≡ bytes
            → bounds.len ≡ length bytes → IfOk result (λ r. ListsOne bounds.version
            bytes bounds.sectors is_cut link fat.old.items fat.new.items self.old.patches.items
            self.new.patches.items r) }
    {
        if !bounds.has_word(link) {
            self.set(link, link + 4, END_OF_CHAIN)?;
            return Ok(None);
        }
        let next = word_at(&mut self.medium, link)?;
        if next > MAX_REGULAR_SECTOR {
            return Ok(None);
        }
        if !is_listed(bounds, is_cut, next) {
            self.set(link, link + 4, END_OF_CHAIN)?;
            return Ok(None);
        }
        let count = words_in(bounds.version) - 1;
        let ends = self.list_in(bounds, place_in(bounds.version, next, 0), count, fat)?;
        Ok(Some((place_in(bounds.version, next, count), ends)))
    }

    /// Where that of the DIFAT's sectors ends that the end of the file cuts, 0 where it cuts none.
    pub(crate) fn difat_cut_end(&mut self, bounds: Bounds) -> Result<u64, Error>
        ensures same { IsTrue F.tells → F.bytes self.new.medium ≡ F.bytes self.old.medium }
        ensures stays { self.new.patches.items ≡ self.old.patches.items }
        ensures is { IsTrue F.tells → (bytes : List ℕ) → F.bytes self.old.medium ≡ bytes
            → bounds.len ≡ length bytes → IfOk result (λ «end». «end»
            ≡ cut_end bounds.version bounds.len
            (difat_from bounds.version bytes bounds.sectors first_difat_link)) }
    {
        let mut link = FIRST_DIFAT_AT;
        for _turn in 0..bounds.sectors {
            if !bounds.has_word(link) {
                return Ok(0);
            }
            let next = word_at(&mut self.medium, link)?;
            if next > MAX_REGULAR_SECTOR {
                return Ok(0);
            }
            if bounds.is_cut(next) {
                return Ok(place_in(bounds.version, next, words_in(bounds.version)));
            }
            link = place_in(bounds.version, next, words_in(bounds.version) - 1);
        }
        Ok(0)
    }
}

/// Whether the DIFAT goes on to this sector: its list has not ended, and the file has the sector.
fn is_listed(bounds: Bounds, is_cut: bool, sector: u32) -> bool
    ensures { result ≡ (not is_cut && nat_lt sector bounds.sectors) }
{
    !is_cut && bounds.has(sector)
}

/// Where the zeros at the end of a list begin.
fn zeros_start(sectors: &[u32]) -> usize
    ensures { result ≡ length sectors.now - suffix_len (λ s. s == 0) sectors.now }
{
    let mut start = sectors.len();
    while start > 0 && sectors[start - 1] == 0 {
        start -= 1;
    }
    start
}

/// Zeros at the end of the list pad it (MS-CFB 2.5).
fn drop_padding<A: Heap>(fat: &mut Vec<u32, A>, header: &Header)
    ensures some { fat.new.items ≡ take (length fat.new.items) fat.old.items }
    ensures is { fat.new.items ≡ without_zeros header.now.num_fat_sectors fat.old.items }
{
    let least = NUM_DIFAT_ENTRIES_IN_HEADER.max(header.num_fat_sectors as usize);
    fat.truncate(least.max(zeros_start(fat)));
}
