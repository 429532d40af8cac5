//! Looks through the tables of a file, and sets the words that lead to nothing.
ghost use Rattle.std.specs.Prelude.{◌≡◌, ◌<◌, ◌≤◌, ◌+◌, ◌-◌, ◌*◌, ◌++◌, ◌∷◌, ◌⊎◌, [], ◌/◌, ◌&&◌, ◌==◌, ℕ, List, Some, flat_map, length, max, min, nat_lt, not, if◌then◌else◌, IsTrue, IfOk, IfSome, OnOk};
ghost use Rattle.std.specs.List.{All, Contains};
ghost use Rattle.cfb_format.specs.declared.version.Version.{Version};
ghost use Rattle.cfb_format.specs.Bytes.{byte_at, entries_per_sector, free_sector, points_below, sector_start, word_at, words_per_sector};
ghost use Rattle.cfb_format.specs.Fat.{is_fat_padding};
ghost use Rattle.cfb_mending.specs.Missing.{Holds, chain_from, chain_mark, chain_patches, cut_end, cut_patches, difat_from, fat_patches, fat_sector_patches, first_difat_link, end_unless, freed, has_object, is_link_word, kinds_from, kinds_of, known_of, leads_to_none, links_in, lost_links, mark_at, marked, mini_patches, mini_stream_len, none_if, used_in, used_words};
ghost use Rattle.cfb_mending.specs.Tables.{AreInTables, IsMark, IsOnChain, IsTableSector, directory_start, minifat_start};

use crate::bounds::{Bounds, place_in, words_in};
use crate::loaded::{Loaded, SLOT_LEN, WORD_LEN, load, word_at};
use crate::patches::Patch;
use crate::tables::Tables;
use cfb_format::consts::{
    DIFAT_SECTOR, END_OF_CHAIN, FAT_SECTOR, FREE_SECTOR, MAX_REGULAR_SECTOR, NO_STREAM,
    OBJ_TYPE_STORAGE, OBJ_TYPE_STREAM,
};
use cfb_format::error::Error;
use cfb_format::medium::ReadMedium;
use cfb_format::version::Version;
use std::alloc::Allocator as Heap;

/// How many words a slot of the directory has.
const SLOT_WORDS: usize = 32;

/// A file that is looked through.
#[derive(Drop)]
pub(crate) struct Scan<F: ReadMedium, A: Heap + Clone> {
    pub(crate) medium: F,
    pub(crate) patches: Vec<Patch, A>,
    pub(crate) heap: A,
}

impl<F: ReadMedium, A: Heap + Clone> Scan<F, A> {
    /// From now on the words of this range are read so. `Memory`.
    pub(crate) fn set(&mut self, at: u64, end: u64, word: u32) -> Result<(), Error>
        ensures same { self.new.medium ≡ self.old.medium }
        ensures added { OnOk result (self.new.patches.items ≡ self.old.patches.items
            ++ record { at = at; «end» = end; word = word } ∷ []) }
    {
        self.patches.push(Patch { at, end, word })?;
        Ok(())
    }

    /// From now on a word of a sector is read as this mark, if there is one. `Memory`.
    fn mark(
        &mut self,
        version: Version,
        sector: u32,
        index: usize,
        mark: Option<u32>,
    ) -> Result<(), Error>
        requires below { index < words_per_sector version }
        requires mark { IfSome mark IsMark }
        ensures same { self.new.medium ≡ self.old.medium }
        ensures mends { (bytes fat : List ℕ) → IsTableSector version bytes fat sector
            → AreInTables version bytes fat self.old.patches.items
            → OnOk result (AreInTables version bytes fat self.new.patches.items) }
        ensures exact { OnOk result (self.new.patches.items ≡ self.old.patches.items
            ++ mark_at (sector_start version sector + 4 * index) mark) }
    {
        let _words = words_in(version);
        let Some(mark) = mark else {
            return Ok(());
        };
        let at = place_in(version, sector, index);
        self.set(at, at + 4, mark)?;
        Ok(())
    }

    /// Frees what the FAT says of sectors past the end, and ends chains that go on where it says nothing, or whose word is missing.
    pub(crate) fn mend_fat(&mut self, tables: &Tables<A>) -> Result<(), Error>
        ensures same { IsTrue F.tells → F.bytes self.new.medium ≡ F.bytes self.old.medium }
        ensures mends { IsTrue F.tells
            → AreInTables tables.now.bounds.version (F.bytes self.old.medium)
            tables.now.fat.items self.old.patches.items
            → OnOk result (AreInTables tables.now.bounds.version (F.bytes self.old.medium)
            tables.now.fat.items self.new.patches.items) }
        ensures exact { IsTrue F.tells → (bytes : List ℕ) → F.bytes self.old.medium ≡ bytes
            → tables.now.bounds.len ≡ length bytes
            → OnOk result (self.new.patches.items ≡ self.old.patches.items
            ++ fat_patches tables.now.bounds.version bytes (known_of tables.now.bounds.version
            tables.now.bounds.sectors tables.now.fat.items) tables.now.fat.items
            tables.now.bounds.sectors) }
    {
        let mut left = tables.bounds.sectors;
        for sector in &tables.fat {
            self.mend_fat_sector(tables, *sector, left)?;
            left = left.saturating_sub(words_in(tables.bounds.version) as u64);
        }
        Ok(())
    }

    /// The same of one FAT sector, from whose first word on the file has so many sectors.
    fn mend_fat_sector(&mut self, tables: &Tables<A>, sector: u32, left: u64) -> Result<(), Error>
        requires { Contains tables.now.fat.items sector }
        ensures same { IsTrue F.tells → F.bytes self.new.medium ≡ F.bytes self.old.medium }
        ensures mends { IsTrue F.tells
            → AreInTables tables.now.bounds.version (F.bytes self.old.medium)
            tables.now.fat.items self.old.patches.items
            → OnOk result (AreInTables tables.now.bounds.version (F.bytes self.old.medium)
            tables.now.fat.items self.new.patches.items) }
        ensures exact { IsTrue F.tells → (bytes : List ℕ) → F.bytes self.old.medium ≡ bytes
            → tables.now.bounds.len ≡ length bytes
            → OnOk result (self.new.patches.items ≡ self.old.patches.items
            ++ fat_sector_patches tables.now.bounds.version bytes (known_of
            tables.now.bounds.version tables.now.bounds.sectors tables.now.fat.items) sector
            (min left (words_per_sector tables.now.bounds.version))) }
    {
        let version = tables.bounds.version;
        let loaded = load(&mut self.medium, tables.bounds, sector, WORD_LEN)?;
        let there = left.min(words_in(version) as u64) as usize;
        self.end_chains(version, sector, &loaded, there, tables.known())?;
        self.free_behind(version, sector, there, &loaded)?;
        Ok(())
    }

    /// In the first words of a table's sector, so many of them, ends the chains that go on past the first so many sectors, or whose word is
    /// missing.
    fn end_chains(
        &mut self,
        version: Version,
        sector: u32,
        loaded: &Loaded,
        count: usize,
        known: u64,
    ) -> Result<(), Error>
        requires { count ≤ words_per_sector version }
        ensures same { self.new.medium ≡ self.old.medium }
        ensures mends { (bytes fat : List ℕ) → IsTableSector version bytes fat sector
            → AreInTables version bytes fat self.old.patches.items
            → OnOk result (AreInTables version bytes fat self.new.patches.items) }
        ensures exact { (bytes : List ℕ)
            → Holds 4 version bytes sector loaded.now.bytes loaded.now.len
            → OnOk result (self.new.patches.items ≡ self.old.patches.items
            ++ marked (chain_mark known bytes (sector_start version sector))
            (sector_start version sector) count) }
    {
        for index in 0..count {
            self.mark(version, sector, index, chain_mark(loaded, index, known))?;
        }
        Ok(())
    }

    /// Frees the words of a FAT sector from the first of these on that says something of a sector past the end, or is missing.
    fn free_behind(
        &mut self,
        version: Version,
        sector: u32,
        from: usize,
        loaded: &Loaded,
    ) -> Result<(), Error>
        ensures same { self.new.medium ≡ self.old.medium }
        ensures mends { (bytes fat : List ℕ) → IsTableSector version bytes fat sector
            → AreInTables version bytes fat self.old.patches.items
            → OnOk result (AreInTables version bytes fat self.new.patches.items) }
        ensures exact { (bytes : List ℕ)
            → Holds 4 version bytes sector loaded.now.bytes loaded.now.len
            → OnOk result (self.new.patches.items ≡ self.old.patches.items
            ++ freed bytes (sector_start version sector + 4 * from)
            (words_per_sector version - from)) }
    {
        let words = words_in(version);
        for index in from..words {
            if !is_behind(loaded, index) {
                let at = place_in(version, sector, index);
                self.set(at, place_in(version, sector, words), FREE_SECTOR)?;
                return Ok(());
            }
        }
        Ok(())
    }

    /// The sectors of the chain whose start stands at this place: it ends before the first that is missing, and where the FAT is cut.
    pub(crate) fn mend_chain(
        &mut self,
        tables: &Tables<A>,
        start_at: u64,
    ) -> Result<Vec<u32, A>, Error>
        requires { (start_at ≡ directory_start) ⊎ (start_at ≡ minifat_start) }
        ensures same { IsTrue F.tells → F.bytes self.new.medium ≡ F.bytes self.old.medium }
        ensures chain { IsTrue F.tells → IfOk result (λ chain.
            All (IsOnChain tables.now.bounds.version (F.bytes self.old.medium)
            tables.now.fat.items start_at) chain.items) }
        ensures mends { IsTrue F.tells
            → AreInTables tables.now.bounds.version (F.bytes self.old.medium)
            tables.now.fat.items self.old.patches.items
            → OnOk result (AreInTables tables.now.bounds.version (F.bytes self.old.medium)
            tables.now.fat.items self.new.patches.items) }
        ensures exact { IsTrue F.tells → (bytes : List ℕ) → F.bytes self.old.medium ≡ bytes
            → tables.now.bounds.len ≡ length bytes → IfOk result (λ chain. chain.items
            ≡ chain_from tables.now.bounds.version bytes tables.now.fat.items (known_of
            tables.now.bounds.version tables.now.bounds.sectors tables.now.fat.items)
            tables.now.bounds.sectors (Some start_at)) }
        ensures ends { IsTrue F.tells → (bytes : List ℕ) → F.bytes self.old.medium ≡ bytes
            → tables.now.bounds.len ≡ length bytes
            → OnOk result (self.new.patches.items ≡ self.old.patches.items
            ++ chain_patches tables.now.bounds.version bytes tables.now.fat.items (known_of
            tables.now.bounds.version tables.now.bounds.sectors tables.now.fat.items)
            tables.now.bounds.sectors (Some start_at)) }
    {
        let mut chain = Vec::new(self.heap.clone()?);
        let mut at = start_at;
        for _turn in 0..tables.bounds.sectors {
            if !tables.bounds.has_word(at) {
                return Ok(chain);
            }
            let word = word_at(&mut self.medium, at)?;
            if word > MAX_REGULAR_SECTOR {
                return Ok(chain);
            }
            if tables.is_missing(word) {
                self.set(at, at + 4, END_OF_CHAIN)?;
                return Ok(chain);
            }
            chain.push(word)?;
            let Some(place) = tables.fat_place(word) else {
                return Ok(chain);
            };
            at = place;
        }
        Ok(chain)
    }

    /// Takes away the links of objects that lead to none, and the entry that the end of the file cuts: how many links, and the length in the
    /// first slot.
    pub(crate) fn mend_directory(
        &mut self,
        tables: &Tables<A>,
        directory: &[u32],
    ) -> Result<(usize, u64), Error>
        ensures same { IsTrue F.tells → F.bytes self.new.medium ≡ F.bytes self.old.medium }
        ensures mends { IsTrue F.tells
            → tables.now.bounds.len ≡ length (F.bytes self.old.medium)
            → All (IsOnChain tables.now.bounds.version (F.bytes self.old.medium)
            tables.now.fat.items directory_start) directory.now
            → AreInTables tables.now.bounds.version (F.bytes self.old.medium)
            tables.now.fat.items self.old.patches.items
            → OnOk result (AreInTables tables.now.bounds.version (F.bytes self.old.medium)
            tables.now.fat.items self.new.patches.items) }
        ensures exact { IsTrue F.tells → (bytes : List ℕ) → F.bytes self.old.medium ≡ bytes
            → tables.now.bounds.len ≡ length bytes
            → OnOk result (self.new.patches.items ≡ self.old.patches.items
            ++ (lost_links tables.now.bounds.version bytes directory.now
            ++ cut_patches tables.now.bounds.len (cut_end tables.now.bounds.version
            tables.now.bounds.len directory.now))) }
        ensures lost { IsTrue F.tells → (bytes : List ℕ) → F.bytes self.old.medium ≡ bytes
            → tables.now.bounds.len ≡ length bytes → IfOk result (λ r. r.0
            ≡ length (lost_links tables.now.bounds.version bytes directory.now)) }
        ensures len { IsTrue F.tells → (bytes : List ℕ) → F.bytes self.old.medium ≡ bytes
            → tables.now.bounds.len ≡ length bytes → IfOk result (λ r. r.1
            ≡ mini_stream_len tables.now.bounds.version bytes directory.now) }
    {
        let root_len = self.mini_stream_len(tables, directory)?;
        let kinds = self.kinds(tables, directory)?;
        let before = self.patches.len();
        self.mend_slots(tables, directory, &kinds)?;
        let lost = self.patches.len().saturating_sub(before);
        self.blank_cut(tables.bounds, directory)?;
        Ok((lost, root_len))
    }

    /// The types in the slots of the directory's sectors.
    fn kinds(&mut self, tables: &Tables<A>, directory: &[u32]) -> Result<Vec<u8, A>, Error>
        ensures same { IsTrue F.tells → F.bytes self.new.medium ≡ F.bytes self.old.medium }
        ensures stays { self.new.patches.items ≡ self.old.patches.items }
        ensures kinds { IsTrue F.tells → (bytes : List ℕ) → F.bytes self.old.medium ≡ bytes
            → tables.now.bounds.len ≡ length bytes → IfOk result (λ r. r.items
            ≡ kinds_of tables.now.bounds.version bytes directory.now) }
    {
        let mut kinds = Vec::new(self.heap.clone()?);
        for sector in directory {
            let loaded = load(&mut self.medium, tables.bounds, *sector, SLOT_LEN)?;
            push_kinds(&mut kinds, &loaded, tables.bounds.version)?;
        }
        Ok(kinds)
    }

    /// The length in the first slot of the directory's sectors, 0 where there is none.
    fn mini_stream_len(&mut self, tables: &Tables<A>, directory: &[u32]) -> Result<u64, Error>
        ensures same { IsTrue F.tells → F.bytes self.new.medium ≡ F.bytes self.old.medium }
        ensures stays { self.new.patches.items ≡ self.old.patches.items }
        ensures len { IsTrue F.tells → (bytes : List ℕ) → F.bytes self.old.medium ≡ bytes
            → tables.now.bounds.len ≡ length bytes → IfOk result (λ len. len
            ≡ mini_stream_len tables.now.bounds.version bytes directory.now) }
    {
        if directory.is_empty() {
            return Ok(0);
        }
        let loaded = load(&mut self.medium, tables.bounds, directory[0], SLOT_LEN)?;
        Ok(loaded.first_len(tables.bounds.version))
    }

    /// Takes away the links of objects that lead to none.
    fn mend_slots(
        &mut self,
        tables: &Tables<A>,
        directory: &[u32],
        kinds: &[u8],
    ) -> Result<(), Error>
        ensures same { IsTrue F.tells → F.bytes self.new.medium ≡ F.bytes self.old.medium }
        ensures mends { IsTrue F.tells
            → All (IsTableSector tables.now.bounds.version (F.bytes self.old.medium)
            tables.now.fat.items) directory.now
            → AreInTables tables.now.bounds.version (F.bytes self.old.medium)
            tables.now.fat.items self.old.patches.items
            → OnOk result (AreInTables tables.now.bounds.version (F.bytes self.old.medium)
            tables.now.fat.items self.new.patches.items) }
        ensures exact { IsTrue F.tells → (bytes : List ℕ) → F.bytes self.old.medium ≡ bytes
            → tables.now.bounds.len ≡ length bytes
            → OnOk result (self.new.patches.items ≡ self.old.patches.items
            ++ flat_map (links_in tables.now.bounds.version bytes kinds.now) directory.now) }
    {
        let version = tables.bounds.version;
        for sector in directory {
            let loaded = load(&mut self.medium, tables.bounds, *sector, SLOT_LEN)?;
            self.mend_links(version, *sector, &loaded, kinds)?;
        }
        Ok(())
    }

    /// The same of the slots in one sector.
    fn mend_links(
        &mut self,
        version: Version,
        sector: u32,
        loaded: &Loaded,
        kinds: &[u8],
    ) -> Result<(), Error>
        ensures same { self.new.medium ≡ self.old.medium }
        ensures mends { (bytes fat : List ℕ) → IsTableSector version bytes fat sector
            → AreInTables version bytes fat self.old.patches.items
            → OnOk result (AreInTables version bytes fat self.new.patches.items) }
        ensures exact { (bytes : List ℕ)
            → Holds 128 version bytes sector loaded.now.bytes loaded.now.len
            → OnOk result (self.new.patches.items ≡ self.old.patches.items
            ++ links_in version bytes kinds.now sector) }
    {
        for index in 0..words_in(version) {
            self.mark(version, sector, index, link_mark(loaded, index, kinds))?;
        }
        Ok(())
    }

    /// From the entry on that the end of the file cuts, the directory's last sector is read as zeros: entries that are not there are none.
    fn blank_cut(&mut self, bounds: Bounds, directory: &[u32]) -> Result<(), Error>
        ensures same { self.new.medium ≡ self.old.medium }
        ensures mends { (bytes fat : List ℕ) → bounds.len ≡ length bytes
            → All (IsOnChain bounds.version bytes fat directory_start) directory.now
            → AreInTables bounds.version bytes fat self.old.patches.items
            → OnOk result (AreInTables bounds.version bytes fat self.new.patches.items) }
        ensures exact { OnOk result (self.new.patches.items ≡ self.old.patches.items
            ++ cut_patches bounds.len (cut_end bounds.version bounds.len directory.now)) }
    {
        let end = bounds.cut_end(directory);
        if end == 0 {
            return Ok(());
        }
        self.set(bounds.len - bounds.len % SLOT_LEN as u64, end, 0)?;
        Ok(())
    }

    /// How many words the MiniFAT has, without the free ones at its end, or so many at most. One that is missing is not free.
    pub(crate) fn minifat_len(
        &mut self,
        tables: &Tables<A>,
        minifat: &[u32],
        most: u64,
    ) -> Result<u64, Error>
        ensures same { IsTrue F.tells → F.bytes self.new.medium ≡ F.bytes self.old.medium }
        ensures stays { self.new.patches.items ≡ self.old.patches.items }
        ensures is { IsTrue F.tells → (bytes : List ℕ) → F.bytes self.old.medium ≡ bytes
            → tables.now.bounds.len ≡ length bytes → IfOk result (λ used. used
            ≡ min (used_words tables.now.bounds.version bytes minifat.now (length minifat.now))
            most) }
    {
        let words = words_in(tables.bounds.version);
        let mut count = minifat.len();
        while count > 0 {
            count -= 1;
            let loaded = load(&mut self.medium, tables.bounds, minifat[count], WORD_LEN)?;
            let used = used_in(&loaded, words);
            if used > 0 {
                let before = (count as u64).saturating_mul(words as u64);
                return Ok(before.saturating_add(used as u64).min(most));
            }
        }
        Ok(0)
    }

    /// Ends the chains of mini sectors that go on past the end of the MiniFAT, which has so many words, or whose word is missing.
    pub(crate) fn mend_minifat(
        &mut self,
        tables: &Tables<A>,
        minifat: &[u32],
        len: u64,
    ) -> Result<(), Error>
        ensures same { IsTrue F.tells → F.bytes self.new.medium ≡ F.bytes self.old.medium }
        ensures mends { IsTrue F.tells
            → All (IsTableSector tables.now.bounds.version (F.bytes self.old.medium)
            tables.now.fat.items) minifat.now
            → AreInTables tables.now.bounds.version (F.bytes self.old.medium)
            tables.now.fat.items self.old.patches.items
            → OnOk result (AreInTables tables.now.bounds.version (F.bytes self.old.medium)
            tables.now.fat.items self.new.patches.items) }
        ensures exact { IsTrue F.tells → (bytes : List ℕ) → F.bytes self.old.medium ≡ bytes
            → tables.now.bounds.len ≡ length bytes
            → OnOk result (self.new.patches.items ≡ self.old.patches.items
            ++ mini_patches tables.now.bounds.version bytes minifat.now len) }
    {
        let version = tables.bounds.version;
        for sector in minifat {
            let loaded = load(&mut self.medium, tables.bounds, *sector, WORD_LEN)?;
            self.end_chains(version, *sector, &loaded, words_in(version), len)?;
        }
        Ok(())
    }

    /// Up to where the file is read at least: to the end of its last sector if that is one of a table and cut short.
    pub(crate) fn least(
        &mut self,
        tables: &Tables<A>,
        directory: &[u32],
        minifat: &[u32],
    ) -> Result<u64, Error>
        ensures same { IsTrue F.tells → F.bytes self.new.medium ≡ F.bytes self.old.medium }
        ensures stays { self.new.patches.items ≡ self.old.patches.items }
        ensures is { IsTrue F.tells → (bytes : List ℕ) → F.bytes self.old.medium ≡ bytes
            → tables.now.bounds.len ≡ length bytes → IfOk result (λ least. least
            ≡ max (max (max (cut_end tables.now.bounds.version tables.now.bounds.len
            tables.now.fat.items) (cut_end tables.now.bounds.version tables.now.bounds.len
            directory.now)) (cut_end tables.now.bounds.version tables.now.bounds.len minifat.now))
            (cut_end tables.now.bounds.version tables.now.bounds.len
            (difat_from tables.now.bounds.version bytes tables.now.bounds.sectors
            first_difat_link))) }
    {
        let bounds = tables.bounds;
        let fat_end = bounds.cut_end(&tables.fat);
        let directory_end = bounds.cut_end(directory);
        let minifat_end = bounds.cut_end(minifat);
        let difat_end = self.difat_cut_end(bounds)?;
        Ok(fat_end.max(directory_end).max(minifat_end).max(difat_end))
    }
}

/// Whether the file has this word of a sector, and it is free.
fn is_free(loaded: &Loaded, index: usize) -> bool
    requires { index < 1024 }
    ensures { result ≡ (nat_lt index (loaded.now.len / 4)
        && (word_at loaded.now.bytes (4 * index) == free_sector)) }
{
    loaded.has(index) && loaded.word(index) == FREE_SECTOR
}

/// Whether the file has this word of a sector, and it may stand in the FAT behind its last sector.
fn is_behind(loaded: &Loaded, index: usize) -> bool
    requires { index < 1024 }
    ensures { result ≡ (nat_lt index (loaded.now.len / 4)
        && is_fat_padding (word_at loaded.now.bytes (4 * index))) }
{
    loaded.has(index) && is_padding(loaded.word(index))
}

/// Whether the file has this word of a sector, and it leads to none that is not one of the first so many.
fn goes_on(loaded: &Loaded, index: usize, known: u64) -> bool
    requires { index < 1024 }
    ensures { result ≡ (nat_lt index (loaded.now.len / 4)
        && points_below known (word_at loaded.now.bytes (4 * index))) }
{
    let word = loaded.word(index);
    loaded.has(index) && (word > MAX_REGULAR_SECTOR || u64::from(word) < known)
}

/// What a word of a table is read as: a chain ends that goes on past the first so many sectors, or whose word is missing.
fn chain_mark(loaded: &Loaded, index: usize, known: u64) -> Option<u32>
    requires { index < 1024 }
    ensures mark { IfSome result IsMark }
    ensures is { result ≡ end_unless (nat_lt index (loaded.now.len / 4)
        && points_below known (word_at loaded.now.bytes (4 * index))) }
{
    if goes_on(loaded, index, known) {
        None
    } else {
        Some(END_OF_CHAIN)
    }
}

/// How many of the first words of a sector, of so many of them, are those up to the last that is not free. One that is missing is not free.
fn used_in(loaded: &Loaded, count: usize) -> usize
    requires { count ≤ 1024 }
    ensures { (version : Version) (bytes : List ℕ) (s : ℕ) → count ≤ words_per_sector version
        → Holds 4 version bytes s loaded.now.bytes loaded.now.len
        → result ≡ used_in bytes (sector_start version s) count }
{
    let mut used = count;
    while used > 0 {
        if !is_free(loaded, used - 1) {
            return used;
        }
        used -= 1;
    }
    0
}

/// Adds the types in the slots of a sector.
fn push_kinds<A: Heap>(
    kinds: &mut Vec<u8, A>,
    loaded: &Loaded,
    version: Version,
) -> Result<(), Error>
    ensures { (bytes : List ℕ) (s : ℕ) → Holds 128 version bytes s loaded.now.bytes loaded.now.len
        → OnOk result (kinds.new.items ≡ kinds.old.items
        ++ kinds_from bytes (sector_start version s) (entries_per_sector version)) }
{
    for slot in 0..version.dir_entries_per_sector() {
        kinds.push(loaded.kind(slot))?;
    }
    Ok(())
}

/// What a word of the directory is read as: a link of an object that leads to none is no link.
fn link_mark(loaded: &Loaded, index: usize, kinds: &[u8]) -> Option<u32>
    requires { index < 1024 }
    ensures mark { IfSome result IsMark }
    ensures is { result ≡ none_if (is_link_word index && (not ((if nat_lt (index / 32)
        (loaded.now.len / 128) then byte_at loaded.now.bytes (128 * (index / 32) + 66) else 0) == 0)
        && leads_to_none kinds.now (word_at loaded.now.bytes (4 * index)))) }
{
    let link = loaded.word(index);
    let is_link = 17 <= index % SLOT_WORDS && index % SLOT_WORDS <= 19;
    if is_link && loaded.kind(index / SLOT_WORDS) != 0 && leads_to_none(kinds, link) {
        Some(NO_STREAM)
    } else {
        None
    }
}

/// Whether a link names a slot that has no storage and no stream.
fn leads_to_none(kinds: &[u8], link: u32) -> bool
    ensures { result ≡ leads_to_none kinds.now link }
{
    link != NO_STREAM && !has_object(kinds, link)
}

/// Whether the slot of this number has a storage or a stream.
fn has_object(kinds: &[u8], slot: u32) -> bool
    ensures { result ≡ has_object kinds.now slot }
{
    let slot = slot as usize;
    slot < kinds.len() && (kinds[slot] == OBJ_TYPE_STORAGE || kinds[slot] == OBJ_TYPE_STREAM)
}

/// Whether the word may stand in the FAT behind its last sector (MS-CFB 2.3).
fn is_padding(word: u32) -> bool
    ensures { result ≡ is_fat_padding word }
{
    matches!(word, 0 | FREE_SECTOR | FAT_SECTOR | DIFAT_SECTOR)
}
