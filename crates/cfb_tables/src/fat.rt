//! The FAT in memory, out of the words of the FAT sectors (MS-CFB 2.3).
ghost use Rattle.std.specs.Prelude.{◌≡◌, ℕ, List, true, not, ◌==◌, ◌<◌, length, map, take, drop, if◌then◌else◌, slice_index, IfOk, IfErr, IfSome, IfNone, OnOk};
ghost use Rattle.std.specs.List.{list_all, range_with_len};
ghost use Rattle.cfb_format.specs.Bytes.{free_sector, invalid_sector, points_below};
ghost use Rattle.cfb_format.specs.Chain.{value};
ghost use Rattle.cfb_format.specs.Fat.{fat_value, is_among, ended_past_file, HasDistinctPointers};
ghost use Rattle.cfb_format.specs.Header.{IfStrict};
ghost use Rattle.cfb_format.specs.Refused.{IsInvalidData};
ghost use Rattle.cfb_tables.specs.Changes.{PointsWithin};
ghost use Rattle.cfb_tables.specs.ReadFat.{AcceptsFat, AcceptsNoFat, HasStrictWords, HasValidValues, fat_of_words, is_padding_in, ReadIsTheFilesFat, FilesFatIsRead};
ghost use Rattle.cfb_tables.specs.Refused.{TableRefused};

use cfb_format::consts::{
    DIFAT_SECTOR, END_OF_CHAIN, FAT_SECTOR, FREE_SECTOR, INVALID_SECTOR, MAX_REGULAR_SECTOR,
};
use cfb_format::error::{Detail, Error};
use cfb_format::validate::Validation;
use std::alloc::Allocator;

/// The FAT of so many sectors, a value for each, out of the words of the FAT sectors in order (MS-CFB 2.3). The listed FAT
/// sectors and DIFAT sectors count as such whatever their words say, a sector in both lists as a FAT sector; sectors that the
/// words don't cover are free; a pointer past the last sector ends its chain.
///
/// `InvalidData` where a sector is pointed to twice, where a word is the mark that no sector may have, and where a word past
/// the last sector is none of 0, FREE and the marks of both tables. Strict opening refuses there all but FREE, a pointer past
/// the last sector, and a listed sector whose word isn't its mark. `Memory`.
pub fn read_fat<A: Allocator>(
    alloc: A,
    num_sectors: u32,
    words: Vec<u32, A>,
    fat_sectors: &[u32],
    difat_sectors: &[u32],
    validation: Validation,
) -> Result<Vec<u32, A>, Error>
    ensures ok { IfOk result (λ fat.
        AcceptsFat validation num_sectors words.items fat_sectors.now difat_sectors.now fat.items) }
    ensures err { IfErr result (TableRefused (AcceptsNoFat
        validation num_sectors words.items fat_sectors.now difat_sectors.now) Unit ⊥) }
{
    let len = num_sectors as usize;
    if !are_padding(past(&words, len), validation) {
        return Err(used_past_end(past(&words, len), len, num_sectors, validation));
    }
    check_in_mode(
        covered(&words, len),
        len,
        fat_sectors,
        difat_sectors,
        validation,
    )?;
    let fat = values_of(words, len, fat_sectors, difat_sectors)?;
    check_values(alloc, &fat)?;
    Ok(fat)
}

/// The words of a file's FAT sectors make up the file's FAT.
pub fn read_fat_is_the_files_fat()
    ensures sound { ReadIsTheFilesFat }
    ensures complete { FilesFatIsRead }
{}

fn invalid(text: &'static str, sector: u32) -> Error
    ensures { IsInvalidData result }
{
    Error::InvalidData(Detail::number(text, u64::from(sector)))
}

/// The number of the sector whose word stands at an index.
fn sector_at(index: usize) -> u32 {
    u32::try_from(index).unwrap_or(u32::MAX)
}

/// A refusal of words past the last of so many sectors, the first of which is that of the sector
/// `first`: it tells the sector of the first that is no padding.
pub fn used_past_end(words: &[u32], first: usize, num_sectors: u32, validation: Validation) -> Error
    ensures { IsInvalidData result }
{
    let used = words.iter().position(|word| !is_padding(*word, validation));
    let sector = first.saturating_add(used.unwrap_or(0));
    Error::InvalidData(Detail::numbers(
        "FAT: sector {} is in use, and the file has {} sectors (cut short?)",
        sector as u64,
        u64::from(num_sectors),
    ))
}

/// A refusal of a table in which the number at `second` goes on in the same one as a number before
/// it. The text has the places `{two}` and `{}`.
pub fn shared(text: &'static str, table: &[u32], second: usize) -> Error
    ensures { IsInvalidData result }
{
    let next = table.get(second).copied().unwrap_or(END_OF_CHAIN);
    let first = table
        .iter()
        .position(|word| *word == next)
        .unwrap_or(second);
    Error::InvalidData(Detail::sectors(text, sector_at(first), sector_at(second), next))
}

/// The words of so many sectors, as far as there are any.
fn covered(words: &[u32], num_sectors: usize) -> &[u32]
    ensures { result.now ≡ take num_sectors words.now }
{
    &words[..num_sectors.min(words.len())]
}

/// The words past the last of so many sectors.
fn past(words: &[u32], num_sectors: usize) -> &[u32]
    ensures { result.now ≡ drop num_sectors words.now }
{
    &words[num_sectors.min(words.len())..]
}

/// Whether a word may stand past the last sector.
fn is_padding(word: u32, validation: Validation) -> bool
    ensures { result ≡ is_padding_in validation word }
{
    match validation {
        Validation::Permissive => {
            word == 0 || word == FREE_SECTOR || word == FAT_SECTOR || word == DIFAT_SECTOR
        }
        Validation::Strict => word == FREE_SECTOR,
    }
}

/// Whether each of these words may stand past the last sector.
pub fn are_padding(words: &[u32], validation: Validation) -> bool
    ensures { result ≡ list_all (is_padding_in validation) words.now }
{
    words.iter().all(|word| is_padding(*word, validation))
}

/// The word of a sector, FREE where the words don't cover it.
fn word_in(words: &[u32], sector: u32) -> u32
    ensures { result ≡ value words.now sector }
{
    words.get(sector as usize).copied().unwrap_or(FREE_SECTOR)
}

/// Whether the word of each listed sector is this mark.
fn are_marked(words: &[u32], listed: &[u32], mark: u32) -> bool
    ensures { result ≡ list_all (λ i. value words.now i == mark) listed.now }
{
    listed.iter().all(|sector| word_in(words, *sector) == mark)
}

/// A refusal of the first of these sectors whose word isn't this mark.
fn unmarked(text: &'static str, words: &[u32], listed: &[u32], mark: u32) -> Error
    ensures { IsInvalidData result }
{
    let other = listed
        .iter()
        .find(|sector| word_in(words, **sector) != mark);
    invalid(text, other.copied().unwrap_or(0))
}

/// Whether no word points past the last of so many sectors.
fn point_below(words: &[u32], num_sectors: usize) -> bool
    ensures { result ≡ list_all (points_below num_sectors) words.now }
{
    words.iter().all(|word| *word > MAX_REGULAR_SECTOR || (*word as usize) < num_sectors)
}

/// A refusal of the first word that points past the last of so many sectors.
fn points_past(words: &[u32], num_sectors: usize) -> Error
    ensures { IsInvalidData result }
{
    let sector = words
        .iter()
        .position(|word| *word <= MAX_REGULAR_SECTOR && *word as usize >= num_sectors)
        .unwrap_or(0);
    let next = words.get(sector).copied().unwrap_or(END_OF_CHAIN);
    Error::InvalidData(Detail::numbers(
        "strict: FAT: sector {} goes on in sector {}, which is not in the file",
        sector as u64,
        u64::from(next),
    ))
}

/// Strict opening wants the sectors of both tables marked in the FAT, and no pointer past the last sector.
fn check_strictly(
    words: &[u32],
    num_sectors: usize,
    fat_sectors: &[u32],
    difat_sectors: &[u32],
) -> Result<(), Error>
    ensures ok { OnOk result
        (HasStrictWords num_sectors words.now fat_sectors.now difat_sectors.now) }
    ensures err { IfErr result (TableRefused
        (HasStrictWords num_sectors words.now fat_sectors.now difat_sectors.now → ⊥) ⊥ ⊥) }
{
    if !are_marked(words, fat_sectors, FAT_SECTOR) {
        let text = "strict: FAT: sector {} is not marked as one of the FAT";
        return Err(unmarked(text, words, fat_sectors, FAT_SECTOR));
    }
    if !are_marked(words, difat_sectors, DIFAT_SECTOR) {
        let text = "strict: FAT: sector {} is not marked as one of the DIFAT";
        return Err(unmarked(text, words, difat_sectors, DIFAT_SECTOR));
    }
    if !point_below(words, num_sectors) {
        return Err(points_past(words, num_sectors));
    }
    Ok(())
}

fn check_in_mode(
    words: &[u32],
    num_sectors: usize,
    fat_sectors: &[u32],
    difat_sectors: &[u32],
    validation: Validation,
) -> Result<(), Error>
    ensures ok { OnOk result (IfStrict validation
        (HasStrictWords num_sectors words.now fat_sectors.now difat_sectors.now)) }
    ensures err { IfErr result (TableRefused (IfStrict validation
        (HasStrictWords num_sectors words.now fat_sectors.now difat_sectors.now) → ⊥) ⊥ ⊥) }
{
    match validation {
        Validation::Permissive => Ok(()),
        Validation::Strict => check_strictly(words, num_sectors, fat_sectors, difat_sectors),
    }
}

/// A pointer past the last of so many sectors ends the chain there.
fn within_file(num_sectors: usize, word: u32) -> u32
    ensures { result ≡ ended_past_file num_sectors word }
{
    if word <= MAX_REGULAR_SECTOR && word as usize >= num_sectors {
        END_OF_CHAIN
    } else {
        word
    }
}

fn end_past_file(fat: &mut [u32])
    ensures { fat.new ≡ map (ended_past_file (length fat.old)) fat.old }
{
    let num_sectors = fat.len();
    for word in fat.iter_mut() {
        *word = within_file(num_sectors, *word);
    }
}

/// Gives each listed sector this value. A number past the last sector is no sector's.
fn mark(fat: &mut [u32], listed: &[u32], mark: u32)
    ensures len { length fat.new ≡ length fat.old }
    ensures values { (i : ℕ) → i < length fat.old
        → slice_index fat.new i ≡ (if is_among listed.now i then mark else slice_index fat.old i) }
{
    for sector in listed {
        if (*sector as usize) < fat.len() {
            fat[*sector as usize] = mark;
        }
    }
}

/// Makes of each sector's word its value.
fn set_values(fat: &mut [u32], fat_sectors: &[u32], difat_sectors: &[u32])
    ensures { fat.new ≡ map (fat_value (length fat.old) fat_sectors.now difat_sectors.now fat.old)
        (range_with_len 0 (length fat.old)) }
{
    end_past_file(fat);
    mark(fat, difat_sectors, DIFAT_SECTOR);
    mark(fat, fat_sectors, FAT_SECTOR);
}

/// The value of each of so many sectors. `Memory`.
fn values_of<A: Allocator>(
    words: Vec<u32, A>,
    num_sectors: usize,
    fat_sectors: &[u32],
    difat_sectors: &[u32],
) -> Result<Vec<u32, A>, Error>
    ensures ok { IfOk result (λ fat. fat.items
        ≡ fat_of_words num_sectors words.items fat_sectors.now difat_sectors.now) }
    ensures err { IfErr result (TableRefused ⊥ Unit ⊥) }
{
    let mut fat = words;
    fat.resize(num_sectors, FREE_SECTOR)?;
    set_values(&mut fat, fat_sectors, difat_sectors);
    Ok(fat)
}

fn has_no_invalid_mark(fat: &[u32]) -> bool
    ensures { result ≡ list_all (λ value. not (value == invalid_sector)) fat.now }
{
    fat.iter().all(|value| *value != INVALID_SECTOR)
}

/// The first sector that points to a number to which another one points before it, if there is
/// one. `Memory`.
pub fn names_twice<A: Allocator>(alloc: A, fat: &[u32]) -> Result<Option<usize>, Error>
    requires within { PointsWithin fat.now }
    ensures once { IfOk result (λ second. IfNone second (HasDistinctPointers fat.now)) }
    ensures twice { IfOk result (λ second. IfSome second (λ _. HasDistinctPointers fat.now → ⊥)) }
    ensures err { IfErr result (TableRefused ⊥ Unit ⊥) }
{
    let mut named = Vec::from_elem(alloc, false, fat.len())?;
    for (second, sector) in fat.iter().enumerate() {
        if *sector <= MAX_REGULAR_SECTOR {
            if named[*sector as usize] {
                return Ok(Some(second));
            }
            named[*sector as usize] = true;
        }
    }
    Ok(None)
}

/// No value may be the mark that is refused, and no sector pointed to twice. `InvalidData` and `Memory`.
fn check_values<A: Allocator>(alloc: A, fat: &[u32]) -> Result<(), Error>
    requires within { PointsWithin fat.now }
    ensures ok { OnOk result (HasValidValues fat.now) }
    ensures err { IfErr result (TableRefused (HasValidValues fat.now → ⊥) Unit ⊥) }
{
    if !has_no_invalid_mark(fat) {
        let sector = fat.iter().position(|value| *value == INVALID_SECTOR);
        let text = "FAT: sector {} has the invalid mark";
        return Err(invalid(text, sector_at(sector.unwrap_or(0))));
    }
    match names_twice(alloc, fat)? {
        Some(second) => {
            let text = "FAT: sectors {two} both go on in sector {}";
            Err(shared(text, fat, second))
        }
        None => Ok(()),
    }
}
