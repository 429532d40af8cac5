//! How much of a file there is, and where the words of its sectors stand.
ghost use Rattle.std.specs.Prelude.{◌≡◌, ◌+◌, ◌-◌, ◌*◌, ◌/◌, ◌%◌, ◌^◌, ◌<◌, ◌≤◌, ℕ, List, length, min, nat_le, nat_lt};
ghost use Rattle.cfb_format.specs.Bytes.{sector_count, sector_len, sector_start, words_per_sector};
ghost use Rattle.cfb_mending.specs.Missing.{cut_end, is_cut};

use cfb_format::version::Version;

/// How much of a file there is.
#[derive(Clone, Copy)]
pub(crate) struct Bounds {
    pub(crate) version: Version,
    /// How many bytes.
    pub(crate) len: u64,
    /// How many sectors, a last one that is cut short among them.
    pub(crate) sectors: u64,
}

impl Bounds {
    /// Those of a file of this length.
    pub(crate) fn of(version: Version, len: u64) -> Bounds
        ensures version { result.version ≡ version }
        ensures len { result.len ≡ len }
        ensures sectors { (bytes : List ℕ) → len ≡ length bytes
            → result.sectors ≡ sector_count version bytes }
    {
        let all = match version {
            Version::V3 => len.div_ceil(512),
            Version::V4 => len.div_ceil(4096),
        };
        Bounds {
            version,
            len,
            sectors: all.saturating_sub(1),
        }
    }

    /// Whether the file has this sector, or its first bytes.
    pub(crate) fn has(self, sector: u32) -> bool
        ensures { result ≡ nat_lt sector self.sectors }
    {
        u64::from(sector) < self.sectors
    }

    /// Whether the file has all of the word at this place.
    pub(crate) fn has_word(self, at: u64) -> bool
        ensures { result ≡ nat_le (at + 4) self.len }
    {
        at < self.len && 4 <= self.len - at
    }

    /// How many bytes the file has of a sector.
    pub(crate) fn bytes_of(self, sector: u32) -> usize
        ensures is { result ≡ min (self.len - sector_start self.version sector)
            (sector_len self.version) }
        ensures bound { result ≤ 4096 }
    {
        let behind = self.len.saturating_sub(place_in(self.version, sector, 0));
        behind.min(4 * words_in(self.version) as u64) as usize
    }

    /// Whether the end of the file cuts this sector.
    pub(crate) fn is_cut(self, sector: u32) -> bool
        ensures { result ≡ is_cut self.version self.len sector }
    {
        let end = place_in(self.version, sector, words_in(self.version));
        place_in(self.version, sector, 0) < self.len && self.len < end
    }

    /// Where that of these sectors ends that the end of the file cuts, 0 where it cuts none.
    pub(crate) fn cut_end(self, sectors: &[u32]) -> u64
        ensures { result ≡ cut_end self.version self.len sectors.now }
    {
        for sector in sectors {
            if self.is_cut(*sector) {
                return place_in(self.version, *sector, words_in(self.version));
            }
        }
        0
    }
}

/// Where a word of a sector stands.
pub(crate) fn place_in(version: Version, sector: u32, index: usize) -> u64
    requires { index ≤ 1024 }
    ensures is { result ≡ sector_start version sector + 4 * index }
    ensures bound { result < 2 ^ 46 }
{
    let number = u64::from(sector);
    let behind = 4 * index as u64;
    match version {
        Version::V3 => (number + 1) * 512 + behind,
        Version::V4 => (number + 1) * 4096 + behind,
    }
}

/// How many words a sector holds.
pub(crate) fn words_in(version: Version) -> usize
    ensures is { result ≡ words_per_sector version }
    ensures some { 1 < result }
    ensures bound { result ≤ 1024 }
{
    match version {
        Version::V3 => 128,
        Version::V4 => 1024,
    }
}

/// Which sector of a table has its word of this number.
pub(crate) fn holder_of(version: Version, number: u32) -> usize
    ensures { result ≡ number / words_per_sector version }
{
    match version {
        Version::V3 => number as usize / 128,
        Version::V4 => number as usize / 1024,
    }
}

/// Which word of that sector it is.
pub(crate) fn index_of(version: Version, number: u32) -> usize
    ensures is { result ≡ number % words_per_sector version }
    ensures bound { result ≤ 1024 }
{
    match version {
        Version::V3 => number as usize % 128,
        Version::V4 => number as usize % 1024,
    }
}
