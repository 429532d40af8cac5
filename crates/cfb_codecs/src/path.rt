//! Names of storages and streams, and paths to them (MS-CFB 2.6.1 and 2.6.4).
ghost use Rattle.std.specs.Prelude.{◌≡◌, ◌≤◌, ◌+◌, ◌*◌, ◌<◌, ◌||◌, ℕ, not, true, false, map, length, [], ◌∷◌, List, Some, None, IfOk, IfErr, OnOk, IfSome, IfNone, is_some, string_bytes};
ghost use Rattle.std.specs.Cmp.Lexicographic.{slice_cmp};
ghost use Rattle.std.specs.Ordering.{nat_cmp, ordering_then};
ghost use Rattle.std.specs.Char.{IsScalar, to_ascii_uppercase};
ghost use Rattle.std.specs.Str.{chars};
ghost use Rattle.std.specs.List.{list_any};
ghost use Rattle.std.specs.Option.{unwrap_or};
ghost use Rattle.std.specs.BTreeMap.{get};
ghost use Rattle.cfb_format.specs.Names.{Cases, default_cases, paired, upper_case, has_ascii_letter, utf16_units, key_of_name, name_cmp, is_forbidden_character, is_valid_name};
ghost use Rattle.cfb_format.specs.Path.{part_says_nothing, part_says_parent, names_with, names_of_path, names_along, names_left, path_of_names, Leaves, Gives};
ghost use Rattle.cfb_format.specs.Refused.{IsMemory, RefusesInput};
ghost use Rattle.cfb_codecs.specs.Parents.{has_parents};
ghost use Rattle.cfb_codecs.specs.SimpleUpper.{simple_upper};

use crate::unicode::unicode_pairs;
use cfb_format::error::{Detail, Error};
use std::alloc::{AllocError, Allocator, Global};
use std::cmp::Ordering;
use std::collections::BTreeMap;
use std::fmt;
use std::marker::Model;

/// The greatest number of UTF-16 units in a name.
const MAX_NAME_LEN: usize = 31;

/// The letters past ASCII that have an upper case by default.
const DEFAULT_PAIRS: [(char, char); 32] = [
    ('\u{e0}', '\u{c0}'),
    ('\u{e1}', '\u{c1}'),
    ('\u{e2}', '\u{c2}'),
    ('\u{e3}', '\u{c3}'),
    ('\u{e4}', '\u{c4}'),
    ('\u{e5}', '\u{c5}'),
    ('\u{e6}', '\u{c6}'),
    ('\u{e7}', '\u{c7}'),
    ('\u{e8}', '\u{c8}'),
    ('\u{e9}', '\u{c9}'),
    ('\u{ea}', '\u{ca}'),
    ('\u{eb}', '\u{cb}'),
    ('\u{ec}', '\u{cc}'),
    ('\u{ed}', '\u{cd}'),
    ('\u{ee}', '\u{ce}'),
    ('\u{ef}', '\u{cf}'),
    ('\u{f0}', '\u{d0}'),
    ('\u{f1}', '\u{d1}'),
    ('\u{f2}', '\u{d2}'),
    ('\u{f3}', '\u{d3}'),
    ('\u{f4}', '\u{d4}'),
    ('\u{f5}', '\u{d5}'),
    ('\u{f6}', '\u{d6}'),
    ('\u{f8}', '\u{d8}'),
    ('\u{f9}', '\u{d9}'),
    ('\u{fa}', '\u{da}'),
    ('\u{fb}', '\u{db}'),
    ('\u{fc}', '\u{dc}'),
    ('\u{fd}', '\u{dd}'),
    ('\u{fe}', '\u{de}'),
    ('\u{ff}', '\u{178}'),
    ('\u{b5}', '\u{39c}'),
];

/// A case mapping: which character is the upper case of which, where names are compared (MS-CFB 2.6.4). `a` to `z` always map to `A` to
/// `Z`, the letters of the table to what it says, and any other character to itself. It also carries the seed of the hash table of names,
/// which changes no result.
#[derive(Drop)]
pub struct CaseMapper<A: Allocator = Global> {
    pairs: Vec<(char, char), A>,
    /// The upper case that the last pair of each letter says.
    uppers: BTreeMap<char, char, A>,
    seed: u64,
}

impl<A: Allocator> Model for CaseMapper<A> {
    ghost use Rattle.std.specs.Prelude.{◌≡◌, ℕ};
    ghost use Rattle.std.specs.Option.{unwrap_or};
    ghost use Rattle.std.specs.BTreeMap.{get};
    ghost use Rattle.std.specs.Ordering.{nat_cmp};
    ghost use Rattle.cfb_format.specs.Names.{Cases, paired};

    ghost Value = { Cases };

    ghost view = { λ mapper. mapper.pairs.items };

    ghost invariant = { λ mapper. (c : ℕ) → unwrap_or (get nat_cmp mapper.uppers c) c ≡ paired mapper.pairs.items c };
}

impl<A: Allocator> fmt::Debug for CaseMapper<A> {
    fn fmt<W: fmt::Write>(&self, f: &mut fmt::Formatter<W>) -> fmt::Result {
        f.debug_struct("CaseMapper")
            .field("pairs", &self.pairs)
            .finish()
    }
}

impl<A: Allocator + Clone> Clone for CaseMapper<A> {
    ghost is_clone = { λ cases copy. copy ≡ cases };

    /// The same table. It answers `AllocError` where memory for it is refused.
    fn clone(&self) -> Result<CaseMapper<A>, AllocError> {
        let copy = indexed(self.pairs.allocator().clone()?, &self.pairs)?;
        Ok(copy.with_seed(self.seed))
    }
}

/// A table of these letters, whatever they are.
fn indexed<A: Allocator + Clone>(
    alloc: A,
    letters: &[(char, char)],
) -> Result<CaseMapper<A>, AllocError>
    ensures { IfOk result (λ cases. cases ≡ letters.now) }
{
    let mut pairs = Vec::new(alloc.clone()?);
    pairs.extend_from_slice(letters)?;
    let uppers = uppers_of(alloc, letters)?;
    Ok(CaseMapper {
        pairs,
        uppers,
        seed: 0,
    })
}

/// The upper case of each letter that has one.
fn uppers_of<A: Allocator + Clone>(
    alloc: A,
    letters: &[(char, char)],
) -> Result<BTreeMap<char, char, A>, AllocError>
    ensures { IfOk result (λ uppers. (c : ℕ) → unwrap_or (get nat_cmp uppers c) c ≡ paired letters.now c) }
{
    let mut uppers = BTreeMap::new(alloc);
    for i in 0..letters.len() {
        let (letter, upper) = letters[i];
        uppers.insert(letter, upper)?;
    }
    Ok(uppers)
}

impl<A: Allocator> CaseMapper<A> {
    /// The same mapping with this seed of the hash table of names. With a random seed nobody can choose names that make it slow.
    pub fn with_seed(self, seed: u64) -> CaseMapper<A>
        ensures { result ≡ self }
    {
        let CaseMapper {
            pairs,
            uppers,
            seed: _,
        } = self;
        CaseMapper {
            pairs,
            uppers,
            seed,
        }
    }

    /// The seed of the hash table of names.
    pub fn seed(&self) -> u64 {
        self.seed
    }
}

impl<A: Allocator + Clone> CaseMapper<A> {
    /// The default mapping: Latin-1 and two more letters.
    ///
    /// # Errors
    ///
    /// Only `Memory`.
    pub fn new(alloc: A) -> Result<CaseMapper<A>, Error>
        ensures ok { IfOk result (λ cases. cases ≡ default_cases) }
        ensures refused { IfErr result IsMemory }
    {
        Ok(indexed(alloc, &DEFAULT_PAIRS)?)
    }

    /// A mapping of all letters among Unicode's first 65,536 characters whose upper case is one character, such as those of Greek and
    /// Cyrillic.
    ///
    /// # Errors
    ///
    /// Only `Memory`.
    pub fn unicode(alloc: A) -> Result<CaseMapper<A>, Error>
        ensures letters { IfOk result (λ cases. (c : ℕ) → IsScalar c → 0x80 ≤ c → c < 0x10000
            → upper_case cases c ≡ simple_upper c) }
        ensures others { IfOk result (λ cases. (c : ℕ) → 0x10000 ≤ c → upper_case cases c ≡ c) }
        ensures refused { IfErr result IsMemory }
    {
        let pairs = unicode_pairs(alloc.clone()?)?;
        Ok(indexed(alloc, &pairs)?)
    }

    /// A mapping of these letters, each with its upper case. The last pair for a letter counts.
    ///
    /// # Errors
    ///
    /// `InvalidInput` exactly if the first letter of a pair is ASCII; otherwise only `Memory`.
    pub fn from_pairs(alloc: A, letters: &[(char, char)]) -> Result<CaseMapper<A>, Error>
        ensures table { IfOk result (λ cases. cases ≡ letters.now) }
        ensures past_ascii { OnOk result (has_ascii_letter letters.now ≡ false) }
        ensures refused { IfErr result (RefusesInput (has_ascii_letter letters.now)) }
    {
        if letters.iter().any(|letter| letter.0.is_ascii()) {
            return Err(Error::InvalidInput(Detail::text(
                "an ASCII letter has its upper case always",
            )));
        }
        Ok(indexed(alloc, letters)?)
    }
}

impl<A: Allocator> CaseMapper<A> {
    /// The upper case of a character past ASCII.
    fn paired(&self, letter: char) -> char
        ensures { result ≡ paired self.now letter }
    {
        match self.uppers.get(&letter) {
            Some(upper) => *upper,
            None => letter,
        }
    }

    /// The upper case of a character.
    pub fn upper_case(&self, letter: char) -> char
        ensures { result ≡ upper_case self.now letter }
    {
        if letter.is_ascii() {
            letter.to_ascii_uppercase()
        } else {
            self.paired(letter)
        }
    }
}

/// What names are told apart by: two names are the same exactly where their keys are equal.
#[derive(Debug, PartialEq, Eq, Hash, Drop)]
pub struct NameKey<A: Allocator = Global> {
    /// The number of UTF-16 units.
    pub units: usize,
    /// The characters in upper case.
    pub letters: Vec<char, A>,
}

/// The key of a name.
///
/// It answers `Memory` where memory for the key is refused, and no other error.
pub fn name_key<A: Allocator>(
    alloc: A,
    cases: &CaseMapper<A>,
    name: &str,
) -> Result<NameKey<A>, Error>
    ensures units { IfOk result (λ key. key.units ≡ (key_of_name cases.now (chars name.now)).0) }
    ensures letters { IfOk result (λ key. key.letters.items
        ≡ (key_of_name cases.now (chars name.now)).1) }
    ensures refused { IfErr result IsMemory }
{
    let units = unit_count(name);
    // One request for all of them: `collect` takes a refusal for a wrong guess and asks again.
    let mut letters = Vec::with_capacity(alloc, units)?;
    letters.extend(name.chars().map(|letter| cases.upper_case(letter)))?;
    Ok(NameKey { units, letters })
}

/// The order of two names: fewer UTF-16 units first, then by the characters in upper case
/// (MS-CFB 2.6.4).
pub fn compare_names<A: Allocator>(cases: &CaseMapper<A>, a: &str, b: &str) -> Ordering
    ensures { result ≡ name_cmp cases.now (chars a.now) (chars b.now) }
{
    if a.is_ascii() && b.is_ascii() {
        return compare_ascii(a.as_bytes(), b.as_bytes());
    }
    unit_count(a)
        .cmp(&unit_count(b))
        .then_with(|| compare_letters(cases, a, b))
}

/// The order of two names of ASCII characters: each is one unit, and its upper case is that of ASCII.
fn compare_ascii(a: &[u8], b: &[u8]) -> Ordering
    ensures { result ≡ ordering_then (nat_cmp (length a.now) (length b.now))
        (slice_cmp nat_cmp (map to_ascii_uppercase a.now) (map to_ascii_uppercase b.now)) }
{
    if a.len() != b.len() {
        return a.len().cmp(&b.len());
    }
    compare_upper(a, b)
}

/// The order of as many bytes as ASCII letters in upper case.
fn compare_upper(a: &[u8], b: &[u8]) -> Ordering
    requires { length a.now ≡ length b.now }
    ensures { result
        ≡ slice_cmp nat_cmp (map to_ascii_uppercase a.now) (map to_ascii_uppercase b.now) }
{
    for i in 0..a.len() {
        let (x, y) = (a[i].to_ascii_uppercase(), b[i].to_ascii_uppercase());
        if x != y {
            return x.cmp(&y);
        }
    }
    Ordering::Equal
}

/// The order of the characters in upper case.
fn compare_letters<A: Allocator>(cases: &CaseMapper<A>, a: &str, b: &str) -> Ordering
    ensures { result ≡ slice_cmp nat_cmp
        (map (upper_case cases.now) (chars a.now)) (map (upper_case cases.now) (chars b.now)) }
{
    let others = b.chars().map(|letter| cases.upper_case(letter));
    a.chars().map(|letter| cases.upper_case(letter)).cmp(others)
}

/// The number of UTF-16 units of a name.
fn unit_count(name: &str) -> usize
    ensures { result ≡ length (utf16_units (chars name.now)) }
{
    name.encode_utf16().count()
}

/// The UTF-16 units of a name that an object may be given: at most 31, and none of the
/// characters `/`, `\`, `:` and `!` (MS-CFB 2.6.1). The empty name is valid.
///
/// It answers `InvalidInput` exactly where the name is not valid, and else `Memory` where memory
/// for the units is refused.
pub fn validate_name<A: Allocator>(alloc: A, name: &str) -> Result<Vec<u16, A>, Error>
    ensures units { IfOk result (λ units. units.items ≡ utf16_units (chars name.now)) }
    ensures valid { OnOk result (is_valid_name (chars name.now) ≡ true) }
    ensures refused { IfErr result (RefusesInput (not (is_valid_name (chars name.now)))) }
{
    let count = unit_count(name);
    if count > MAX_NAME_LEN {
        return Err(Error::InvalidInput(Detail::text("a name has at most 31 UTF-16 units")));
    }
    if has_forbidden(name) {
        return Err(Error::InvalidInput(Detail::text("a name has none of the characters / \\ : !")));
    }
    // One request, as in `name_key`.
    let mut units = Vec::with_capacity(alloc, count)?;
    units.extend(name.encode_utf16())?;
    Ok(units)
}

/// Whether `/`, `\`, `:` or `!` stands in the name.
pub(crate) fn has_forbidden(name: &str) -> bool
    ensures { result ≡ list_any is_forbidden_character (chars name.now) }
{
    name.chars().any(is_forbidden)
}

fn is_forbidden(letter: char) -> bool
    ensures { result ≡ is_forbidden_character letter }
{
    matches!(letter, '/' | '\\' | ':' | '!')
}

/// The names that a path says, from the root down, and none for the root itself.
///
/// The parts of a path stand between `/`. An empty part and `.` say nothing, and `..` takes the
/// last name away. It answers `InvalidInput` exactly where a `..` finds no name to take away,
/// and else `Memory` where memory for the names is refused.
pub fn name_chain_from_path<A: Allocator>(alloc: A, path: &str) -> Result<Vec<&str, A>, Error>
    ensures ok { IfOk result (λ chain. names_of_path (chars path.now)
        ≡ Some (map (λ name. chars name.now) chain.items)) }
    ensures refused { IfErr result (RefusesInput (not (is_some (names_of_path (chars path.now))))) }
{
    if !stays_below_root(path) {
        return Err(Error::InvalidInput(Detail::text("the path leaves the root")));
    }
    let mut chain = Vec::new(alloc);
    let mut left = path;
    while !left.is_empty() {
        let (part, rest) = first_part(left);
        left = rest;
        if says_parent(part) {
            chain.pop();
        } else if !says_nothing(part) {
            chain.push(part)?;
        }
    }
    Ok(chain)
}

/// The path of names: a `/` before each, and `/` alone for no names.
///
/// It answers `Memory` where memory for the path is refused, and no other error.
pub fn path_from_name_chain<A: Allocator>(alloc: A, names: &[&str]) -> Result<String<A>, Error>
    ensures ok { IfOk result (λ path. chars (string_bytes path)
        ≡ path_of_names (map (λ name. chars name.now) names.now)) }
    ensures refused { IfErr result IsMemory }
{
    let mut path = String::new(alloc);
    for name in names {
        path.push('/')?;
        path.push_str(name)?;
    }
    if names.is_empty() {
        path.push('/')?;
    }
    Ok(path)
}

/// Whether no `..` of a path finds no name to take away. It takes no memory.
pub fn stays_below_root(path: &str) -> bool
    ensures { result ≡ is_some (names_of_path (chars path.now)) }
{
    after_parent(path).is_none()
}

/// The first name of a path and a path of the names after it, or none where the path has no
/// names or does not stay below the root. It takes no memory.
pub fn next_name(path: &str) -> Option<(&str, &str)>
    ensures some { IfSome result (λ r. names_left (chars path.now)
        ≡ chars r.0.now ∷ names_left (chars r.1.now)) }
    ensures none { IfNone result (names_left (chars path.now) ≡ []) }
    ensures shorter { IfSome result (λ r. length r.1.now < length path.now) }
{
    let mut left = path;
    while !left.is_empty() {
        let (part, rest) = first_part(left);
        left = rest;
        if says_parent(part) {
            return None;
        }
        if says_nothing(part) {
            continue;
        }
        match after_parent(rest) {
            Some(tail) => left = tail,
            None => return Some((part, rest)),
        }
    }
    None
}

/// Whether a `..` stands in a path. It takes no memory.
pub fn says_parents(path: &str) -> bool
    ensures { result ≡ has_parents (chars path.now) }
{
    let mut left = path;
    while !left.is_empty() {
        let (part, rest) = first_part(left);
        if says_parent(part) {
            return true;
        }
        left = rest;
    }
    false
}

/// What `next_name` answers, where it is known of the path whether a `..` may stand in it. Where
/// none does, nothing is looked at past the name, so a walk by names is linear.
pub fn next_part(path: &str, parents: bool) -> Option<(&str, &str)>
    requires known { parents ≡ false → has_parents (chars path.now) ≡ false }
    ensures some { IfSome result (λ r. names_left (chars path.now)
        ≡ chars r.0.now ∷ names_left (chars r.1.now)) }
    ensures none { IfNone result (names_left (chars path.now) ≡ []) }
    ensures shorter { IfSome result (λ r. length r.1.now < length path.now) }
    ensures known { parents ≡ false → IfSome result (λ r. has_parents (chars r.1.now) ≡ false) }
{
    if parents {
        next_name(path)
    } else {
        next_plain(path)
    }
}

/// The first name of a path in which no `..` stands, and a path of the names after it, or none
/// where the path has no names.
fn next_plain(path: &str) -> Option<(&str, &str)>
    requires { has_parents (chars path.now) ≡ false }
    ensures some { IfSome result (λ r. names_left (chars path.now)
        ≡ chars r.0.now ∷ names_left (chars r.1.now)) }
    ensures none { IfNone result (names_left (chars path.now) ≡ []) }
    ensures shorter { IfSome result (λ r. length r.1.now < length path.now) }
    ensures plain { IfSome result (λ r. has_parents (chars r.1.now) ≡ false) }
{
    let mut left = path;
    while !left.is_empty() {
        let (part, rest) = first_part(left);
        if !says_nothing(part) {
            return Some((part, rest));
        }
        left = rest;
    }
    None
}

/// What stands after the first `..` that takes away a name from before this path.
fn after_parent(path: &str) -> Option<&str>
    ensures leaves { IfSome result (λ rest. Leaves (chars path.now) (chars rest.now)) }
    ensures stays { IfNone result (Gives (chars path.now)) }
    ensures shorter { IfSome result (λ rest. length rest.now < length path.now) }
{
    let mut left = path;
    let mut depth: usize = 0;
    while !left.is_empty() {
        let (part, rest) = first_part(left);
        left = rest;
        if says_parent(part) {
            if depth == 0 {
                return Some(rest);
            }
            depth -= 1;
        } else if !says_nothing(part) {
            depth += 1;
        }
    }
    None
}

/// The part before the first `/`, and what stands after it: nothing where there is no `/`.
fn first_part(path: &str) -> (&str, &str)
    ensures step { (names : List (List ℕ)) → names_along (chars path.now) (Some names)
        ≡ names_along (chars result.1.now) (names_with (chars result.0.now) names) }
    ensures parents { has_parents (chars path.now)
        ≡ (part_says_parent (chars result.0.now) || has_parents (chars result.1.now)) }
    ensures shorter { 0 < length path.now → length result.1.now < length path.now }
{
    match path.split_once('/') {
        Some(parts) => parts,
        None => (path, ""),
    }
}

fn says_nothing(part: &str) -> bool
    ensures { result ≡ part_says_nothing (chars part.now) }
{
    part.is_empty() || part == "."
}

fn says_parent(part: &str) -> bool
    ensures { result ≡ part_says_parent (chars part.now) }
{
    part == ".."
}
