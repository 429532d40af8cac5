//! What is told of one object.
ghost use Rattle.std.specs.Prelude.{◌≡◌, ◌<◌, ◌||◌, ◌==◌, length, chars, string_bytes, IfOk, IfErr};
ghost use Rattle.std.specs.Str.{bytes_eq};
ghost use Rattle.cfb_codecs.specs.EntryModel.{entries_of};
ghost use Rattle.cfb_format.specs.DirectoryEntry.{name_for, nil_clsid, unless_storage, unless_stream};
ghost use Rattle.cfb_format.specs.Siblings.{entry_at};
ghost use Rattle.cfb_format.specs.Refused.{IsMemory};
ghost use Rattle.cfb_outline.specs.Families.{is_storage_kind, is_root_kind, is_stream_kind};
ghost use Rattle.cfb_listing.specs.Told.{entry_info};

use cfb_codecs::direntry::DirEntry;
use cfb_codecs::timestamp::Timestamp;
use cfb_format::consts::ROOT_DIR_NAME;
use cfb_format::error::Error;
use cfb_format::objtype::ObjType;
use std::alloc::{Allocator, Global};
use std::fmt;
use std::marker::Model;
use uuid::Uuid;

/// What a directory entry says of a storage or stream, as it was when you asked (MS-CFB 2.6.1).
#[derive(Drop)]
pub struct Entry<A: Allocator = Global> {
    /// The path, and then the name.
    text: String<A>,
    path_len: usize,
    obj_type: ObjType,
    len: u64,
    clsid: Uuid,
    state_bits: u32,
    created: Timestamp,
    modified: Timestamp,
}

impl<A: Allocator> Model for Entry<A> {
    ghost use Rattle.std.specs.Prelude.{chars, string_bytes, take, drop};
    ghost use Rattle.std.specs.Str.{IsCharBoundary};
    ghost use Rattle.cfb_rules.specs.Calls.{EntryInfo};

    ghost Value = { EntryInfo };

    ghost view = { λ entry. record {
      name = chars (drop entry.path_len (string_bytes entry.text));
      path = chars (take entry.path_len (string_bytes entry.text));
      obj_type = entry.obj_type;
      len = entry.len;
      clsid = entry.clsid;
      state_bits = entry.state_bits;
      created = entry.created;
      modified = entry.modified;
    } };

    ghost invariant = { λ entry. IsCharBoundary (string_bytes entry.text) entry.path_len };
}

impl<A: Allocator> Entry<A> {
    /// The name as it is stored; `Root Entry` for the root.
    pub fn name(&self) -> &str
        ensures { chars result.now ≡ self.now.name }
    {
        &self.text.as_str()[self.path_len..]
    }

    /// The path; `/` for the root.
    pub fn path(&self) -> &str
        ensures { chars result.now ≡ self.now.path }
    {
        &self.text.as_str()[..self.path_len]
    }

    /// Whether it is a stream.
    pub fn is_stream(&self) -> bool
        ensures { result ≡ is_stream_kind self.now.obj_type }
    {
        self.obj_type == ObjType::Stream
    }

    /// Whether it is a storage or the root.
    pub fn is_storage(&self) -> bool
        ensures { result ≡ (is_storage_kind self.now.obj_type || is_root_kind self.now.obj_type) }
    {
        self.obj_type == ObjType::Storage || self.obj_type == ObjType::Root
    }

    /// Whether it is the root.
    pub fn is_root(&self) -> bool
        ensures { result ≡ is_root_kind self.now.obj_type }
    {
        self.obj_type == ObjType::Root
    }

    /// The length in bytes: of a stream its own, of the root that of the mini stream (MS-CFB 2.6.3), and of any other storage 0.
    pub fn len(&self) -> u64
        ensures { result ≡ self.now.len }
    {
        self.len
    }

    /// Whether the length is 0.
    pub fn is_empty(&self) -> bool
        ensures { result ≡ (self.now.len == 0) }
    {
        self.len == 0
    }

    /// The class ID of a storage; nil for a stream.
    pub fn clsid(&self) -> Uuid
        ensures { result ≡ self.now.clsid }
    {
        self.clsid
    }

    /// The state bits: a number that the program chooses.
    pub fn state_bits(&self) -> u32
        ensures { result ≡ self.now.state_bits }
    {
        self.state_bits
    }

    /// The creation time of a storage; `Timestamp::zero()` if it is not set, and for a stream.
    pub fn created(&self) -> Timestamp
        ensures { result ≡ self.now.created }
    {
        self.created
    }

    /// The modification time of a storage; `Timestamp::zero()` if it is not set, and for a stream.
    pub fn modified(&self) -> Timestamp
        ensures { result ≡ self.now.modified }
    {
        self.modified
    }
}

impl<A: Allocator> fmt::Debug for Entry<A> {
    fn fmt<W: fmt::Write>(&self, f: &mut fmt::Formatter<W>) -> fmt::Result {
        write!(f, "{} ({} bytes)", self.path(), self.len())
    }
}

impl<A: Allocator> PartialEq for Entry<A> {
    ghost use Rattle.cfb_listing.specs.Compared.{same_entry, same_entry_laws};

    ghost eq = { same_entry };

    ghost laws = { same_entry_laws };

    /// Whether the same is told of both. How far they stand below the ones that their lists begin with is no part of it.
    fn eq(&self, other: &Entry<A>) -> bool {
        is_same_text(self.name(), other.name())
            && is_same_text(self.path(), other.path())
            && self.obj_type.as_byte() == other.obj_type.as_byte()
            && self.len == other.len
            && self.clsid == other.clsid
            && self.state_bits == other.state_bits
            && self.created.value() == other.created.value()
            && self.modified.value() == other.modified.value()
    }
}

/// Whether two texts are the same.
fn is_same_text(a: &str, b: &str) -> bool
    ensures { result ≡ bytes_eq (chars a.now) (chars b.now) }
{
    a == b
}

/// What is told of the entry of this number, with this path: what an object of its kind has
/// (MS-CFB 2.6.1 to 2.6.3). `Memory` where its name gets none, and no other error.
pub fn entry_of<A: Allocator>(
    entries: &[DirEntry<A>],
    number: u32,
    path: String<A>,
) -> Result<Entry<A>, Error>
    requires { number < length entries.now }
    ensures ok { IfOk result (λ told. told
        ≡ entry_info (chars (string_bytes path)) (entry_at (entries_of entries.now) number)) }
    ensures refused { IfErr result IsMemory }
{
    let entry = &entries[number as usize];
    let path_len = path.as_str().len();
    let mut text = path;
    text.push_str(name_of(entry))?;
    Ok(Entry {
        text,
        path_len,
        obj_type: entry.obj_type,
        len: len_of(entry),
        clsid: clsid_of(entry),
        state_bits: entry.state_bits,
        created: moment_of(entry.obj_type, entry.creation_time),
        modified: moment_of(entry.obj_type, entry.modified_time),
    })
}

/// The name of an entry, which for the root is always the same.
fn name_of<A: Allocator>(entry: &DirEntry<A>) -> &str
    ensures { chars result.now ≡ name_for entry.now.obj_type (chars (string_bytes entry.now.name)) }
{
    if entry.obj_type == ObjType::Root {
        ROOT_DIR_NAME
    } else {
        &entry.name
    }
}

/// The length of an entry. A storage has none.
fn len_of<A: Allocator>(entry: &DirEntry<A>) -> u64
    ensures { result ≡ unless_storage entry.now.obj_type entry.now.stream_len }
{
    if entry.obj_type == ObjType::Storage {
        0
    } else {
        entry.stream_len
    }
}

/// The class id of an entry. A stream has none.
fn clsid_of<A: Allocator>(entry: &DirEntry<A>) -> Uuid
    ensures { result ≡ unless_stream entry.now.obj_type nil_clsid entry.now.clsid }
{
    if entry.obj_type == ObjType::Stream {
        Uuid::nil()
    } else {
        entry.clsid
    }
}

/// A moment of an entry of this kind. A stream has none.
fn moment_of(kind: ObjType, moment: Timestamp) -> Timestamp
    ensures { result ≡ unless_stream kind 0 moment }
{
    if kind == ObjType::Stream {
        Timestamp::zero()
    } else {
        moment
    }
}
