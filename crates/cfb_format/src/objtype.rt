//! What a directory entry stands for (MS-CFB 2.6.1).
ghost use Rattle.std.specs.Prelude.{◌≡◌};
ghost use Rattle.cfb_format.specs.DirectoryEntry.{obj_type_byte, obj_type_of};

use crate::consts;

/// What a directory entry stands for.
#[derive(Clone, Copy, Debug, PartialEq, Eq)]
pub enum ObjType {
    /// Nothing: the entry is not used.
    Unallocated,
    /// A storage: it holds storages and streams.
    Storage,
    /// A stream: it holds bytes.
    Stream,
    /// The root storage, which also holds the mini stream.
    Root,
}

impl ObjType {
    /// The byte that stands for the type.
    pub fn as_byte(&self) -> u8
        ensures { result ≡ obj_type_byte self.now }
    {
        match self {
            ObjType::Unallocated => consts::OBJ_TYPE_UNALLOCATED,
            ObjType::Storage => consts::OBJ_TYPE_STORAGE,
            ObjType::Stream => consts::OBJ_TYPE_STREAM,
            ObjType::Root => consts::OBJ_TYPE_ROOT,
        }
    }

    /// The type that a byte stands for, if it stands for one.
    pub fn from_byte(byte: u8) -> Option<ObjType>
        ensures { result ≡ obj_type_of byte }
    {
        match byte {
            consts::OBJ_TYPE_UNALLOCATED => Some(ObjType::Unallocated),
            consts::OBJ_TYPE_STORAGE => Some(ObjType::Storage),
            consts::OBJ_TYPE_STREAM => Some(ObjType::Stream),
            consts::OBJ_TYPE_ROOT => Some(ObjType::Root),
            _ => None,
        }
    }
}
