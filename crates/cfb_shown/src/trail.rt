//! The paths of the objects of a walk, one after another in the same memory.
ghost use Rattle.std.specs.Prelude.{◌≡◌, ◌<◌, ◌++◌, ◌∷◌, ℕ, List, [], chars, length, slice_index_or, string_bytes, take, IfOk, IfErr, OnOk, OnErr};
ghost use Rattle.cfb_format.specs.Path.{child_path};
ghost use Rattle.cfb_format.specs.Refused.{IsMemory};
ghost use Rattle.cfb_shown.specs.Trails.{Goes, IsTrail, KeepsRoom, LacksRoom, Starts, paths_of};

use cfb_format::error::Error;
use std::alloc::Allocator as Heap;

/// The path of the object that a walk is at, and where those of the storages on the way end in it.
#[derive(Drop)]
pub(crate) struct Trail<A: Heap> {
    path: String<A>,
    /// The ends of the paths of the storages on the way, of which the first is the one that the walk began with; and last that of the
    /// object.
    ends: Vec<usize, A>,
}

/// What stands between this path and a name: a `/`, unless the path ends with one.
fn separator(path: &str) -> &'static str
    ensures { (name : List ℕ)
        → child_path (chars path.now) name ≡ chars path.now ++ chars result.now ++ name }
{
    if path.ends_with('/') { "" } else { "/" }
}

/// The end at this place.
fn end_at(ends: &[usize], place: usize) -> usize
    requires { place < length ends.now }
    ensures { result ≡ slice_index_or ends.now place 0 }
{
    ends[place]
}

impl<A: Heap> Trail<A> {
    /// At the object that a walk begins with, which has this path.
    pub(crate) fn new(alloc: &A, path: &str) -> Result<Trail<A>, Error>
    where
        A: Clone,
        ensures ok { IfOk result (λ trail. Starts (chars path.now) trail) }
        ensures kind { IfErr result IsMemory }
    {
        let mut ends = Vec::new(alloc.clone()?);
        let path = String::from_str(alloc.clone()?, path)?;
        ends.push(path.as_str().len())?;
        Ok(Trail { path, ends })
    }

    /// The path of the object.
    pub(crate) fn path(&self) -> &str
        ensures { result.now ≡ string_bytes self.now.path }
    {
        self.path.as_str()
    }

    /// Goes on to the object of this name that lies so deep. `Memory`, and only where there is no room yet.
    pub(crate) fn step(&mut self, depth: usize, name: &str) -> Result<(), Error>
        requires trail { IsTrail self.old }
        requires deep { depth < length self.old.ends.items }
        ensures goes { OnOk result (Goes depth (chars name.now) self.old self.new) }
        ensures full { OnErr result (LacksRoom depth (chars name.now) self.old) }
        ensures kind { IfErr result IsMemory }
    {
        let end = end_at(self.ends.as_slice(), depth);
        self.ends.truncate(depth + 1);
        self.path.truncate(end);
        let separator = separator(self.path.as_str());
        self.path.push_str(separator)?;
        self.path.push_str(name)?;
        let own = self.path.as_str().len();
        self.ends.push(own)?;
        Ok(())
    }

    /// Goes back to the object that the walk began with. The room stays.
    pub(crate) fn turn_back(&mut self)
        requires { IsTrail self.old }
        ensures trail { IsTrail self.new }
        ensures paths { paths_of self.new ≡ take 1 (paths_of self.old) }
        ensures room { KeepsRoom self.old self.new }
    {
        self.ends.truncate(1);
    }
}
