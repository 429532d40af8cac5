//! An iterator over what is told of objects.
ghost use Rattle.std.specs.Prelude.{◌≡◌};
ghost use Rattle.std.specs.Iterator.{YieldsFirst, item_count};

use crate::entry::Entry;
use std::alloc::{Allocator, Global};
use std::fmt;
use std::marker::PhantomData;

/// An iterator over entries. Its list was made at once, so iterating takes no memory. It borrows
/// the file.
#[derive(Drop)]
pub struct Entries<'a, F, A: Allocator = Global> {
    left: std::vec::IntoIter<Entry<A>, A>,
    file: PhantomData<&'a F>,
}

impl<'a, F, A: Allocator> Entries<'a, F, A> {
    ghost use Rattle.cfb_listing.specs.Left.{entries_left};

    /// Over the entries of a list, in its order.
    pub fn new(_file: &'a F, list: Vec<Entry<A>, A>) -> Entries<'a, F, A>
        ensures { entries_left result ≡ list.items }
    {
        Entries {
            left: list.into_iter(),
            file: PhantomData,
        }
    }
}

impl<'a, F, A: Allocator> Iterator for Entries<'a, F, A> {
    type Item = Entry<A>;

    ghost use Rattle.cfb_listing.specs.Left.{entries_left};

    ghost next_gives = { YieldsFirst entries_left };

    ghost remaining = { item_count entries_left };

    fn next(&mut self) -> Option<Entry<A>> {
        self.left.next()
    }

    fn size_hint(&self) -> (usize, Option<usize>) {
        self.left.size_hint()
    }
}

impl<'a, F, A: Allocator> fmt::Debug for Entries<'a, F, A> {
    fn fmt<W: fmt::Write>(&self, f: &mut fmt::Formatter<W>) -> fmt::Result {
        let (left, _) = self.left.size_hint();
        write!(f, "Entries {{ left: {left} }}")
    }
}
