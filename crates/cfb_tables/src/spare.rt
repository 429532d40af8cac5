//! The free numbers of the FAT, in the order in which they are given out again.
ghost use Rattle.std.specs.Prelude.{◌≡◌, ◌+◌, ◌<◌, ◌≤◌, [], ◌∷◌, ◌++◌, ℕ, length, slice_index, IfOk, IfErr, IfSome, IfNone, OnOk};
ghost use Rattle.cfb_format.specs.Bytes.{free_sector, max_regular_sector};
ghost use Rattle.cfb_tables.specs.Changes.{ListsFree};
ghost use Rattle.cfb_tables.specs.Refused.{TableRefused};

use crate::free::free_below;
use cfb_format::consts::FREE_SECTOR;
use cfb_format::error::Error;
use std::alloc::{Allocator, Global};
use std::marker::Model;

/// The free numbers, the one to be given out next at the end. Behind the first `early` of the listed ones comes the row from `first` to
/// before `end`: the numbers that are free at the end of a table that was read, of which a sparse file has millions.
#[derive(Drop)]
pub struct Spare<A: Allocator = Global> {
    listed: Vec<u32, A>,
    early: usize,
    first: usize,
    end: usize,
}

impl<A: Allocator> Model for Spare<A> {
    ghost use Rattle.std.specs.Prelude.{◌-◌, ◌^◌, ◌≤◌, ◌++◌, drop, length, take, vec_capacity};
    ghost use Rattle.std.specs.List.{range_with_len};
    ghost use Rattle.cfb_tables.specs.Spares.{SpareNumbers};

    ghost Value = { SpareNumbers };

    ghost view = { λ s. record {
      items = take s.early s.listed.items
          ++ range_with_len s.first (s.end - s.first) ++ drop s.early s.listed.items;
      capacity = vec_capacity s.listed;
    } };

    ghost invariant = { λ s. (s.early ≤ length s.listed.items) × (s.first ≤ s.end) × (s.end ≤ 2 ^ 32) };
}

/// Where the row of free numbers begins that goes on to the end of a table.
fn last_row(table: &[u32]) -> usize
    ensures within { result ≤ length table.now }
    ensures free { (i : ℕ) → result ≤ i → i < length table.now
        → slice_index table.now i ≡ free_sector }
{
    for behind in 0..table.len() {
        let first = table.len() - behind;
        if table[first - 1] != FREE_SECTOR {
            return first;
        }
    }
    0
}

impl<A: Allocator> Spare<A> {
    /// The free numbers of a table, in order, with room for all of its numbers. `Memory`.
    pub fn new(alloc: A, table: &[u32]) -> Result<Spare<A>, Error>
        requires short { length table.now ≤ max_regular_sector }
        ensures ok { IfOk result (λ spare.
            ListsFree (length table.now) spare.items table.now) }
        ensures room { IfOk result (λ spare. length table.now ≤ spare.capacity) }
        ensures err { IfErr result (TableRefused ⊥ Unit ⊥) }
    {
        let first = last_row(table);
        let listed = free_below(alloc, table, first)?;
        let early = listed.len();
        Ok(Spare {
            listed,
            early,
            first,
            end: table.len(),
        })
    }

    /// How many numbers are free.
    pub fn len(&self) -> usize
        ensures { result ≡ length self.now.items }
    {
        self.listed.len() + (self.end - self.first)
    }

    /// Has the list hold so many numbers. `Memory`.
    pub fn hold(&mut self, count: usize) -> Result<(), Error>
        ensures ok { OnOk result (count ≤ self.new.capacity) }
        ensures kept { self.new ≡ record self.old { capacity = self.new.capacity } }
        ensures more { self.old.capacity ≤ self.new.capacity }
        ensures err { IfErr result (TableRefused ⊥ Unit ⊥) }
    {
        let more = count.saturating_sub(self.listed.len());
        self.listed.reserve(more)?;
        Ok(())
    }

    /// Takes the number at the end.
    pub fn pop(&mut self) -> Option<u32>
        ensures items { IfSome result (λ x. self.old.items ≡ self.new.items ++ x ∷ []) }
        ensures none { IfNone result (self.old.items ≡ []) }
        ensures unchanged { IfNone result (self.new ≡ self.old) }
        ensures capacity { self.new.capacity ≡ self.old.capacity }
    {
        if self.listed.len() == self.early {
            if self.first < self.end {
                self.end -= 1;
                return Some(self.end as u32);
            }
            self.early = self.early.saturating_sub(1);
        }
        self.listed.pop()
    }

    /// Puts a number at the end, for which there is room.
    pub fn push_reserved(&mut self, number: u32)
        requires room { length self.old.items < self.old.capacity }
        ensures items { self.new.items ≡ self.old.items ++ number ∷ [] }
        ensures capacity { self.new.capacity ≡ self.old.capacity }
    {
        self.listed.push_reserved(number);
    }
}
