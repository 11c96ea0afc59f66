ghost use Rattle.std.specs.Prelude.{◌≡◌, ◌<◌, ◌++◌, [], ◌∷◌, length, slice_index_or, IfOk, OnOk, OnErr};
ghost use Rattle.std.specs.List.{sum_by};

use crate::Memory;
use crate::lists::Lists;
use std::alloc::Global;
use std::marker::Model;

/// Lists one after the other in one vector, so that none has a block of memory of its own.
#[derive(Debug, Drop)]
pub struct FlatLists<T> {
    items: Vec<T>,
    // where each list ends
    ends: Vec<usize>,
}

impl<T> Model for FlatLists<T> {
    ghost use Rattle.std.specs.Prelude.{List, length};
    ghost use Rattle.std.specs.Coded.{coded_list};
    ghost use Rattle.flat_lists.specs.Flat.{pieces, EndAt};

    ghost Value = { List (List T) };

    ghost coded = { coded_list (coded_list T.code) };

    ghost view = { λ f. pieces f.items.items 0 f.ends.items };

    ghost invariant = { λ f. EndAt (length f.items.items) 0 f.ends.items };
}

impl<T> FlatLists<T> {
    /// Returns an empty list of lists.
    pub fn new(alloc: Global) -> FlatLists<T>
        ensures { result ≡ [] }
    {
        FlatLists {
            items: Vec::new(alloc),
            ends: Vec::new(alloc),
        }
    }

    /// Whether another list of `items` items fits into the memory that is there.
    pub fn has_room(&self, items: usize) -> bool {
        self.ends.len() < self.ends.capacity()
            && items <= self.items.capacity().saturating_sub(self.items.len())
    }

    /// Returns the number of lists.
    pub fn len(&self) -> usize
        ensures { result ≡ length self.now }
    {
        self.ends.len()
    }

    /// Returns the number of items of all lists.
    pub fn item_count(&self) -> usize
        ensures { result ≡ sum_by length self.now }
    {
        self.items.len()
    }

    /// Returns the list at a place.
    pub fn list(&self, at: usize) -> &[T]
        requires { at < length self.now }
        ensures { result.now ≡ slice_index_or self.now at [] }
    {
        self.lists().list(at)
    }

    /// Iterates over the lists in order.
    pub fn lists(&self) -> Lists<'_, T>
        ensures { result ≡ self.now }
    {
        Lists::new(&self.ends, &self.items)
    }
}

impl<T: Copy> FlatLists<T> {
    /// Returns an empty list of lists, with memory for `lists` lists of `items` items in all.
    pub fn with_room(alloc: Global, lists: usize, items: usize) -> Result<FlatLists<T>, Memory>
        ensures { IfOk result (λ flat. flat ≡ []) }
    {
        let items = Vec::with_capacity(alloc, items)?;
        let ends = Vec::with_capacity(alloc, lists)?;
        Ok(FlatLists { items, ends })
    }

    /// Removes all lists and keeps their memory.
    pub fn clear(&mut self)
        ensures { self.new ≡ [] }
    {
        self.items.clear();
        self.ends.clear();
    }

    /// Adds a copy of a list after the others.
    pub fn push(&mut self, list: &[T]) -> Result<(), Memory>
        ensures ok { OnOk result (self.new ≡ self.old ++ list.now ∷ []) }
        ensures err { OnErr result (self.new ≡ self.old) }
    {
        self.ends.reserve(1)?;
        self.items.extend_from_slice(list)?;
        self.ends.push(self.items.len())?;
        Ok(())
    }
}
