ghost use Rattle.std.specs.Prelude.{◌≡◌, ◌<◌, [], length, slice_index_or};
ghost use Rattle.std.specs.Iterator.{YieldsFirstBy, item_count};
ghost use Rattle.std.specs.Map.Iter.{deref};
ghost use Rattle.flat_lists.specs.Flat.{pieces, EndAt, start_at};

use std::marker::Model;

/// Iterates over lists in order. Its value is the lists that are left.
///
/// A walk over all lists is faster than access by place: the next list begins where one ends.
#[derive(Debug, Drop)]
pub struct Lists<'a, T> {
    ends: &'a [usize],
    // the items of all lists, and where those of the next one begin
    items: &'a [T],
    start: usize,
}

impl<'a, T> Model for Lists<'a, T> {
    ghost use Rattle.std.specs.Prelude.{List, length};
    ghost use Rattle.std.specs.Coded.{coded_list};
    ghost use Rattle.flat_lists.specs.Flat.{pieces, EndAt};

    ghost Value = { List (List T) };

    ghost coded = { coded_list (coded_list T.code) };

    ghost view = { λ w. pieces w.items.now w.start w.ends.now };

    ghost invariant = { λ w. EndAt (length w.items.now) w.start w.ends.now };
}

impl<'a, T> Lists<'a, T> {
    /// Returns the lists of these items; `ends` are the places where they end.
    pub fn new(ends: &'a [usize], items: &'a [T]) -> Lists<'a, T>
        requires { EndAt (length items.now) 0 ends.now }
        ensures { result ≡ pieces items.now 0 ends.now }
    {
        Lists {
            ends,
            items,
            start: 0,
        }
    }

    /// Returns another iterator over the lists that are left.
    pub fn again(&self) -> Lists<'a, T>
        ensures { result ≡ self.now }
    {
        Lists {
            ends: self.ends,
            items: self.items,
            start: self.start,
        }
    }

    /// Returns the list at a place among those that are left.
    pub fn list(&self, at: usize) -> &'a [T]
        requires { at < length self.now }
        ensures { result.now ≡ slice_index_or self.now at [] }
    {
        let start = start_at(self.start, self.ends, at);
        let end = self.ends[at];
        let items = self.items;
        &items[start..end]
    }
}

impl<'a, T> Iterator for Lists<'a, T> {
    type Item = &'a [T];

    ghost next_gives = { YieldsFirstBy deref (λ lists. lists) };

    ghost remaining = { item_count (λ lists. lists) };

    fn next(&mut self) -> Option<&'a [T]> {
        let (end, ends) = self.ends.split_first()?;
        let (start, end) = (self.start, *end);
        self.ends = ends;
        self.start = end;
        let items = self.items;
        Some(&items[start..end])
    }
}

// Returns where the list at place `at` begins.
fn start_at(start: usize, ends: &[usize], at: usize) -> usize
    requires { at < length ends.now }
    ensures { result ≡ start_at start ends.now at }
{
    match at.checked_sub(1) {
        None => start,
        Some(before) => ends[before],
    }
}
