//! Two archives become one.

ghost use Rattle.std.specs.Prelude.{◌≡◌, ◌≤◌, ◌++◌, drop, length, IfOk, OnOk};
ghost use Rattle.archive_text.specs.Entries.{Entry, Has, IsBelow};
ghost use Rattle.archive_text.specs.Sets.{IsUnionOfEntries};

use crate::entry_list::EntryList;
use archive_text::compare;
use std::alloc::{AllocError, Global};
use std::cmp::Ordering;

impl EntryList {
    // Puts the entries of another list from an index on behind the others.
    fn push_rest(&mut self, other: &EntryList, from: usize) -> Result<(), AllocError>
        requires within { from ≤ length other.now }
        requires apart { (x : Entry) (y : Entry) →
            Has self.old x → Has (drop from other.now) y → IsBelow x y }
        ensures { OnOk result (self.new ≡ self.old ++ drop from other.now) }
    {
        let _ascending = self.len();
        for index in from..other.len() {
            self.push(&other.at(index))?;
        }
        Ok(())
    }

    /// The entries of this list and of another one, each once. It fails only when out of memory.
    pub fn merged(&self, alloc: Global, other: &EntryList) -> Result<EntryList, AllocError>
        ensures { IfOk result (IsUnionOfEntries self.now other.now) }
    {
        let mut list = EntryList::new(alloc);
        let (mut i, mut j) = (0, 0);
        while i < self.len() && j < other.len() {
            let (left, right) = (self.at(i), other.at(j));
            match compare(&left, &right) {
                Ordering::Less => {
                    list.push(&left)?;
                    i += 1;
                }
                Ordering::Equal => {
                    list.push(&left)?;
                    i += 1;
                    j += 1;
                }
                Ordering::Greater => {
                    list.push(&right)?;
                    j += 1;
                }
            }
        }
        list.push_rest(self, i)?;
        list.push_rest(other, j)?;
        Ok(list)
    }
}
