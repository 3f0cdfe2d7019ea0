// The entries of a summary that was read.
ghost use Rattle.std.specs.Prelude.{◌≡◌, ◌+◌, ◌*◌, ◌<◌, ◌≤◌, length, MatchOption, slice_get};
ghost use Rattle.std.specs.Option.{option_map};
ghost use Rattle.std.specs.Iterator.{YieldsFirstBy, item_count};
ghost use Rattle.octets.specs.Octets.{part};
ghost use Rattle.frame.specs.Reading.{entry_at};
ghost use Rattle.frame.specs.Meaning.{entry_count, entry_said, entries_in, entries_left};

use crate::cells::{array_at, check_octets_at, four_at, two_at};
use crate::message::{Entries, Entry};

impl<'a> Entries<'a> {
    // How many there are: 16 octets to each, and at most 15 count.
    pub fn count(&self) -> usize
        ensures { result ≡ entry_count self.now.octets.now }
    {
        (self.octets.len() / 16).min(15)
    }

    // The 16 octets of the k-th, from 0, with their place in the frame.
    pub fn part(&self, k: usize) -> Option<(usize, &'a [u8])>
        ensures { MatchOption result (entry_count self.now.octets.now ≤ k) (λ x. (k < entry_count self.now.octets.now) × (x.0 ≡ self.now.place + 16 * k) × (x.1.now ≡ part (16 * k) 16 self.now.octets.now)) }
    {
        if k >= self.count() {
            return None;
        }
        let at = 16 * k;
        Some((usize::from(self.place) + at, &self.octets[at..at + 16]))
    }

    // What the k-th says.
    pub fn entry(&self, k: usize) -> Option<Entry>
        ensures { option_map entry_said result ≡ slice_get (entries_in self.now.octets.now) k }
    {
        let (_, octets) = self.part(k)?;
        Some(read_entry(octets, 0))
    }

    // The entries in turn.
    #[tactic(auto, using(crate::proofs::EntryLists::entries_cut, crate::proofs::EntryLists::length_entries_in))]
    pub fn iter(&self) -> EntryIter<'a>
        ensures these { entries_left result ≡ entries_in self.now.octets.now }
        ensures few { length (entries_left result) ≤ 15 }
    {
        EntryIter {
            left: &self.octets[..16 * self.count()],
        }
    }
}

impl<'a> IntoIterator for Entries<'a> {
    type Item = Entry;

    type IntoIter = EntryIter<'a>;

    ghost into_iter_gives = { λ entries iter. (entries_left iter ≡ entries_in entries.octets.now) × (length (entries_left iter) ≤ 15) };

    fn into_iter(self) -> EntryIter<'a> {
        self.iter()
    }
}

// The entries that are left, 16 octets each.
#[derive(Clone, Debug, Drop)]
pub struct EntryIter<'a> {
    left: &'a [u8],
}

impl<'a> Iterator for EntryIter<'a> {
    type Item = Entry;

    ghost next_gives = { YieldsFirstBy entry_said entries_left };

    ghost remaining = { item_count entries_left };

    #[tactic(auto, using(crate::proofs::EntryLists::entries_first, crate::proofs::EntryLists::length_entries_at))]
    fn next(&mut self) -> Option<Entry> {
        let (entry, rest) = self.left.split_first_chunk::<16>()?;
        self.left = rest;
        Some(read_entry(entry, 0))
    }
}

// The entry at an offset.
pub(crate) fn read_entry(octets: &[u8], at: usize) -> Entry
    requires { at + 16 ≤ length octets.now }
    ensures { entry_said result ≡ entry_at at octets.now }
{
    Entry {
        lifetime: two_at(octets, at),
        id: array_at(octets, at + 2),
        number: four_at(octets, at + 10),
        check: check_octets_at(octets, at + 14),
    }
}
