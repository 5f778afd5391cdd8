// A lent table: how it is taken, cleared and read, and how a record is added behind the others.
ghost use Rattle.std.specs.Prelude.{◌≡◌, ◌+◌, ◌-◌, ◌<◌, ◌≤◌, ◌↔◌, Bool, IsTrue, [], ◌∷◌, ◌++◌, length, take, drop, filter, slice_index_or, slice_set};

use crate::blank::{Blank, wipe};
use crate::sift::sift;
use std::ops::Range;

// Lent places, of which the first `used` hold records: the caller's memory, so that nothing here needs any of its own.
#[derive(Drop)]
pub struct Table<'a, T> {
    pub places: &'a mut [T],
    pub used: usize,
}

impl<'a, T> Table<'a, T> {
    ghost use Rattle.line.specs.Tables.{records, whole, held, places};

    // Takes the places as they are, with no record in them.
    pub fn lent(places: &'a mut [T]) -> Table<'a, T>
        ensures same { result.places.ghost_name ≡ places.entry.ghost_name }
        ensures untouched { whole result ≡ places.old }
        ensures unused { result.used ≡ 0 }
    {
        Table { places, used: 0 }
    }

    // How many records it can hold.
    pub fn length(&self) -> usize
        ensures { result ≡ places (held self.now) }
    {
        self.places.len()
    }

    // The records in use.
    pub fn records(&self) -> &[T]
        requires { self.now.used ≤ length (whole self.now) }
        ensures { result.now ≡ records self.now }
    {
        &self.places[..self.used]
    }

    // Whether no place is free.
    pub fn is_full(&self) -> bool
        ensures { IsTrue result ↔ (self.now.used ≡ length (whole self.now)) }
    {
        self.used == self.length()
    }
}

impl<T: Blank> Table<'_, T> {
    ghost use Rattle.std.specs.Fn.{CalledAt};
    ghost use Rattle.std.specs.List.Retain.{IsFiltered};
    ghost use Rattle.line.specs.Lines.{taken_out};
    ghost use Rattle.line.specs.Tables.{records, held, places, all_blank, Within, Cleared, Room, StaysLent};

    // Blanks every place, and lets the first `used` of them count as records.
    pub fn clear(&mut self, used: usize)
        requires { used ≤ places (held self.old) }
        ensures same { self.new.places.ghost_name ≡ self.old.places.ghost_name }
        ensures used { self.new.used ≡ used }
        ensures holds { held self.new ≡ all_blank T.blank used (places (held self.old)) }
        ensures within { Within self.new }
        ensures cleared { Cleared T.blank self.new }
    {
        wipe(self.places);
        self.used = used;
    }

    // The record at the index.
    pub fn at(&self, index: usize) -> T
        requires within { Within self.now }
        requires there { index < self.now.used }
        ensures { result ≡ slice_index_or (records self.now) index T.blank }
    {
        self.records()[index]
    }

    // Adds the record behind the others. That a place is free stands in the clause, here as in the other calls that add: a table may be full.
    pub fn push(&mut self, x: T)
        requires { Room self.old }
        ensures lent { StaysLent T.blank self.old self.new }
        ensures used { self.new.used ≡ self.old.used + 1 }
        ensures records { records self.new ≡ records self.old ++ x ∷ [] }
        ensures within { Within self.new }
    {
        self.insert(self.used, x);
    }

    // Writes the record over the one at the index.
    pub fn set(&mut self, index: usize, x: T)
        requires within { Within self.old }
        requires there { index < self.old.used }
        ensures lent { StaysLent T.blank self.old self.new }
        ensures used { self.new.used ≡ self.old.used }
        ensures records { records self.new ≡ slice_set (records self.old) index x }
        ensures within { Within self.new }
    {
        self.places[index] = x;
    }

    // Puts the record in at the spot: each from there on moves one place back.
    pub(crate) fn insert(&mut self, spot: usize, x: T)
        requires within { spot ≤ self.old.used }
        requires room { Room self.old }
        ensures lent { StaysLent T.blank self.old self.new }
        ensures used { self.new.used ≡ self.old.used + 1 }
        ensures records { records self.new ≡ take spot (records self.old) ++ x ∷ drop spot (records self.old) }
        ensures within { Within self.new }
    {
        let used = self.used;
        self.places.copy_within(spot..used, spot + 1);
        self.places[spot] = x;
        self.used = used + 1;
    }

    // Takes the records of a run of indices out: those behind move up, and the places that they leave are blanked.
    pub(crate) fn remove_run(&mut self, run: Range<usize>)
        requires within { Within self.old }
        requires order { run.start ≤ run.end }
        requires there { run.end ≤ self.old.used }
        ensures lent { StaysLent T.blank self.old self.new }
        ensures used { self.new.used + (run.end - run.start) ≡ self.old.used }
        ensures records { records self.new ≡ taken_out run.start run.end (records self.old) }
        ensures within { Within self.new }
    {
        let used = self.used;
        let left = used - (run.end - run.start);
        self.places.copy_within(run.end..used, run.start);
        wipe(&mut self.places[left..used]);
        self.used = left;
    }

    // Keeps the records that pass the test, in their order; the places that they leave are blanked.
    pub(crate) fn retain<F: FnMut(&T) -> bool>(&mut self, test: F)
        requires within { Within self.old }
        requires callable { F.IsAlwaysCallable test }
        ensures lent { StaysLent T.blank self.old self.new }
        ensures used { self.new.used ≤ self.old.used }
        ensures records { IsFiltered (CalledAt F.FnMut) test (records self.old) (records self.new) }
        ensures within { Within self.new }
    {
        let records = &mut self.places[..self.used];
        let kept = sift(records, test);
        wipe(&mut records[kept..]);
        self.used = kept;
    }
}
