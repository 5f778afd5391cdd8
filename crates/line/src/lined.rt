// A lent table whose records are kept in line.
ghost use Rattle.std.specs.Prelude.{◌≡◌, ◌+◌, ◌-◌, ◌<◌, ◌≤◌, Bool, true, false, [], length, take, drop, Decides, filter, slice_index_or, slice_set};
ghost use Rattle.std.specs.Fn.{CalledAt, ComputesKey};
ghost use Rattle.std.specs.List.Retain.{IsFiltered};
ghost use Rattle.line.specs.Places.{ahead};
ghost use Rattle.line.specs.Lines.{Free, in_line, spot, entered, taken_out, lies_between};
ghost use Rattle.line.specs.Tables.{records, whole, held, places, all_blank, Within, Cleared, Room, StaysLent};

use crate::placed::Placed;
use crate::table::Table;
use std::ops::Range;

#[derive(Drop)]
pub struct Line<'a, T: Placed> {
    pub table: Table<'a, T>,
    ghost within: { Within table },
    ghost lined: { in_line T.place (records table) ≡ true },
}

impl<'a, T: Placed> Line<'a, T> {
    // Takes the places as they are, with no record in them.
    pub fn lent(places: &'a mut [T]) -> Line<'a, T>
        ensures same { result.table.places.ghost_name ≡ places.entry.ghost_name }
        ensures untouched { whole result.table ≡ places.old }
        ensures unused { result.table.used ≡ 0 }
    {
        Line {
            table: Table::lent(places),
        }
    }
}

impl<T: Placed> Line<'_, T> {
    // The records in use, in line.
    pub fn records(&self) -> &[T]
        ensures { result.now ≡ records self.now.table }
    {
        self.table.records()
    }

    // Blanks every place, and takes all records out.
    pub fn clear(&mut self)
        ensures same { self.new.table.places.ghost_name ≡ self.old.table.places.ghost_name }
        ensures used { self.new.table.used ≡ 0 }
        ensures holds { held self.new.table ≡ all_blank T.Blank.blank 0 (places (held self.old.table)) }
        ensures cleared { Cleared T.Blank.blank self.new.table }
    {
        self.table.clear(0);
    }

    // How many records come before the key.
    pub fn spot(&self, key: &T) -> usize
        ensures within { result ≤ self.now.table.used }
        ensures spot { result ≡ spot T.place (T.place key.now) (records self.now.table) }
    {
        self.records().partition_point(|x| x.before(key))
    }

    // The indices of the records that do not come before `first`, and that come before `beyond`.
    pub fn run(&self, first: &T, beyond: &T) -> Range<usize>
        ensures from { result.start ≡ spot T.place (T.place first.now) (records self.now.table) }
        ensures to { result.end ≡ spot T.place (T.place beyond.now) (records self.now.table) }
        ensures within { result.end ≤ self.now.table.used }
        ensures order { ahead (T.place beyond.now) (T.place first.now) ≡ false → result.start ≤ result.end }
        ensures records { drop result.start (take result.end (records self.now.table)) ≡ filter (lies_between T.place (T.place first.now) (T.place beyond.now)) (records self.now.table) }
    {
        self.spot(first)..self.spot(beyond)
    }

    // Whether no record has the place of `x`.
    pub fn free(&self, x: &T) -> bool
        ensures { Decides result (Free T.place x.now (records self.now.table)) }
    {
        match self.records().get(self.spot(x)) {
            Some(next) => x.before(next),
            None => true,
        }
    }

    // Puts the record where it belongs.
    pub fn put(&mut self, x: T)
        requires room { Room self.old.table }
        requires free { Free T.place x (records self.old.table) }
        ensures lent { StaysLent T.Blank.blank self.old.table self.new.table }
        ensures used { self.new.table.used ≡ self.old.table.used + 1 }
        ensures records { records self.new.table ≡ entered T.place x (records self.old.table) }
    {
        let index = self.spot(&x);
        self.table.insert(index, x);
    }

    // Takes the record at the index out.
    pub fn cut(&mut self, index: usize)
        requires { index < self.old.table.used }
        ensures lent { StaysLent T.Blank.blank self.old.table self.new.table }
        ensures used { self.new.table.used + 1 ≡ self.old.table.used }
        ensures records { records self.new.table ≡ taken_out index (index + 1) (records self.old.table) }
    {
        prove!(index < self.table.used);
        self.cut_run(index..index + 1);
    }

    // Takes the records of a run of indices out.
    pub fn cut_run(&mut self, run: Range<usize>)
        requires order { run.start ≤ run.end }
        requires there { run.end ≤ self.old.table.used }
        ensures lent { StaysLent T.Blank.blank self.old.table self.new.table }
        ensures used { self.new.table.used + (run.end - run.start) ≡ self.old.table.used }
        ensures records { records self.new.table ≡ taken_out run.start run.end (records self.old.table) }
    {
        self.table.remove_run(run);
    }

    // Writes over the record at the index one that has its place.
    pub fn amend(&mut self, index: usize, x: T)
        requires there { index < self.old.table.used }
        requires place { T.place x ≡ T.place (slice_index_or (records self.old.table) index T.Blank.blank) }
        ensures lent { StaysLent T.Blank.blank self.old.table self.new.table }
        ensures used { self.new.table.used ≡ self.old.table.used }
        ensures records { records self.new.table ≡ slice_set (records self.old.table) index x }
    {
        self.table.set(index, x);
    }

    // Keeps the records that pass the test, and takes the others out.
    pub fn keep<F: FnMut(&T) -> bool>(&mut self, test: F)
        requires { F.IsAlwaysCallable test }
        ensures lent { StaysLent T.Blank.blank self.old.table self.new.table }
        ensures used { self.new.table.used ≤ self.old.table.used }
        ensures records { IsFiltered (CalledAt F.FnMut) test (records self.old.table) (records self.new.table) }
        ensures by_test { (p : T → Bool) → ComputesKey F.FnMut p test → records self.new.table ≡ filter p (records self.old.table) }
    {
        self.table.retain(test);
    }
}
