// Records with a place in line.
ghost use Rattle.std.specs.Prelude.{◌≡◌, List};
ghost use Rattle.line.specs.Places.{Rank, ahead, Total};

use crate::blank::Blank;

// A kind of record with a place in line: a row of ranks, compared at the first in which two differ.
pub trait Placed: Blank {
    ghost place: { Self → List Rank };

    // Whether this record comes before the other.
    fn before(&self, other: &Self) -> bool
        ensures { result ≡ ahead (place self.now) (place other.now) };
}

// Carries the laws of the order on places; it does nothing else.
pub fn places_are_total()
    ensures { Total }
{}
