// A bought or sold quantity arrives at the lots and the results of a house.
ghost use Rattle.std.specs.Prelude.{◌≡◌, ◌+◌, ◌*◌, ◌<◌, ◌≤◌, true, length, pos, ◌+ℤ◌, slice_index_or, slice_set, unsigned_abs};
ghost use Rattle.line.specs.Lines.{Free};
ghost use Rattle.line.specs.Tables.{records, behind, whole, Within, Room, StaysLent};
ghost use Rattle.market.specs.Places.{lot_place};
ghost use Rattle.market.specs.Records.{no_lot};
ghost use Rattle.lots.specs.Lots.{fit};
ghost use Rattle.lots.specs.Closing.{rested, arrived, earnings};
ghost use Rattle.lots.specs.Sums.{weight};
ghost use Rattle.lots.specs.Laws.{Booked};

use crate::close::close;
use crate::table::Lots;
use line::{Line, Table};
use market::Lot;

// A bought or sold quantity, as a lot: it is fit.
#[derive(Clone, Copy)]
pub struct Arrival {
    pub lot: Lot,
    ghost fit: { fit lot ≡ true },
}

impl Lots<'_> {
    // The lot closes opposite lots, what is left of it becomes a lot, and what it earned is added to the result at the index.
    pub fn arrive(&mut self, results: &mut Table<'_, i64>, arrival: Arrival, index: usize)
        requires room { Room self.old.line.table }
        requires free { Free lot_place arrival.lot (records self.old.line.table) }
        requires within { Within results.old }
        requires there { index < results.old.used }
        requires weight { weight arrival.lot.member arrival.lot.contract (slice_index_or (records results.old) index (pos 0)) (records self.old.line.table) ≤ 1000000000000000000 }
        ensures lots { records self.new.line.table ≡ arrived arrival.lot (records self.old.line.table) }
        ensures results { records results.new ≡ slice_set (records results.old) index (slice_index_or (records results.old) index (pos 0) +ℤ earnings arrival.lot (records self.old.line.table)) }
        ensures lent { StaysLent no_lot self.old.line.table self.new.line.table }
        ensures loan { results.new.places.ghost_name ≡ results.old.places.ghost_name }
        ensures length { length (whole results.new) ≡ length (whole results.old) }
        ensures used { (self.new.line.table.used ≤ self.old.line.table.used + 1) × (results.new.used ≡ results.old.used) }
        ensures behind { behind results.new ≡ behind results.old }
        ensures laws { Booked arrival.lot (records self.old.line.table) (records self.new.line.table) (slice_index_or (records results.old) index (pos 0)) (slice_index_or (records results.new) index (pos 0)) }
    {
        let earned = self.take_in(arrival);
        add_result(results, index, earned);
    }

    // The lot closes opposite lots, and what is left of it becomes a lot; answers what it earned.
    fn take_in(&mut self, arrival: Arrival) -> i64
        requires room { Room self.old.line.table }
        requires free { Free lot_place arrival.lot (records self.old.line.table) }
        ensures lent { StaysLent no_lot self.old.line.table self.new.line.table }
        ensures used { self.new.line.table.used ≤ self.old.line.table.used + 1 }
        ensures records { records self.new.line.table ≡ arrived arrival.lot (records self.old.line.table) }
        ensures earned { result ≡ earnings arrival.lot (records self.old.line.table) }
        ensures bound { unsigned_abs result ≤ 4000000 * arrival.lot.quantity }
    {
        let rest = close(&mut self.line, arrival);
        let remainder = Lot {
            quantity: rest.left,
            ..arrival.lot
        };
        put_rest(&mut self.line, remainder);
        rest.earned
    }
}

// Adds an amount, in kuruş a gas day, to the result at the index.
pub fn add_result(results: &mut Table<'_, i64>, index: usize, amount: i64)
    requires within { Within results.old }
    requires there { index < results.old.used }
    requires bound { unsigned_abs (slice_index_or (records results.old) index (pos 0)) + unsigned_abs amount ≤ 2000000000000000000 }
    ensures same { results.new.places.ghost_name ≡ results.old.places.ghost_name }
    ensures used { results.new.used ≡ results.old.used }
    ensures length { length (whole results.new) ≡ length (whole results.old) }
    ensures records { records results.new ≡ slice_set (records results.old) index (slice_index_or (records results.old) index (pos 0) +ℤ amount) }
    ensures behind { behind results.new ≡ behind results.old }
{
    results.places[index] += amount;
}

// Puts what is left of a lot where it belongs, if anything is.
fn put_rest(line: &mut Line<'_, Lot>, lot: Lot)
    requires room { Room line.old.table }
    requires free { Free lot_place lot (records line.old.table) }
    ensures lent { StaysLent no_lot line.old.table line.new.table }
    ensures used { line.new.table.used ≤ line.old.table.used + 1 }
    ensures records { records line.new.table ≡ rested lot (records line.old.table) }
{
    if lot.quantity > 0 {
        line.put(lot);
    }
}
