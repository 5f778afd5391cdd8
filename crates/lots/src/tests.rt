// Arrivals of one member in contract 0, whose result is the first, through the running code.
ghost use Rattle.std.specs.Prelude.{◌≡◌, ◌+◌, ◌*◌, ◌<◌, ◌≤◌, true, [], length, pos, slice_index_or};
ghost use Rattle.line.specs.Tables.{records, whole, Within, Cleared};
ghost use Rattle.market.specs.Records.{no_lot};
ghost use Rattle.lots.specs.Lots.{fit};
ghost use Rattle.lots.specs.Sums.{weight};

use crate::{Arrival, Lots};
use line::Table;
use market::{Lot, Side};

fn lot_of(tape: u32, side: Side, quantity: u32, price: u32) -> Lot
    ensures { result ≡ record { contract = 0; member = 0; tape = tape; side = side; quantity = quantity; price = price } }
{
    Lot {
        contract: 0,
        member: 0,
        tape,
        side,
        quantity,
        price,
    }
}

// Lets the lot arrive where there is room and its place is free; `count` arrivals came before it.
fn enter(lots: &mut Lots<'_>, results: &mut Table<'_, i64>, lot: Lot, count: u32) -> bool
    requires own { (lot.member ≡ 0) × (lot.contract ≡ 0) }
    requires fit { fit lot ≡ true }
    requires cleared { Cleared no_lot lots.old.line.table }
    requires within { Within results.old }
    requires there { 0 < results.old.used }
    requires few { count < 1000 }
    requires weight { weight 0 0 (slice_index_or (records results.old) 0 (pos 0)) (records lots.old.line.table) ≤ 10000000000 * count }
    ensures length { length (whole lots.new.line.table) ≡ length (whole lots.old.line.table) }
    ensures cleared { Cleared no_lot lots.new.line.table }
    ensures within { Within results.new }
    ensures there { 0 < results.new.used }
    ensures weight { weight 0 0 (slice_index_or (records results.new) 0 (pos 0)) (records lots.new.line.table) ≤ 10000000000 * (count + 1) }
{
    if !lots.line.table.is_full() && lots.line.free(&lot) {
        lots.arrive(results, Arrival { lot }, 0);
        true
    } else {
        false
    }
}

// Empties the table of lots, and lets three lots arrive.
fn enter_three(lots: &mut Lots<'_>, results: &mut Table<'_, i64>, a: Lot, b: Lot, c: Lot) -> bool
    requires within { Within results.old }
    requires there { 0 < results.old.used }
    requires zero { slice_index_or (records results.old) 0 (pos 0) ≡ pos 0 }
    requires first { (a.member ≡ 0) × (a.contract ≡ 0) × (fit a ≡ true) }
    requires second { (b.member ≡ 0) × (b.contract ≡ 0) × (fit b ≡ true) }
    requires third { (c.member ≡ 0) × (c.contract ≡ 0) × (fit c ≡ true) }
    ensures length { length (whole lots.new.line.table) ≡ length (whole lots.old.line.table) }
    ensures cleared { Cleared no_lot lots.new.line.table }
    ensures within { Within results.new }
    ensures there { 0 < results.new.used }
{
    lots.clear();
    enter(lots, results, a, 0) && enter(lots, results, b, 1) && enter(lots, results, c, 2)
}

#[test]
fn worked_figure(rt: HostRuntime) {
    let mut places = [Lot::default(); 4];
    let mut lots = Lots::lent(&mut places);
    let mut figures = [0i64; 2];
    let mut results = Table {
        places: &mut figures,
        used: 1,
    };
    let entered = enter_three(
        &mut lots,
        &mut results,
        lot_of(1, Side::Buy, 10, 1_000_000),
        lot_of(2, Side::Buy, 5, 1_020_000),
        lot_of(3, Side::Sell, 12, 1_010_000),
    );
    assert!(rt; entered);
    assert_eq!(rt; results.at(0), 80_000);
    assert!(rt; lots.line.table.used == 1);
    assert_eq!(rt; lots.records()[0].tape, 2);
    assert_eq!(rt; lots.records()[0].quantity, 3);
    let holding = lots.holding(0, 0);
    assert_eq!(rt; holding.net, 3);
    assert_eq!(rt; holding.value, -3_060_000);
}

#[test]
fn remainder_turns_the_side(rt: HostRuntime) {
    let mut places = [Lot::default(); 4];
    let mut lots = Lots::lent(&mut places);
    let mut figures = [0i64; 2];
    let mut results = Table {
        places: &mut figures,
        used: 1,
    };
    let entered = enter_three(
        &mut lots,
        &mut results,
        lot_of(4, Side::Sell, 10, 900),
        lot_of(7, Side::Sell, 5, 800),
        lot_of(5, Side::Buy, 20, 1_000),
    );
    assert!(rt; entered);
    assert_eq!(rt; results.at(0), -2_000);
    assert!(rt; lots.line.table.used == 1);
    assert_eq!(rt; lots.records()[0].tape, 5);
    let holding = lots.holding(0, 0);
    assert_eq!(rt; holding.net, 5);
    assert_eq!(rt; holding.value, -5_000);
    let other = lots.holding(1, 0);
    assert_eq!(rt; other.net, 0);
}
