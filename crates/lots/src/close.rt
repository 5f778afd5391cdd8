// How an arriving lot closes opposite lots of its member in its contract, the lowest tape number first.
// These functions work on the line of a `Lots`, and ask again for what it keeps: within an arrival its fields hold only at the end.
ghost use Rattle.std.specs.Prelude.{◌≡◌, ◌+◌, ◌*◌, ◌<◌, ◌≤◌, true, false, ◌++◌, length, get_or, take, drop, slice_index_or, unsigned_abs};
ghost use Rattle.std.specs.List.{AllByRecursion};
ghost use Rattle.line.specs.Places.{ahead};
ghost use Rattle.line.specs.Lines.{each};
ghost use Rattle.line.specs.Tables.{records, StaysLent};
ghost use Rattle.market.specs.Records.{no_lot};
ghost use Rattle.market.specs.Places.{lot_place};
ghost use Rattle.lots.specs.Lots.{first_place, opposes, fit, one_sided};
ghost use Rattle.lots.specs.Closing.{difference, earns, closing, with_earned};

use crate::arrival::Arrival;
use crate::place::first_key;
use line::Line;
use market::{Lot, Side};

// What is left of an arriving quantity, and what its closings earned.
#[derive(Clone, Copy)]
pub(crate) struct Rest {
    pub left: u32, // thousand Sm³ a gas day
    pub earned: i64, // kuruş a gas day
}

// Whether the lot is of the member and contract of the first, and on the other side.
fn opposes(first: &Lot, lot: &Lot) -> bool
    ensures { result ≡ opposes first.now lot.now }
{
    if lot.member != first.member || lot.contract != first.contract {
        return false;
    }
    matches!(
        (first.side, lot.side),
        (Side::Buy, Side::Sell) | (Side::Sell, Side::Buy)
    )
}

// A quantity × (sold price less bought price).
pub(crate) fn difference(quantity: u32, sold: u32, bought: u32) -> i64
    requires quantity { quantity ≤ 2500 }
    requires sold { sold ≤ 4000000 }
    requires bought { bought ≤ 4000000 }
    ensures is { result ≡ difference quantity sold bought }
    ensures bound { unsigned_abs result ≤ 4000000 * quantity }
{
    i64::from(quantity) * (i64::from(sold) - i64::from(bought))
}

// What closing a quantity earns, where the arriving side and price are given, and the price of the lot closed.
fn earns(side: Side, quantity: u32, price: u32, closed: u32) -> i64
    requires quantity { quantity ≤ 2500 }
    requires price { price ≤ 4000000 }
    requires closed { closed ≤ 4000000 }
    ensures is { result ≡ earns side quantity price closed }
    ensures bound { unsigned_abs result ≤ 4000000 * quantity }
{
    match side {
        Side::Free => 0,
        Side::Buy => difference(quantity, closed, price),
        Side::Sell => difference(quantity, price, closed),
    }
}

// Goes over the opposite lots from an index on that the arriving lot uses up whole: answers the index behind them, and the rest.
fn used_up(line: &Line<'_, Lot>, from: usize, arrival: Arrival) -> (usize, Rest)
    requires fitting { each fit (records line.now.table) ≡ true }
    requires there { from ≤ line.now.table.used }
    ensures order { from ≤ result.0 }
    ensures within { result.0 ≤ line.now.table.used }
    ensures bound { unsigned_abs result.1.earned + 4000000 * result.1.left ≤ 4000000 * arrival.lot.quantity }
    ensures does { closing arrival.lot arrival.lot.quantity (drop from (records line.now.table)) ≡ with_earned result.1.earned (closing arrival.lot result.1.left (drop result.0 (records line.now.table))) }
    ensures stops { result.0 < line.now.table.used → opposes arrival.lot (slice_index_or (records line.now.table) result.0 no_lot) ≡ true → result.1.left < (get_or (records line.now.table) result.0 no_lot).quantity }
{
    let mut left = arrival.lot.quantity;
    let mut earned: i64 = 0;
    for (index, next) in line.records()[from..].iter().enumerate() {
        if !opposes(&arrival.lot, next) || next.quantity > left {
            return (from + index, Rest { left, earned });
        }
        earned += earns(
            arrival.lot.side,
            next.quantity,
            arrival.lot.price,
            next.price,
        );
        left -= next.quantity;
    }
    (line.records().len(), Rest { left, earned })
}

// Closes a part of the lot at the index, if it is an opposite one: what is left of the arriving lot does not use it up.
fn close_part(line: &mut Line<'_, Lot>, index: usize, arrival: Arrival, left: u32) -> Rest
    requires fitting { each fit (records line.old.table) ≡ true }
    requires sided { one_sided (records line.old.table) ≡ true }
    requires there { index ≤ line.old.table.used }
    requires behind { AllByRecursion (λ l. ahead (lot_place l) (first_place arrival.lot.member arrival.lot.contract) ≡ false) (drop index (records line.old.table)) }
    requires more { index < line.old.table.used → opposes arrival.lot (slice_index_or (records line.old.table) index no_lot) ≡ true → left < (get_or (records line.old.table) index no_lot).quantity }
    requires left { left ≤ arrival.lot.quantity }
    ensures lent { StaysLent no_lot line.old.table line.new.table }
    ensures used { line.new.table.used ≡ line.old.table.used }
    ensures records { records line.new.table ≡ take index (records line.old.table) ++ (closing arrival.lot left (drop index (records line.old.table))).lots }
    ensures left { result.left ≡ (closing arrival.lot left (drop index (records line.old.table))).left }
    ensures earned { result.earned ≡ (closing arrival.lot left (drop index (records line.old.table))).earned }
    ensures bound { unsigned_abs result.earned + 4000000 * result.left ≤ 4000000 * left }
{
    if index < line.table.used {
        let next = line.table.at(index);
        if opposes(&arrival.lot, &next) {
            let earned = earns(arrival.lot.side, left, arrival.lot.price, next.price);
            let part = Lot {
                quantity: next.quantity - left,
                ..next
            };
            line.amend(index, part);
            return Rest { left: 0, earned };
        }
    }
    Rest { left, earned: 0 }
}

// Closes opposite lots of the arriving lot's member in its contract, the lowest tape number first.
pub(crate) fn close(line: &mut Line<'_, Lot>, arrival: Arrival) -> Rest
    requires fitting { each fit (records line.old.table) ≡ true }
    requires sided { one_sided (records line.old.table) ≡ true }
    ensures lent { StaysLent no_lot line.old.table line.new.table }
    ensures used { line.new.table.used ≤ line.old.table.used }
    ensures records { records line.new.table ≡ (closing arrival.lot arrival.lot.quantity (records line.old.table)).lots }
    ensures left { result.left ≡ (closing arrival.lot arrival.lot.quantity (records line.old.table)).left }
    ensures earned { result.earned ≡ (closing arrival.lot arrival.lot.quantity (records line.old.table)).earned }
    ensures bound { unsigned_abs result.earned + 4000000 * result.left ≤ 4000000 * arrival.lot.quantity }
{
    let from = line.spot(&first_key(arrival.lot.member, arrival.lot.contract));
    let (upto, whole) = used_up(line, from, arrival);
    let part = close_part(line, upto, arrival, whole.left);
    line.cut_run(from..upto);
    Rest {
        left: part.left,
        earned: whole.earned + part.earned,
    }
}
