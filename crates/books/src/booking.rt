// How what a trade brings is booked: a lot arrives at the lots and results of its member.
ghost use Rattle.std.specs.Prelude.{◌≡◌, ◌+◌, ◌<◌, ◌≤◌, true, length};
ghost use Rattle.line.specs.Lines.{Free};
ghost use Rattle.line.specs.Tables.{records, whole, behind, Room, StaysLent};
ghost use Rattle.market.specs.Calendar.{in_house, contract_number};
ghost use Rattle.market.specs.Places.{lot_place};
ghost use Rattle.market.specs.declared.records.Side.TheVariants.{Buy, Sell};
ghost use Rattle.market.specs.Records.{no_lot};
ghost use Rattle.books.specs.Books.{arrival, bought_lot, sold_lot};
ghost use Rattle.books.specs.Laws.{WeighAtMost};
ghost use Rattle.books.specs.View.{books_of};

use crate::books::Books;
use crate::indices::result_index;
use lots::Arrival;
use market::{Contract, Lot, Side, Trade};

// What a trade brings its member on a side.
fn brought(trade: &Trade, side: Side, tape: u32) -> Lot
    ensures bought { side ≡ Buy → result ≡ bought_lot tape trade.now }
    ensures sold { side ≡ Sell → result ≡ sold_lot tape trade.now }
{
    Lot {
        contract: trade.contract,
        member: match side {
            Side::Buy => trade.buyer,
            _ => trade.seller,
        },
        tape,
        side,
        quantity: trade.quantity,
        price: trade.price,
    }
}

impl Books<'_> {
    // A lot of a contract arrives at the books of its member.
    fn book_lot(&mut self, contract: Contract, arriving: Arrival)
        requires house { in_house self.old.years contract ≡ true }
        requires member { arriving.lot.member < self.old.members }
        requires contract { arriving.lot.contract ≡ contract_number contract }
        requires free { Free lot_place arriving.lot (records self.old.lots.line.table) }
        requires room { Room self.old.lots.line.table }
        requires weighed { WeighAtMost 1000000000000000 self.old.members self.old.years contract (books_of self.old) }
        ensures does { books_of self.new ≡ arrival self.old.years contract arriving.lot (books_of self.old) }
        ensures lent { StaysLent no_lot self.old.lots.line.table self.new.lots.line.table }
        ensures loan { self.new.results.places.ghost_name ≡ self.old.results.places.ghost_name }
        ensures length { length (whole self.new.results) ≡ length (whole self.old.results) }
        ensures used { self.new.lots.line.table.used ≤ self.old.lots.line.table.used + 1 }
        ensures behind { behind self.new.results ≡ behind self.old.results }
        ensures size { (self.new.members ≡ self.old.members) × (self.new.years ≡ self.old.years) }
    {
        let index = result_index(self.years, arriving.lot.member, contract);
        self.lots.arrive(&mut self.results, arriving, index);
    }
}
