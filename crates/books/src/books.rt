// The books of a house: the lots that its members hold open, and what their closings earned.
ghost use Rattle.std.specs.Prelude.{◌≡◌, ◌*◌, ◌<◌, ◌≤◌, true, pos};
ghost use Rattle.line.specs.Tables.{records, whole, held, places, all_blank, Within, Cleared};
ghost use Rattle.market.specs.Calendar.{in_house};
ghost use Rattle.market.specs.Records.{no_lot};

use crate::indices::result_index;
use line::Table;
use lots::Lots;
use market::{Contract, Lot};

// Each member has a result in each contract of these years.
#[derive(Drop)]
pub struct Books<'a> {
    pub lots: Lots<'a>,
    pub results: Table<'a, i64>, // kuruş a gas day, member by member, each by slot
    pub members: u8,
    pub years: u8,
    ghost within: { Within results },
    ghost few: { years ≤ 4 },
    ghost counted: { results.used ≡ members * (17 * years) },
}

impl<'a> Books<'a> {
    // Takes the places as they are, for a house of no members.
    pub fn lent(lots: &'a mut [Lot], results: &'a mut [i64]) -> Books<'a>
        ensures lots { (whole result.lots.line.table ≡ lots.old) × (result.lots.line.table.used ≡ 0) }
        ensures results { (whole result.results ≡ results.old) × (result.results.used ≡ 0) }
        ensures lent { (result.lots.line.table.places.ghost_name ≡ lots.entry.ghost_name) × (result.results.places.ghost_name ≡ results.entry.ghost_name) }
        ensures size { (result.members ≡ 0) × (result.years ≡ 0) }
    {
        Books {
            lots: Lots::lent(lots),
            results: Table::lent(results),
            members: 0,
            years: 0,
        }
    }
}

impl Books<'_> {
    ghost use Rattle.books.specs.Books.{result_in};
    ghost use Rattle.books.specs.View.{books_of};

    // Blanks both tables, for a house of this size: no lot is left, and each result is 0.
    pub fn clear(&mut self, members: u8, years: u8)
        requires few { years ≤ 4 }
        requires room { members * (17 * years) ≤ places (held self.old.results) }
        ensures lots { held self.new.lots.line.table ≡ all_blank no_lot 0 (places (held self.old.lots.line.table)) }
        ensures results { held self.new.results ≡ all_blank (pos 0) (members * (17 * years)) (places (held self.old.results)) }
        ensures used { (self.new.lots.line.table.used ≡ 0) × (self.new.results.used ≡ members * (17 * years)) }
        ensures lent { (self.new.lots.line.table.places.ghost_name ≡ self.old.lots.line.table.places.ghost_name) × (self.new.results.places.ghost_name ≡ self.old.results.places.ghost_name) }
        ensures cleared { Cleared no_lot self.new.lots.line.table × Cleared (pos 0) self.new.results }
        ensures size { (self.new.members ≡ members) × (self.new.years ≡ years) }
    {
        self.lots.clear();
        self.results
            .clear(usize::from(members) * Contract::count(years));
        self.members = members;
        self.years = years;
    }

    // What a member's closings in a contract earned, kuruş a gas day.
    pub fn result(&self, member: u8, contract: Contract) -> i64
        requires member { member < self.now.members }
        requires contract { in_house self.now.years contract ≡ true }
        ensures { result ≡ result_in self.now.years (books_of self.now) member contract }
    {
        self.results.at(result_index(self.years, member, contract))
    }
}
