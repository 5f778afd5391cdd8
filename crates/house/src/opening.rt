// Lending a house its tables, and opening it.
ghost use Rattle.std.specs.Prelude.{◌≡◌, ◌≤◌};
ghost use Rattle.line.specs.Tables.{places};
ghost use Rattle.history.specs.Calls.{outcome, refusal, figures, wrong_lengths, unopened, newly_opened, opening, opening_refusals, Admits};
ghost use Rattle.history.specs.Laws.{Begins};
ghost use Rattle.vault.specs.Checks.{first_that_holds};
ghost use Rattle.house.specs.View.{view};

use crate::house::{House, SLOTS, Standing};
use books::Books;
use line::{Line, Table};
use market::{Contract, Event, Lot, Order, Phase, Refusal, Trade};

pub const MAX_MEMBERS: u8 = 64;

pub const FIRST_YEAR: u16 = 2020;

pub const LAST_FIRST_YEAR: u16 = 2090;

pub const MAX_YEARS: u8 = 4;

pub const MAX_ORDERS: usize = 256;

pub const MAX_LOTS: usize = 8_192;

pub const MAX_TRADES: usize = 4_096;

// The size that a house may open with.
#[derive(Clone, Copy)]
struct Size {
    members: u8,
    first_year: u16,
    years: u8,
    ghost peopled: { (1 ≤ members) × (members ≤ 64) },
    ghost dated: { (2020 ≤ first_year) × (first_year ≤ 2090) × (1 ≤ years) × (years ≤ 4) },
}

// How many results a house of this size has.
fn figures(members: u8, years: u8) -> usize
    ensures { result ≡ figures members years }
{
    usize::from(members) * Contract::count(years)
}

impl<'a> House<'a> {
    // A house over the lent tables, not open yet. It touches none of their places.
    pub fn lend(
        orders: &'a mut [Order],
        lots: &'a mut [Lot],
        tape: &'a mut [Trade],
        results: &'a mut [i64],
    ) -> House<'a>
        ensures { view result ≡ unopened orders.old lots.old tape.old results.old }
    {
        House {
            orders: Line::lent(orders),
            books: Books::lent(lots, results),
            tape: Table::lent(tape),
            phase: Phase::Unopened,
            first_year: 0,
            next_number: 1,
            contracts: [Standing::unlisted(); SLOTS],
        }
    }
}

impl House<'_> {
    // Whether a lent table is too short or too long for a house of this size.
    fn wrong_lengths(&self, members: u8, years: u8) -> bool
        ensures { result ≡ wrong_lengths (view self.now) members years }
    {
        !(1..=MAX_ORDERS).contains(&self.orders.table.length())
            || !(1..=MAX_LOTS).contains(&self.books.lots.line.table.length())
            || !(1..=MAX_TRADES).contains(&self.tape.length())
            || self.books.results.length() < figures(members, years)
    }

    // The checks of an opening.
    fn may_open(&self, members: u8, first_year: u16, years: u8) -> Result<Size, Refusal>
        ensures { Admits result (first_that_holds (opening_refusals (view self.now) members first_year years)) (λ size. (size.members ≡ members) × (size.first_year ≡ first_year) × (size.years ≡ years)) }
    {
        self.next_phase(Event::Open)?;
        if !(1..=MAX_MEMBERS).contains(&members) {
            return Err(Refusal::MemberCount);
        }
        if !(FIRST_YEAR..=LAST_FIRST_YEAR).contains(&first_year) {
            return Err(Refusal::Calendar);
        }
        if !(1..=MAX_YEARS).contains(&years) {
            return Err(Refusal::Calendar);
        }
        if self.wrong_lengths(members, years) {
            return Err(Refusal::TableLength);
        }
        Ok(Size {
            members,
            first_year,
            years,
        })
    }

    // Blanks the four tables to their full length, and sets the house's size.
    fn begin(&mut self, size: Size)
        requires room { figures size.members size.years ≤ places (view self.old).results }
        requires lengths { (places (view self.old).orders ≤ 256) × (places (view self.old).lots ≤ 8192) × (places (view self.old).tape ≤ 4096) }
        ensures { view self.new ≡ newly_opened (view self.old) size.members size.first_year size.years }
    {
        self.orders.clear();
        self.books.clear(size.members, size.years);
        self.tape.clear(0);
        self.phase = Phase::Evening;
        self.first_year = size.first_year;
        self.next_number = 1;
        self.contracts = [Standing::unlisted(); SLOTS];
    }

    // Opens the house, or says why not.
    fn try_open(&mut self, members: u8, first_year: u16, years: u8) -> Result<(), Refusal>
        ensures { outcome result (view self.new) ≡ opening (view self.old) members first_year years }
    {
        let size = self.may_open(members, first_year, years)?;
        self.begin(size);
        Ok(())
    }

    // Opens the house in the evening, with every place of its tables blank.
    pub fn open(&mut self, members: u8, first_year: u16, years: u8) -> Result<(), Refusal>
        ensures does { outcome result (view self.new) ≡ opening (view self.old) members first_year years }
        ensures refused { refusal result ≡ first_that_holds (opening_refusals (view self.old) members first_year years) }
        ensures history { Begins result (view self.new) }
    {
        self.try_open(members, first_year, years)
    }
}
