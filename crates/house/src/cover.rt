// What cover a member owes.
ghost use Rattle.std.specs.Prelude.{◌≡◌, ◌*◌, ◌<◌, ◌≤◌, true, unsigned_abs};
ghost use Rattle.market.specs.Calendar.{in_house};
ghost use Rattle.margin.specs.Cover.{positive_part, weight};
ghost use Rattle.books.specs.Books.{result_in};
ghost use Rattle.books.specs.View.{books_of};
ghost use Rattle.history.specs.Books.{position};
ghost use Rattle.history.specs.BooksCover.{contract_adds, added_by_books, required_by_books};
ghost use Rattle.history.specs.Cover.{requirement};
ghost use Rattle.history.specs.Calls.{asked_requirement, known_or_refused};
ghost use Rattle.house.specs.View.{view};

use crate::house::House;
use margin::{MarginRule, Position};
use market::{Contract, ContractState, Event, Refusal};

// The part of every member's requirement that no position changes, in kuruş.
pub const FIXED_REQUIREMENT: u64 = 15_000_000;

// That a member is one of this house is a fact about both, as that a contract is.
impl House<'_> {
    // What a member's closings in a contract earned, kuruş a gas day.
    pub(crate) fn result_of(&self, member: u8, contract: Contract) -> i64
        requires member { member < self.now.books.members }
        requires contract { in_house self.now.books.years contract ≡ true }
        ensures is { result ≡ result_in self.now.books.years (books_of self.now.books) member contract }
        ensures bound { unsigned_abs result ≤ 40960000000000 }
    {
        self.books.result(member, contract)
    }

    // What a member holds in a contract.
    pub(crate) fn position(&self, member: u8, contract: Contract) -> Position
        requires member { member < self.now.books.members }
        requires contract { in_house self.now.books.years contract ≡ true }
        ensures is { result ≡ position (view self.now) member contract }
        ensures bound { weight result ≤ 400000000000000 }
    {
        let held = self.books.lots.holding(member, u16::from(contract) as u8);
        Position {
            net: held.net,
            buys: 0,
            sells: 0,
            result: self.result_of(member, contract),
            value: held.value,
        }
    }

    // What a contract adds to a member's requirement, kuruş.
    fn adds<R: MarginRule>(&self, rule: &R, member: u8, contract: Contract) -> i128
        requires member { member < self.now.books.members }
        requires contract { in_house self.now.books.years contract ≡ true }
        ensures is { result ≡ contract_adds (R.units rule.now) (view self.now) member contract }
        ensures bound { unsigned_abs result ≤ 148800000000000000 }
    {
        match self.state_of(contract) {
            ContractState::Trading | ContractState::Halted => {
                let opening = self.price_of(contract);
                let gas_days = contract.gas_days(self.first_year);
                self.position(member, contract)
                    .added(rule, &opening, gas_days)
            }
            ContractState::Delivering => {
                self.position(member, contract)
                    .loss(contract.gas_days(self.first_year)) as i128
            }
            ContractState::Unlisted | ContractState::Ended => 0,
        }
    }

    // What all contracts add to a member's requirement, kuruş.
    fn added_by_books<R: MarginRule>(&self, rule: &R, member: u8) -> i128
        requires { member < self.now.books.members }
        ensures is { result ≡ added_by_books (R.units rule.now) (view self.now) member }
        ensures bound { unsigned_abs result ≤ 68 * 148800000000000000 }
    {
        // a `for`, since a closure would have to say again that each slot is one of the house
        let years = self.books.years;
        let mut total: i128 = 0;
        for slot in 0..Contract::count(years) {
            total += self.adds(rule, member, self.contract_at(slot));
        }
        total
    }

    // A member's requirement by its books: the fixed part, and what the contracts add, or nothing more where that is negative. No call asks for it yet.
    pub(crate) fn required_by_books<R: MarginRule>(&self, rule: &R, member: u8) -> u64
        requires { member < self.now.books.members }
        ensures { result ≡ required_by_books (R.units rule.now) (view self.now) member }
    {
        FIXED_REQUIREMENT + self.added_by_books(rule, member).max(0) as u64
    }

    // A member's requirement: contracts that are listed add to the fixed part.
    pub(crate) fn required<R: MarginRule>(&self, rule: &R, member: u8) -> u64
        ensures { result ≡ requirement (R.units rule.now) (view self.now) member }
    {
        FIXED_REQUIREMENT
    }

    // Refuses a number that is no member's.
    pub(crate) fn known(&self, member: u8) -> Result<(), Refusal>
        ensures { result ≡ known_or_refused (view self.now) member }
    {
        if member >= self.books.members {
            return Err(Refusal::Member);
        }
        Ok(())
    }

    // Answers a member's requirement under a margin rule, in kuruş.
    pub fn requirement<R: MarginRule>(&self, rule: &R, member: u8) -> Result<u64, Refusal>
        ensures { result ≡ asked_requirement (R.units rule.now) (view self.now) member }
    {
        self.next_phase(Event::Question)?;
        self.known(member)?;
        Ok(self.required(rule, member))
    }
}
