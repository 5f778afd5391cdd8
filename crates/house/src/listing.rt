// Listing, halting and resuming contracts.
ghost use Rattle.std.specs.Prelude.{◌≡◌, true, Some};
ghost use Rattle.market.specs.Calendar.{contract_of, in_house};
ghost use Rattle.market.specs.declared.phase.Event.TheVariants.{Halt};
ghost use Rattle.vault.specs.Cash.{Cash};
ghost use Rattle.vault.specs.Checks.{first_that_holds};
ghost use Rattle.history.specs.State.{beside};
ghost use Rattle.history.specs.Standing.{price_of};
ghost use Rattle.history.specs.Calls.{Admits, outcome, refusal};
ghost use Rattle.history.specs.Listing.{contract_refusals, listing_refusals, listing, halting, resuming_refusals, resuming};
ghost use Rattle.history.specs.History.{list, halt, resume};
ghost use Rattle.history.specs.Laws.{Continues};
ghost use Rattle.house.specs.View.{view, price_in};

use crate::house::House;
use market::{Contract, ContractState, Event, Opening, Refusal};

// A contract that may trade, and the price record it is to have.
#[derive(Clone, Copy)]
pub(crate) struct Listing {
    contract: Contract,
    opening: Opening,
}

impl House<'_> {
    // The checks of a listing.
    fn may_list(&self, number: u8, price: u32, rate: u32) -> Result<Listing, Refusal>
        ensures { Admits result (first_that_holds (listing_refusals (view self.now) number price rate)) (λ l. (contract_of number self.now.books.years ≡ Some l.contract) × (in_house self.now.books.years l.contract ≡ true) × (price_in l.opening ≡ record { price = price; rate = rate })) }
    {
        let contract = self.contract_for(Event::List, number)?;
        let opening = Opening::new(price, rate).ok_or(Refusal::BasePrice)?;
        if self.past_inside(contract) {
            return Err(Refusal::PastInside);
        }
        Ok(Listing { contract, opening })
    }

    // Lists a contract, or says why not.
    fn try_list(&mut self, number: u8, price: u32, rate: u32) -> Result<(), Refusal>
        ensures { outcome result (view self.new) ≡ listing (view self.old) number price rate }
    {
        let listing = self.may_list(number, price, rate)?;
        self.set_contract(listing.contract, ContractState::Trading, listing.opening);
        Ok(())
    }

    // An unlisted contract trades from now on, with a base price in kuruş per thousand Sm³ and a rate in hundredths of a percent.
    pub fn list(&mut self, contract: u8, price: u32, rate: u32) -> Result<(), Refusal>
        ensures does { outcome result (view self.new) ≡ listing (view self.old) contract price rate }
        ensures refused { refusal result ≡ first_that_holds (listing_refusals (view self.old) contract price rate) }
        ensures history { (c : Cash) → Continues (beside (view self.old) c) (list contract price rate) (beside (view self.new) c) }
    {
        self.try_list(contract, price, rate)
    }

    // Halts a contract, or says why not.
    fn try_halt(&mut self, number: u8) -> Result<(), Refusal>
        ensures { outcome result (view self.new) ≡ halting (view self.old) number }
    {
        let contract = self.contract_for(Event::Halt, number)?;
        self.set_state(contract, ContractState::Halted);
        Ok(())
    }

    // A trading contract takes no orders until it is resumed.
    pub fn halt(&mut self, contract: u8) -> Result<(), Refusal>
        ensures does { outcome result (view self.new) ≡ halting (view self.old) contract }
        ensures refused { refusal result ≡ first_that_holds (contract_refusals (view self.old) Halt contract) }
        ensures history { (c : Cash) → Continues (beside (view self.old) c) (halt contract) (beside (view self.new) c) }
    {
        self.try_halt(contract)
    }

    // The checks of a resumption.
    fn may_resume(&self, number: u8, price: u32) -> Result<Listing, Refusal>
        ensures { Admits result (first_that_holds (resuming_refusals (view self.now) number price)) (λ l. (contract_of number self.now.books.years ≡ Some l.contract) × (in_house self.now.books.years l.contract ≡ true) × (price_in l.opening ≡ record { price = price; rate = (price_of (view self.now) l.contract).rate })) }
    {
        let contract = self.contract_for(Event::Resume, number)?;
        let opening = self
            .price_of(contract)
            .with_price(price)
            .ok_or(Refusal::BasePrice)?;
        Ok(Listing { contract, opening })
    }

    // Resumes a contract, or says why not.
    fn try_resume(&mut self, number: u8, price: u32) -> Result<(), Refusal>
        ensures { outcome result (view self.new) ≡ resuming (view self.old) number price }
    {
        let resumption = self.may_resume(number, price)?;
        self.set_contract(
            resumption.contract,
            ContractState::Trading,
            resumption.opening,
        );
        Ok(())
    }

    // A halted contract trades again, with a new base price in kuruş per thousand Sm³ and the rate that it had.
    pub fn resume(&mut self, contract: u8, price: u32) -> Result<(), Refusal>
        ensures does { outcome result (view self.new) ≡ resuming (view self.old) contract price }
        ensures refused { refusal result ≡ first_that_holds (resuming_refusals (view self.old) contract price) }
        ensures history { (c : Cash) → Continues (beside (view self.old) c) (resume contract price) (beside (view self.new) c) }
    {
        self.try_resume(contract, price)
    }
}
