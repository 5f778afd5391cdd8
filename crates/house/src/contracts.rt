// The contracts of a house: finding one by its number, and its state and price record.
ghost use Rattle.std.specs.Prelude.{◌≡◌, ◌+◌, ◌*◌, ◌<◌, ◌≤◌, true, IfOk, Some, map};
ghost use Rattle.market.specs.Calendar.{contract_of, contract_at, in_house};
ghost use Rattle.market.specs.declared.state.ContractState.TheVariants.{Unlisted};
ghost use Rattle.vault.specs.Checks.{first_that_holds};
ghost use Rattle.history.specs.Standing.{no_price, state_of, price_of, with_contract, with_state, past_inside};
ghost use Rattle.history.specs.Calls.{Admits, found_or_refused};
ghost use Rattle.history.specs.Listing.{contract_refusals};
ghost use Rattle.house.specs.View.{view, price_in, state_in};
ghost use Rattle.house.specs.Runs.{any_past};

use crate::house::{House, Standing};
use market::{Contract, ContractState, Event, Opening, Refusal};

impl Standing {
    // How every contract stands when the house opens.
    pub(crate) fn unlisted() -> Standing
        ensures state { result.state ≡ Unlisted }
        ensures opening { price_in result.opening ≡ no_price }
    {
        Standing {
            state: ContractState::Unlisted,
            opening: Opening::placeholder(),
        }
    }
}

// That a contract is one of this house is a fact about both, so it stands in clauses and in no type.
impl House<'_> {
    // The contract of a number.
    pub(crate) fn contract(&self, number: u8) -> Result<Contract, Refusal>
        ensures found { result ≡ found_or_refused (contract_of number self.now.books.years) }
        ensures within { IfOk result (λ c. in_house self.now.books.years c ≡ true) }
    {
        Contract::of(number, self.books.years).ok_or(Refusal::Contract)
    }

    // The contract of a slot.
    pub(crate) fn contract_at(&self, slot: usize) -> Contract
        requires { slot < 17 * self.now.books.years }
        ensures { result ≡ contract_at self.now.books.years slot }
    {
        Contract::at(slot, self.books.years)
    }

    // Its state.
    pub(crate) fn state_of(&self, contract: Contract) -> ContractState
        requires { in_house self.now.books.years contract ≡ true }
        ensures { result ≡ state_of (view self.now) contract }
    {
        self.contracts[contract.slot(self.books.years)].state
    }

    // Its price record.
    pub(crate) fn price_of(&self, contract: Contract) -> Opening
        requires { in_house self.now.books.years contract ≡ true }
        ensures { price_in result ≡ price_of (view self.now) contract }
    {
        self.contracts[contract.slot(self.books.years)].opening
    }

    // A contract that a call of this event may name: the checks of the phase, the number and the state.
    pub(crate) fn contract_for(&self, event: Event, number: u8) -> Result<Contract, Refusal>
        ensures { Admits result (first_that_holds (contract_refusals (view self.now) event number)) (λ c. (contract_of number self.now.books.years ≡ Some c) × (in_house self.now.books.years c ≡ true)) }
    {
        self.next_phase(event)?;
        let contract = self.contract(number)?;
        if !self.state_of(contract).takes(event) {
            return Err(Refusal::State);
        }
        Ok(contract)
    }

    // Whether one of so many contracts from a slot on is delivering or ended.
    fn any_past(&self, from: usize, count: usize) -> bool
        requires { from + count ≤ 68 }
        ensures { result ≡ any_past (map state_in self.now.contracts) from count }
    {
        self.contracts[from..from + count]
            .iter()
            .any(|contract| contract.state.is_past())
    }

    // Whether a month or a quarter inside a contract is delivering or ended.
    pub(crate) fn past_inside(&self, contract: Contract) -> bool
        requires { in_house self.now.books.years contract ≡ true }
        ensures { result ≡ past_inside (view self.now) contract }
    {
        match contract {
            Contract::Month(_) => false,
            Contract::Quarter(quarter) => self.any_past(3 * usize::from(quarter), 3),
            Contract::Year(year) => {
                let at = usize::from(year);
                let quarters = 12 * usize::from(self.books.years) + 4 * at;
                self.any_past(quarters, 4) || self.any_past(12 * at, 12)
            }
        }
    }

    // Gives a contract another state.
    pub(crate) fn set_state(&mut self, contract: Contract, state: ContractState)
        requires { in_house self.old.books.years contract ≡ true }
        ensures { view self.new ≡ with_state (view self.old) contract state }
    {
        let at = contract.slot(self.books.years);
        self.contracts[at].state = state;
    }

    // Gives a contract another state and price record.
    pub(crate) fn set_contract(
        &mut self,
        contract: Contract,
        state: ContractState,
        opening: Opening,
    )
        requires { in_house self.old.books.years contract ≡ true }
        ensures { view self.new ≡ with_contract (view self.old) contract state (price_in opening) }
    {
        let at = contract.slot(self.books.years);
        self.contracts[at] = Standing { state, opening };
    }
}
