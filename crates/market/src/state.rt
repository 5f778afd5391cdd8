// The states that a contract goes through.
ghost use Rattle.std.specs.Prelude.{◌≡◌};
ghost use Rattle.market.specs.States.{is_unlisted, is_trading, is_halted, is_listed, is_delivering, is_past, state_takes};

use crate::phase::Event;

#[derive(Clone, Copy, PartialEq, Eq, Debug)]
pub enum ContractState {
    Unlisted,
    Trading,
    Halted,
    Delivering,
    Ended,
}

// Each is a word of the rules with its own definition. A comparison would be no plainer: two of them stand for two states.
impl ContractState {
    pub fn is_unlisted(self) -> bool
        ensures { result ≡ is_unlisted self }
    {
        matches!(self, ContractState::Unlisted)
    }

    pub fn is_trading(self) -> bool
        ensures { result ≡ is_trading self }
    {
        matches!(self, ContractState::Trading)
    }

    pub fn is_halted(self) -> bool
        ensures { result ≡ is_halted self }
    {
        matches!(self, ContractState::Halted)
    }

    // Whether it is listed, trading or halted.
    pub fn is_listed(self) -> bool
        ensures { result ≡ is_listed self }
    {
        matches!(self, ContractState::Trading | ContractState::Halted)
    }

    pub fn is_delivering(self) -> bool
        ensures { result ≡ is_delivering self }
    {
        matches!(self, ContractState::Delivering)
    }

    // Whether its listing is over: it is in delivery, or has ended.
    pub fn is_past(self) -> bool
        ensures { result ≡ is_past self }
    {
        matches!(self, ContractState::Delivering | ContractState::Ended)
    }

    // Whether a call of this event takes a contract in this state; an event that names no contract takes every one.
    pub fn takes(self, event: Event) -> bool
        ensures { result ≡ state_takes event self }
    {
        match event {
            Event::List => self.is_unlisted(),
            Event::Order | Event::Halt => self.is_trading(),
            Event::Resume => self.is_halted(),
            Event::Cascade | Event::Close => self.is_listed(),
            Event::Settle => self.is_delivering(),
            _ => true,
        }
    }
}
