// Why the house refuses a call.
ghost use Rattle.std.specs.Prelude.{◌≡◌, Some};
ghost use Rattle.market.specs.Refusals.{refusal_number, refusal_spot};
ghost use Rattle.market.specs.Words.{refusal_words};

use std::error::Error;
use std::fmt;

// The numbers stand for the refusals in a print.
#[derive(Clone, Copy, PartialEq, Eq, Debug)]
pub enum Refusal {
    MemberCount = 1, // a house would open with a count of members out of its range
    Calendar = 2, // a house would open with its first year, or its years, out of range
    TableLength = 3, // a house would open with a lent table of a length that it does not take
    HubRule = 4, // a hub rule would be made with its tax rate, or its share, out of range
    Phase = 10, // the phase does not take the call
    Member = 11, // there is no member of that number
    Contract = 12, // there is no contract of that number
    State = 13, // the contract's state does not take the call
    Cover = 17, // the requirement would exceed the balance
    BasePrice = 30, // a base price, or a rate, is out of its range
    PastInside = 31, // a quarter or year would be listed while a month or quarter inside it is delivering or ended
    Vault = 50, // the vault refused a deposit or a withdrawal
}

impl From<Refusal> for u8 {
    ghost from_gives = { λ refusal n. n ≡ refusal_number refusal };

    fn from(refusal: Refusal) -> u8 {
        refusal as u8
    }
}

impl Refusal {
    // Where in the call the reason lies, 0 where the call has no places. Each refusal is named, so that a new one has to answer.
    pub fn spot(self) -> u32
        ensures { result ≡ refusal_spot self }
    {
        match self {
            Refusal::MemberCount
            | Refusal::Calendar
            | Refusal::TableLength
            | Refusal::HubRule
            | Refusal::Phase
            | Refusal::Member
            | Refusal::Contract
            | Refusal::State
            | Refusal::Cover
            | Refusal::BasePrice
            | Refusal::PastInside
            | Refusal::Vault => 0,
        }
    }
}

// What a refusal means to a clerk.
impl fmt::Display for Refusal {
    ghost output = { λ refusal. Some (refusal_words refusal) };

    fn fmt<W: fmt::Write>(&self, f: &mut fmt::Formatter<W>) -> fmt::Result {
        f.write_str(match self {
            Refusal::MemberCount => "a house has 1 to 64 members",
            Refusal::Calendar => "the first year lies in 2020 to 2090, and there are 1 to 4 years",
            Refusal::TableLength => "a lent table is too short or too long",
            Refusal::HubRule => "the tax rate is at most 2500, and the share at most 10000",
            Refusal::Phase => "the call is not taken in this phase",
            Refusal::Member => "there is no such member",
            Refusal::Contract => "there is no such contract",
            Refusal::State => "the contract's state does not take the call",
            Refusal::Cover => "the requirement would exceed the balance",
            Refusal::BasePrice => "a price lies in 1 to 4000000, and a rate in 1 to 2000",
            Refusal::PastInside => "a month or quarter inside it is delivering or ended",
            Refusal::Vault => "the vault does not take this amount, or takes no more movements",
        })
    }
}

impl Error for Refusal {}
