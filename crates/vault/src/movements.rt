// A credit or a debit of an amount on an account, as a vault is asked to take it.
ghost use Rattle.std.specs.Prelude.{◌≡◌, ◌≤◌};
ghost use Rattle.vault.specs.Cash.{ceiling};
ghost use Rattle.vault.specs.Movement.{brought, entry_of};

use crate::entries::Entry;
use crate::faults::Fault;
use crate::meaning::CEILING;

#[derive(Clone, Copy)]
pub(crate) enum Direction {
    Credit,
    Debit,
}

#[derive(Clone, Copy)]
pub(crate) struct Movement {
    pub direction: Direction,
    pub account: u8,
    // kuruş
    pub amount: u64,
}

impl Movement {
    // What an account comes to that holds `held`, or the fault that only this direction has.
    pub(crate) fn brings(self, held: u64) -> Result<u64, Fault>
        requires { held ≤ ceiling }
        ensures { result ≡ brought self held }
    {
        match self.direction {
            Direction::Credit if self.amount > CEILING - held => Err(Fault::Ceiling),
            Direction::Credit => Ok(held + self.amount),
            Direction::Debit => held.checked_sub(self.amount).ok_or(Fault::Short),
        }
    }

    // The line of a journal that says it.
    pub(crate) fn entry(self) -> Entry
        requires { self.amount ≤ ceiling }
        ensures { result ≡ entry_of self }
    {
        let amount = self.amount as i64;
        Entry {
            account: self.account,
            amount: match self.direction {
                Direction::Credit => amount,
                Direction::Debit => -amount,
            },
        }
    }
}
