// A vault that is a journal: each movement is written into a list that the caller lends, in the order taken.
ghost use Rattle.std.specs.Prelude.{◌≡◌, ◌≤◌, take};
ghost use Rattle.std.proofs.Common.{rules};
ghost use Rattle.vault.specs.Cash.{credited, debited};
ghost use Rattle.vault.specs.Entries.{places, cleared, credit_entry, debit_entry, balances_of, meant, opened_journal, Sums, Free};
ghost use Rattle.vault.specs.Movement.{made, entry_of};

use crate::entries::Entry;
use crate::faults::Fault;
use crate::meaning::Vault;
use crate::movements::{Direction, Movement};
use crate::table::BalanceTable;

// a journal uses no more places than this of the list that it is lent
pub const JOURNAL_PLACES: usize = 65_536;

#[derive(Debug, Drop)]
pub struct Journal<'a> {
    // lent by the caller, since a vault takes no memory of its own: so a count stands beside it
    entries: &'a mut [Entry],
    // how many places hold an entry
    used: usize,
    // the sums of the entries, kept so that a balance is read and not summed anew
    balances: BalanceTable,
    ghost within: { used ≤ places entries.now },
    ghost agree: { balances.balances ≡ balances_of entries.now used },
    ghost sums: { Sums entries.now used },
    ghost free: { Free entries.now used },
}

impl<'a> Journal<'a> {
    ghost use Rattle.vault.specs.Journal.{Posts};

    // `lent`: the list stays the caller's, who finds in it what the journal wrote once the journal is let go.
    pub fn new(entries: &'a mut [Entry]) -> Journal<'a>
        ensures list { result.entries.now ≡ cleared entries.old }
        ensures used { result.used ≡ 0 }
        ensures lent { result.entries.ghost_name ≡ entries.entry.ghost_name }
        ensures opens { meant result.entries.now result.used ≡ opened_journal entries.old }
    {
        let room = entries.len().min(JOURNAL_PLACES);
        entries[..room].fill(Entry::default());
        Journal {
            entries,
            used: 0,
            balances: BalanceTable::new(),
        }
    }

    // the entries taken so far
    pub fn entries(&self) -> &[Entry]
        ensures { result.now ≡ take self.now.used self.now.entries.now }
    {
        &self.entries[..self.used]
    }

    // Makes a movement, and writes its entry at the first free place.
    fn post(&mut self, movement: Movement) -> Result<(), Fault>
        ensures { Posts self.old self.new result (made movement) (entry_of movement) }
    {
        let balance = self.balances.balance_after(movement, self.left())?;
        self.entries[self.used] = movement.entry();
        self.used += 1;
        self.balances.set(movement.account, balance);
        Ok(())
    }
}

impl Vault for Journal<'_> {
    ghost use Rattle.vault.specs.Journal.{Posts};

    ghost cash = { λ j. meant j.entries.now j.used };

    ghost whole = { λ j. Prim.search rules };

    fn balance(&self, account: u8) -> u64 {
        self.balances.balance(account)
    }

    fn left(&self) -> Option<u64> {
        Some((self.entries.len().min(JOURNAL_PLACES) - self.used) as u64)
    }

    fn credit(&mut self, account: u8, amount: u64) -> Result<(), Fault>
        ensures { Posts self.old self.new result (λ c. credited c account amount) (credit_entry account amount) }
    {
        let credit = Movement {
            direction: Direction::Credit,
            account,
            amount,
        };
        self.post(credit)
    }

    fn debit(&mut self, account: u8, amount: u64) -> Result<(), Fault>
        ensures { Posts self.old self.new result (λ c. debited c account amount) (debit_entry account amount) }
    {
        self.post(Movement {
            direction: Direction::Debit,
            account,
            amount,
        })
    }
}
