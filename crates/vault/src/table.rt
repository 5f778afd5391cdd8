// A vault that is a table of balances, and never full.
ghost use Rattle.std.specs.Prelude.{◌≡◌, ℕ, ◌<◌, ◌≤◌, length, slice_index, slice_set, IfOk, IfErr};
ghost use Rattle.vault.specs.Cash.{ceiling, cash_of, outcome, never_full, opened_table};
ghost use Rattle.vault.specs.Movement.{Takes, made};

use crate::faults::Fault;
use crate::meaning::{ACCOUNTS, CEILING, Vault};
use crate::movements::{Direction, Movement};

#[derive(Debug, Drop)]
pub struct BalanceTable {
    // kuruş, by account
    pub(crate) balances: [u64; ACCOUNTS],
    ghost long: { length balances ≡ 64 },
    ghost low: { ((a : ℕ) → slice_index balances a ≤ ceiling) },
}

impl BalanceTable {
    pub fn new() -> BalanceTable
        ensures { never_full result.balances ≡ opened_table }
    {
        BalanceTable {
            balances: [0; ACCOUNTS],
        }
    }

    // What a movement brings its account to, in a vault that can still take `left`, or why it is refused.
    pub(crate) fn balance_after(&self, movement: Movement, left: Option<u64>) -> Result<u64, Fault>
        ensures taken { IfOk result (Takes movement (cash_of self.now.balances left)) }
        ensures refused { IfErr result (λ fault. outcome (Err fault) (cash_of self.now.balances left) ≡ made movement (cash_of self.now.balances left)) }
    {
        if usize::from(movement.account) >= ACCOUNTS {
            return Err(Fault::Account);
        }
        if movement.amount == 0 || movement.amount > CEILING {
            return Err(Fault::Amount);
        }
        if left == Some(0) {
            return Err(Fault::Full);
        }
        movement.brings(self.balances[usize::from(movement.account)])
    }

    // Brings an account to this balance.
    pub(crate) fn set(&mut self, account: u8, balance: u64)
        requires known { account < 64 }
        requires low { balance ≤ ceiling }
        ensures { self.new.balances ≡ slice_set self.old.balances account balance }
    {
        self.balances[usize::from(account)] = balance;
    }

    // Makes a movement, if none of the reasons refuses it.
    fn make(&mut self, movement: Movement) -> Result<(), Fault>
        ensures { outcome result (never_full self.new.balances) ≡ made movement (never_full self.old.balances) }
    {
        let balance = self.balance_after(movement, self.left())?;
        self.set(movement.account, balance);
        Ok(())
    }
}

impl Default for BalanceTable {
    ghost is_default = { λ table. never_full table.balances ≡ opened_table };

    fn default() -> BalanceTable {
        BalanceTable::new()
    }
}

impl Vault for BalanceTable {
    ghost cash = { λ t. never_full t.balances };

    ghost whole = { λ t. record { accounts = t.long; low = t.low } };

    fn balance(&self, account: u8) -> u64 {
        self.balances
            .get(usize::from(account))
            .copied()
            .unwrap_or(0)
    }

    fn left(&self) -> Option<u64> {
        None
    }

    fn credit(&mut self, account: u8, amount: u64) -> Result<(), Fault> {
        self.make(Movement {
            direction: Direction::Credit,
            account,
            amount,
        })
    }

    fn debit(&mut self, account: u8, amount: u64) -> Result<(), Fault> {
        self.make(Movement {
            direction: Direction::Debit,
            account,
            amount,
        })
    }
}
