// What every vault means and promises.
ghost use Rattle.std.specs.Prelude.{◌≡◌};
ghost use Rattle.vault.specs.Cash.{Cash, Whole, balance, outcome, credited, debited};

use crate::faults::Fault;

// kuruş: no balance and no amount is above it
pub const CEILING: u64 = 100_000_000_000_000_000;

// accounts are numbered from 0 to 63
pub const ACCOUNTS: usize = 64;

pub trait Vault {
    ghost cash: { Self → Cash };

    // kuruş
    fn balance(&self, account: u8) -> u64
        ensures { result ≡ balance (cash self.now) account };

    // the movements that it can still take, or None if it is never full
    fn left(&self) -> Option<u64>
        ensures { result ≡ (cash self.now).left };

    // amount in kuruş
    fn credit(&mut self, account: u8, amount: u64) -> Result<(), Fault>
        ensures moves { outcome result (cash self.new) ≡ credited (cash self.old) account amount };

    // amount in kuruş
    fn debit(&mut self, account: u8, amount: u64) -> Result<(), Fault>
        ensures moves { outcome result (cash self.new) ≡ debited (cash self.old) account amount };

    // what every vault keeps
    ghost whole: { (v : Self) → Whole (cash v) };
}
