// Why a vault refuses a movement.
ghost use Rattle.std.specs.Prelude.{◌≡◌, Some};
ghost use Rattle.vault.specs.Cash.{number, phrase};

use std::error::Error;
use std::fmt;

#[derive(Clone, Copy, PartialEq, Eq, Hash, Debug)]
pub enum Fault {
    // the vault has no such account
    Account = 1,
    // the amount is nothing, or above the ceiling
    Amount = 2,
    // the vault takes no more movements
    Full = 3,
    // a credit would pass the ceiling
    Ceiling = 4,
    // a debit exceeds the balance
    Short = 5,
}

impl From<Fault> for u8 {
    ghost from_gives = { λ fault n. n ≡ number fault };

    fn from(fault: Fault) -> u8 {
        fault as u8
    }
}

impl fmt::Display for Fault {
    ghost output = { λ fault. Some (phrase fault) };

    fn fmt<W: fmt::Write>(&self, f: &mut fmt::Formatter<W>) -> fmt::Result {
        match self {
            Fault::Account => f.write_str("no such account"),
            Fault::Amount => f.write_str("amount is nothing, or above the ceiling"),
            Fault::Full => f.write_str("no movement left"),
            Fault::Ceiling => f.write_str("credit passes the ceiling"),
            Fault::Short => f.write_str("debit exceeds the balance"),
        }
    }
}

impl Error for Fault {}
