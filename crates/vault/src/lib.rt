// Vaults: a balance for each of 64 accounts, and the movements that a vault can still take.
#![tactic(auto)]

pub mod entries;
pub mod faults;
pub mod meaning;
mod movements;
pub mod posting;
pub mod table;

pub use entries::Entry;
pub use faults::Fault;
pub use meaning::{ACCOUNTS, CEILING, Vault};
pub use posting::{JOURNAL_PLACES, Journal};
pub use table::BalanceTable;

#[cfg(test)]
mod tests;
