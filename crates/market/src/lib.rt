// The words that the whole house shares: sides and records, the calendar and its contracts, their states and price records, phases and events, refusals.
#![tactic(auto)]

pub mod calendar;
pub mod opening;
pub mod phase;
mod places;
pub mod records;
pub mod refusal;
pub mod state;

pub use calendar::Contract;
pub use opening::{MAX_PRICE, MAX_RATE, Opening, WHOLE};
pub use phase::{Event, Phase};
pub use records::{Lot, MarginCall, Order, Side, Trade};
pub use refusal::Refusal;
pub use state::ContractState;

#[cfg(test)]
mod calendar_tests;
#[cfg(test)]
mod tests;
