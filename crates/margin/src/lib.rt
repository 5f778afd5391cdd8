// What a margin rule means, and the two rules of the house: the gas rule and the hub rule.
#![tactic(auto)]

pub mod chosen;
pub mod gas;
pub mod hub;
pub mod position;
pub mod rule;

pub use chosen::ChosenRule;
pub use gas::GasRule;
pub use hub::{HubRule, MAX_SHARE, MAX_TAX};
pub use position::{Position, cover_figures_stand};
pub use rule::MarginRule;

#[cfg(test)]
mod position_tests;
#[cfg(test)]
mod tests;
