// The clearing house: lending, opening, the phases of the day, contracts and their listing, cash and cover.
#![tactic(auto)]

mod cash;
mod contracts;
mod cover;
mod figures;
mod house;
mod listing;
mod opening;
mod phases;
mod views;

pub use figures::figures_stand;
pub use house::House;
