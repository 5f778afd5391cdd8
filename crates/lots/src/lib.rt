// The lots that members hold in contracts, what an arriving quantity makes of them, and what a member holds.
#![tactic(auto)]

mod arrival;
mod close;
mod figures;
mod place;
mod position;
mod table;

pub use arrival::{Arrival, add_result};
pub use figures::figures_stand;
pub use position::Holding;
pub use table::Lots;

#[cfg(test)]
mod tests;
