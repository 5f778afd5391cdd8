// Tables in memory that a caller lends: records at the front, blank places behind them, and the records in line where they have places.
#![tactic(auto)]

mod blank;
mod lined;
mod placed;
mod sift;
mod table;

pub use blank::Blank;
pub use lined::Line;
pub use placed::{Placed, places_are_total};
pub use table::Table;

#[cfg(test)]
mod tests;
