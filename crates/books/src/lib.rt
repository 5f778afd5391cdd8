// The books: lots and results together, and how a lot arrives in them.
#![tactic(auto)]

mod booking;
mod books;
mod indices;

pub use books::Books;
pub use indices::result_index;
