// Scripts of calls: one call to a line, run on one house and one vault, in order, each line answered.
#![tactic(auto)]

mod answers;
mod desk;
mod program;
mod report;
mod running;
mod session;
mod summary;
mod tables;

pub use program::serve;
pub use report::Report;
pub use running::run;
pub use summary::Summary;
