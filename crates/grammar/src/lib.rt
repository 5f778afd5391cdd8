// What the lines of a script say: their words and numbers, and what each line asks for.
#![tactic(auto)]

pub mod commands;
pub mod forms;
mod kinds;
mod numbers;
mod parsing;
mod words;

pub use commands::{Command, Lending, VaultKind, What};
pub use forms::Form;
pub use kinds::{begun_after, is_copied, lent_by};
pub use numbers::number_up_to;
pub use words::{Lines, first_line};
