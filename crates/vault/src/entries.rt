// A line of a journal.
#[derive(Clone, Copy, PartialEq, Eq, Hash, Default, Debug)]
pub struct Entry {
    pub account: u8,
    // kuruş: above zero for a credit, below zero for a debit
    pub amount: i64,
}
