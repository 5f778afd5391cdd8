// What a run of a script leaves: all that it wrote, and the counts.
// That the output ends with the counts stands in the clauses: the fact holds the text before them, and a field keeps only what has one value.
use crate::summary::Summary;

#[derive(Drop)]
pub struct Report {
    pub output: Vec<u8>,
    pub summary: Summary,
}
