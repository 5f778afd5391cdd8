#![tactic(auto)]

// What scripts of every form are answered, by the crate `script`.
#[cfg(test)]
mod tests;
