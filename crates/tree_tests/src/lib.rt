//! Tests of trees, over the crates that read, make, copy, count and write them. They are a crate of
//! their own, so that no library is proved twice for them.
#![tactic(auto)]

#[cfg(test)]
mod tests;
