//! Rows of calls of the stores and of helpers, by example: the expected texts were worked out by hand.
#![tactic(auto)]

#[cfg(test)]
mod rows;
#[cfg(test)]
mod trees;
