//! Tests of the names and contexts of es_scope, in a crate of their own, so that it isn't proved twice for them.
#![tactic(auto)]

#[cfg(test)]
mod tests;
