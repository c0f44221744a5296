//! Tests of the visit of programs of any kind, by a type that counts its hooks. They are a crate of their own, so that no
//! library is proved twice for them.
#![tactic(auto)]

#[cfg(test)]
mod every_kind;
#[cfg(test)]
mod hook_counts;
#[cfg(test)]
mod tests;
