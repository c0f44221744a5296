//! Where a node stands, as far as the lowering of `using` asks (Explicit Resource Management).

/// What a node is to the one that it stands in.
#[derive(Clone, Copy)]
pub enum Standing {
    /// A block of a `try`, a `catch` or a `finally`, which stays a block (ECMA-262, 14.15).
    Part,
    /// What a label names, which goes where its label goes (14.13).
    Labelled,
    /// Anything else.
    Anywhere,
}
