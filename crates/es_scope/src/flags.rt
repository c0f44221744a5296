//! What is known of a scope, of a symbol and of a reference.

/// What a scope is.
#[derive(Clone, Copy, PartialEq, Eq, Debug)]
pub struct ScopeFlags {
    /// The scope of a function or an arrow.
    pub function: bool,
    pub arrow: bool,
    /// The scope of the program.
    pub top: bool,
    pub class_static_block: bool,
    pub catch_clause: bool,
    pub constructor: bool,
    /// The constructor of a class that extends another.
    pub derived: bool,
    /// Whether its code is strict (ECMA-262, 11.2.2).
    pub strict: bool,
}

/// How a symbol was declared.
#[derive(Clone, Copy, PartialEq, Eq, Debug)]
pub struct SymbolFlags {
    pub function_scoped: bool,
    pub block_scoped: bool,
    /// Its binding can't be written.
    pub constant: bool,
    pub import: bool,
    pub catch_variable: bool,
    pub class: bool,
}

/// Whether a reference reads its name, and whether it writes it.
#[derive(Clone, Copy, PartialEq, Eq, Debug)]
pub struct ReferenceFlags {
    pub read: bool,
    pub write: bool,
}
