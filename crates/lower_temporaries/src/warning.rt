//! Warnings: what a lowering found and has no way to lower.
use es_tree::ids::Span;

/// What is warned of.
#[derive(Clone, Copy, PartialEq, Eq, Debug)]
pub enum WarningKind {
    /// A BigInt literal (ECMA-262, 12.9.3).
    BigInt,
    /// A string that names an import or an export (ECMA-262, 16.2).
    ModuleName,
}

/// A warning, with the place in the source text.
#[derive(Clone, Copy, PartialEq, Eq, Debug)]
pub struct Warning {
    pub kind: WarningKind,
    pub span: Span,
}
