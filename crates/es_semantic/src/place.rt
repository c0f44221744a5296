//! Where a node stands, as far as scopes and names ask (ECMA-262, 8.2, 9.1 and 13.1).
use es_scope::flags::ReferenceFlags;
use es_tree::ids::ScopeId;

/// How a name is declared.
#[derive(Clone, Copy, PartialEq, Eq, Debug)]
pub enum Binding {
    /// By `var` (ECMA-262, 14.3.2).
    Variable,
    /// By `let` (ECMA-262, 14.3.1).
    Let,
    /// By `const`, or by `using` of the Explicit Resource Management proposal.
    Constant,
    /// By a function declaration at the top of a body, where it is one of `var` (ECMA-262, 8.2.8).
    TopFunction,
    /// By any other function declaration.
    BlockFunction,
    /// By a parameter of a function or an arrow (ECMA-262, 15.1).
    Parameter,
    /// By the parameter of a catch clause (ECMA-262, 14.15).
    CatchParameter,
    /// By a function expression, for itself (ECMA-262, 15.2.5).
    FunctionName,
    /// By a class, for itself or around it (ECMA-262, 15.7).
    Class,
    /// By an import (ECMA-262, 16.2.2).
    Import,
}

/// What stands at a place.
#[derive(Clone, Copy, PartialEq, Eq, Debug)]
pub enum Role {
    /// An identifier refers to nothing here, as the name of a property or of a label.
    Nothing,
    /// An identifier is declared here, by itself or in a pattern.
    Binds(Binding),
    /// An identifier refers to a name here.
    Refers(ReferenceFlags),
    /// A statement at the top of a body.
    Top,
    /// A member of the body of a class, and whether the class extends another.
    Member(bool),
    /// The function of a constructor, and whether its class extends another.
    Constructor(bool),
}

/// A place: what stands there, the scope that it stands in, the one in which `var` declares, the one of the
/// parameters of the function whose body that is, and whether its code is strict.
#[derive(Clone, Copy)]
pub(crate) struct Place {
    pub(crate) role: Role,
    pub(crate) scope: ScopeId,
    pub(crate) hoist: ScopeId,
    pub(crate) parameters: Option<ScopeId>,
    pub(crate) strict: bool,
}

/// The scopes that a node makes by itself: that of the name of a function expression, and its own.
#[derive(Clone, Copy)]
pub(crate) struct OwnScopes {
    pub(crate) name: Option<ScopeId>,
    pub(crate) own: Option<ScopeId>,
}
