//! Where nodes stand, as far as the static rules ask.
use crate::table::Sort;

/// Where a node stands, as far as the static rules ask.
#[derive(Clone, Copy)]
pub enum Place {
    /// Anywhere else.
    Other,
    /// Directly in the program's body.
    ProgramBody,
    /// On the spine of a chain.
    Spine,
    /// What is assigned: a name, a member, or a node of the own kinds of this sort.
    Target(Sort),
    /// In a declaration outside the head of a for-in or for-of: whether that stands directly in the
    /// program's body, whether it is lexical (not `var`), and whether it needs values (`const`, `using`).
    Declarator {
        top: bool,
        lexical: bool,
        constant: bool,
    },
    /// What a declaration in the program's body declares.
    Declared {
        lexical: bool,
    },
}

/// What names are told apart in. Beside it stands the number of the node that has it: that of a scope, a
/// function or a class, and 0 for what a module exports.
#[derive(Clone, Copy, PartialEq, Eq, Hash, Debug)]
pub enum Namespace {
    /// What a scope binds.
    Scope,
    /// The parameters of a function.
    Parameters,
    /// The names by which a module's exports are known outside.
    Exports,
    /// The private names of a class.
    PrivateNames,
    /// What a private name is declared as: two declarations clash where they have a slot in common.
    FirstSlot,
    SecondSlot,
    ThirdSlot,
    FourthSlot,
    /// The constructors of a class.
    Constructors,
}
