//! The sorts of nodes, as names for the one type of nodes: they say in signatures what stands there.
use crate::node::Node;

/// An expression (ECMA-262, 13).
pub type Expression = Node;

/// A statement or a declaration (ECMA-262, 14 to 16).
pub type Statement = Node;

/// A binding identifier or pattern, maybe with a default value or as a rest element.
pub type BindingPattern = Node;

/// The left side of an assignment, an assignment pattern, or an element of one.
pub type AssignmentTarget = Node;

/// The key of a property: a name, a literal, or an expression where it is computed.
pub type PropertyKey = Node;

/// The property of a member: a name, or an expression where it is computed.
pub type MemberProperty = Node;

/// A name or a string that names an import or an export.
pub type ModuleExportName = Node;

/// A method, a property or a static block of a class.
pub type ClassElement = Node;

/// The body of an arrow: a function body or an expression.
pub type ArrowFunctionBody = Node;

/// A declaration or an expression.
pub type ForInit = Node;

/// A declaration or an assignment target.
pub type ForLeft = Node;

/// What an import brings in.
pub type ImportItem = Node;

/// A function, a class or an expression.
pub type ExportDefault = Node;

/// An expression or a spread element.
pub type Argument = Node;

/// A property or a spread element.
pub type ObjectMember = Node;

/// A property of a binding pattern or a rest element.
pub type PatternMember = Node;

/// A property of an assignment pattern or a rest element.
pub type TargetMember = Node;

/// An expression, or a private name at the left of `in`.
pub type BinaryLeft = Node;

/// A member or a call.
pub type ChainElement = Node;
