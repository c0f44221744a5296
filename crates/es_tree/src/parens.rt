//! Expressions in parentheses.
ghost use Rattle.std.specs.Prelude.{◌≡◌};
ghost use Rattle.es_tree.specs.Parens.{without_parens};

use crate::kind::Kind;
use crate::node::{Field, Node};

/// The expression below all parentheses around it, or itself where there are none (ECMA-262, 13.2.9).
pub fn strip_parens(expr: &Node) -> &Node
    ensures { result.now ≡ without_parens expr.now }
{
    let mut inner = expr;
    while let (Kind::ParenthesizedExpression, Some(Field::One(child))) = (
        &inner.kind,
        inner.fields.first(),
    ) {
        inner = child;
    }
    inner
}
