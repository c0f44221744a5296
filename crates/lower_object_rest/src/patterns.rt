//! Which declarations are lowered (ECMA-262, 14.3.3).
ghost use Rattle.std.specs.Prelude.{◌≡◌};
ghost use Rattle.es_tree.specs.Tree.{fields_of, kind_of, label_of, trees};
ghost use Rattle.es_tree.specs.Views.{plain_fields};
ghost use Rattle.es_rest_shapes.specs.RestShapes.{any_tree};
ghost use Rattle.lower_object_rest.specs.Shapes.{are_declarator_fields, has_lowerable, is_lowerable, is_lowerable_declaration};

use es_rest_nodes::patterns::is_plain_pattern;
use es_tree::kind::Kind;
use es_tree::node::{Field, Node};

/// Whether the node is a declaration with a declarator that is lowered.
pub(crate) fn is_lowerable_declaration(node: &Node) -> bool
    ensures { result ≡ is_lowerable_declaration (kind_of node.now) (label_of node.now) (fields_of node.now) }
{
    match &node.kind {
        Kind::VariableDeclaration { .. } => has_lowerable(node.fields.as_slice()),
        _ => false,
    }
}

/// Whether these are declarators, one of which is lowered.
fn has_lowerable(fields: &[Field]) -> bool
    ensures { result ≡ has_lowerable (plain_fields fields.now) }
{
    match fields {
        [Field::Many(declarators)] => any_lowerable(declarators.as_slice()),
        _ => false,
    }
}

fn any_lowerable(declarators: &[Node]) -> bool
    ensures { result ≡ any_tree is_lowerable (trees declarators.now) }
{
    for declarator in declarators {
        if is_lowerable(declarator) {
            return true;
        }
    }
    false
}

/// Whether the node is a declarator of a pattern with a rest, and has a value.
pub(crate) fn is_lowerable(node: &Node) -> bool
    ensures { result ≡ is_lowerable node.now }
{
    match &node.kind {
        Kind::VariableDeclarator => are_declarator_fields(node.fields.as_slice()),
        _ => false,
    }
}

fn are_declarator_fields(fields: &[Field]) -> bool
    ensures { result ≡ are_declarator_fields (plain_fields fields.now) }
{
    match fields {
        [Field::One(pattern), Field::One(..)] => is_plain_pattern(pattern),
        _ => false,
    }
}
