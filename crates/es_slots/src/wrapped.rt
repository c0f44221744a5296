//! What a slot is wrapped for: the constructs that the options ask to lower, and whose lowering may take or declare a
//! temporary.
ghost use Rattle.std.specs.Prelude.{◌≡◌, ◌&&◌, not, true};
ghost use Rattle.es_tree.specs.Constructs.{is_logical_assignment};
ghost use Rattle.es_tree.specs.Heads.{head_of};
ghost use Rattle.es_tree.specs.Tree.{fields_of, kind_of, label_of};
ghost use Rattle.es_tree.specs.Views.{plain_field};
ghost use Rattle.es_steps.specs.Slots.{closes, holds, holds_field};
ghost use Rattle.es_steps.specs.WrapRule.{is_wrapped_for, takes_for_target};

use crate::constructs::{assigns_nullish, assigns_power, assigns_rest, is_member_target};
use es_nodes::construct::{is_chain, is_logical_assignment, is_nullish_coalescing};
use es_nodes::fields::field_at;
use es_tree::kind::Kind;
use es_tree::node::{Field, Node};
use es_tree::options::EnvOptions;

/// Whether the tree holds what a slot is wrapped for, outside functions, arrows, static blocks and the values of class
/// fields: these have slots or statement lists of their own.
///
/// Looks at each such node at most once. It is asked once for each slot, and what stands in a slot inside another one is
/// closed off by the function or the class between them; so all slots of a program together are searched in one pass.
#[cycle(holds)]
pub fn holds(node: &Node, options: &EnvOptions) -> bool
    ensures { result ≡ holds (is_wrapped_for options.now) node.now }
{
    if is_wrapped_for(node, options) {
        return true;
    }
    for (index, field) in node.fields.iter().enumerate() {
        if holds_in(field, closes(&node.kind, index), options) {
            return true;
        }
    }
    false
}

/// Whether a tree in the field does.
pub fn field_holds(field: &Field, options: &EnvOptions) -> bool
    ensures { result ≡ holds_field (is_wrapped_for options.now) (plain_field field.now) }
{
    holds_in(field, false, options)
}

#[cycle(holds)]
fn holds_in(field: &Field, closed: bool, options: &EnvOptions) -> bool
    ensures { result ≡ (not closed && holds_field (is_wrapped_for options.now) (plain_field field.now)) }
{
    if closed {
        return false;
    }
    match field {
        Field::Missing => false,
        Field::One(node) => holds(node, options),
        Field::Many(nodes) | Field::Statements(nodes) => {
            for node in nodes {
                if holds(node, options) {
                    return true;
                }
            }
            false
        }
    }
}

/// Whether this field of a node of this kind has slots or statement lists of its own.
fn closes(kind: &Kind, index: usize) -> bool
    ensures { result ≡ closes (head_of kind.now).kind index }
{
    match kind {
        Kind::FunctionDeclaration { .. }
        | Kind::FunctionExpression { .. }
        | Kind::ArrowFunctionExpression { .. }
        | Kind::StaticBlock { .. } => true,
        Kind::PropertyDefinition { .. } => index == 1,
        _ => false,
    }
}

/// Whether a slot is wrapped for this node.
fn is_wrapped_for(node: &Node, options: &EnvOptions) -> bool
    ensures { result ≡ is_wrapped_for options.now (kind_of node.now) (label_of node.now) (fields_of node.now) }
{
    (options.es2020.nullish_coalescing_operator && is_nullish_coalescing(node))
        || (options.es2020.optional_chaining && is_chain(node))
        || (options.es2016.exponentiation_operator && assigns_power(node))
        || (options.es2021.logical_assignment_operators && takes_by_logic(node, options))
        || (options.es2018.object_rest_spread.is_some() && assigns_rest(node))
}

/// Whether the node is a logical assignment whose target asks for a temporary.
fn takes_by_logic(node: &Node, options: &EnvOptions) -> bool
    ensures { result ≡ (is_logical_assignment (kind_of node.now) (label_of node.now) (fields_of node.now) && takes_for_target options.now (label_of node.now) (fields_of node.now)) }
{
    is_logical_assignment(node) && takes_for_target(node, options)
}

/// Whether the target of a logical assignment asks for a temporary: a member does, and with `??=` a name, where what that
/// becomes is lowered too.
fn takes_for_target(node: &Node, options: &EnvOptions) -> bool
    ensures { is_logical_assignment (kind_of node.now) (label_of node.now) (fields_of node.now) ≡ true → result ≡ takes_for_target options.now (label_of node.now) (fields_of node.now) }
{
    is_member_target(field_at(node, 0))
        || (options.es2020.nullish_coalescing_operator && assigns_nullish(node))
}
