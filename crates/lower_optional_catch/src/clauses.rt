//! A `catch` without a parameter, and with one (ECMA-262, 14.15).
ghost use Rattle.std.specs.Prelude.{◌≡◌, true};
ghost use Rattle.es_tree.specs.Tree.{fields_of, kind_of, label_of};
ghost use Rattle.es_tree.specs.Views.{plain_fields};
ghost use Rattle.lower_optional_catch.specs.Catches.{has_body_alone, is_lowerable_catch, with_parameter};

use es_scope::flags::SymbolFlags;
use es_tree::kind::Kind;
use es_tree::node::{Field, Node};

/// The flags of the parameter of a `catch` that is one name.
pub(crate) const CATCH_PARAMETER: SymbolFlags = SymbolFlags {
    function_scoped: true,
    block_scoped: false,
    constant: false,
    import: false,
    catch_variable: true,
    class: false,
};

/// Whether the fields are a body and no parameter.
fn has_body_alone(fields: &[Field]) -> bool
    ensures { result ≡ has_body_alone (plain_fields fields.now) }
{
    match fields {
        [parameter, Field::One(..)] => matches!(parameter, Field::Missing),
        _ => false,
    }
}

/// Whether the node is a `catch` without a parameter.
pub(crate) fn is_lowerable(node: &Node) -> bool
    ensures { result ≡ is_lowerable_catch (kind_of node.now) (label_of node.now) (fields_of node.now) }
{
    match &node.kind {
        Kind::CatchClause { .. } => has_body_alone(node.fields.as_slice()),
        _ => false,
    }
}

/// `catch { .. }` becomes `catch (parameter) { .. }`.
pub(crate) fn set_parameter(clause: &mut Node, parameter: Node)
    requires { is_lowerable_catch (kind_of clause.old) (label_of clause.old) (fields_of clause.old) ≡ true }
    ensures { clause.new ≡ with_parameter parameter clause.old }
{
    clause.fields[0] = Field::One(parameter);
}
