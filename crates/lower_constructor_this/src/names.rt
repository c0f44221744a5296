//! Whether a name stands in what is gone through: a name of its bindings and references, or that of a function there.
//!
//! Before and after, since `_this` stands in it:
//!
//!     { var _this = this; _this(); super(); }
//!
//! The rules are `names_it` and those below it, of es_constructor_this.
ghost use Rattle.std.specs.Prelude.{◌≡◌, bytes_eq, true};
ghost use Rattle.es_tree.specs.Heads.{head_of, label};
ghost use Rattle.es_tree.specs.Names.{is_name_place};
ghost use Rattle.es_tree.specs.Tree.{trees};
ghost use Rattle.es_tree.specs.Views.{plain_field, plain_fields};
ghost use Rattle.es_tree.specs.declared.ids.NodeId.{NodeId};
ghost use Rattle.es_tree.specs.declared.ids.Span.{Span};
ghost use Rattle.es_set_this.specs.ConstructorThis.{names_among, names_by, names_first, names_in, names_it};
ghost use Rattle.lower_constructor_this.specs.Parts.{is_called};

use crate::calls::is_closed;
use es_scope::names::{is_first_name, is_second_name};
use es_tree::kind::Kind;
use es_tree::node::{Field, Node};

/// Whether the name stands in these nodes.
#[cycle(names)]
pub(crate) fn names_among(name: &str, nodes: &[Node]) -> bool
    ensures { result ≡ names_among name.now (trees nodes.now) }
{
    for node in nodes {
        if names_it(name, node, true) {
            return true;
        }
    }
    false
}

/// Whether it stands in this node; an identifier that is the node itself counts or not.
#[cycle(names)]
fn names_it(name: &str, node: &Node, counts: bool) -> bool
    ensures { result ≡ names_it name.now counts node.now }
{
    if counts && is_called(node, name) {
        return true;
    }
    if is_closed(&node.kind) {
        names_first(name, node.fields.as_slice())
    } else {
        names_in(name, &node.kind, node.fields.as_slice())
    }
}

/// Whether it stands in the first of the fields of a function, where its own name does.
#[cycle(names)]
fn names_first(name: &str, fields: &[Field]) -> bool
    ensures { result ≡ names_first name.now (plain_fields fields.now) }
{
    match fields {
        [first, ..] => names_by(name, first, true),
        [] => false,
    }
}

/// Whether it stands in one of the fields of a node of this kind.
#[cycle(names)]
fn names_in(name: &str, kind: &Kind, fields: &[Field]) -> bool
    ensures { (id : NodeId) (span : Span) → result ≡ names_in name.now (is_name_place (head_of kind.now).kind (label id span (head_of kind.now))) (plain_fields fields.now) }
{
    for (index, field) in fields.iter().enumerate() {
        if names_by(name, field, is_name_place(kind, index)) {
            return true;
        }
    }
    false
}

/// Whether it stands in the field, where an identifier counts or not.
#[cycle(names)]
fn names_by(name: &str, field: &Field, counts: bool) -> bool
    ensures { result ≡ names_by name.now counts (plain_field field.now) }
{
    match field {
        Field::Missing => false,
        Field::One(node) => names_it(name, node, counts),
        Field::Many(nodes) | Field::Statements(nodes) => names_among(name, nodes.as_slice()),
    }
}

/// Whether the node is an identifier of this name.
fn is_called(node: &Node, name: &str) -> bool
    ensures { result ≡ is_called name.now node.now }
{
    match &node.kind {
        Kind::Identifier { name: own, .. } => own.as_str() == name,
        _ => false,
    }
}

/// Whether an identifier that stands in this field of a node of this kind is a name.
fn is_name_place(kind: &Kind, index: usize) -> bool
    ensures { (id : NodeId) (span : Span) → result ≡ is_name_place (head_of kind.now).kind (label id span (head_of kind.now)) index }
{
    match index {
        0 => is_first_name(kind),
        1 => is_second_name(kind),
        _ => true,
    }
}
