//! Object literals with a spread (ECMA-262, 13.2.5) whose properties can't be defined in other literals and copied.
ghost use Rattle.std.specs.Prelude.{◌≡◌, ◌||◌, bytes_eq, codes, not};
ghost use Rattle.es_tree.specs.Constructs.{is_spread};
ghost use Rattle.es_tree.specs.Names.{first_text, flag_at};
ghost use Rattle.es_tree.specs.Tree.{fields_of, kind_of, label_of, trees};
ghost use Rattle.es_tree.specs.Views.{plain_field, plain_fields};
ghost use Rattle.es_tree.specs.Words.{property_kind_text};
ghost use Rattle.es_nodes.specs.MaybeFields.{maybe_field};
ghost use Rattle.es_unsupported.specs.SpreadLiterals.{any_among, are_parted, completes, has_super, has_uncopied, holds_super, holds_super_by, holds_super_in, holds_super_in_key, is_getter, is_prototype_key, is_prototype_name, is_setter, is_uncopied, no_accessor, sets_prototype, uses_super, with_property};

use es_nodes::construct::is_object_spread;
use es_nodes::fields::field_at;
use es_tree::kind::Kind;
use es_tree::node::{Field, Node};
use es_tree::operators::PropertyKind;

/// Whether the node is an object literal with a spread, and a property of it sets its prototype, uses `super`, or is an accessor whose other
/// half may stand on the other side of a spread.
pub(crate) fn is_uncopied(node: &Node) -> bool
    ensures { result ≡ is_uncopied (kind_of node.now) (label_of node.now) (fields_of node.now) }
{
    is_object_spread(node) && has_uncopied(field_at(node, 0))
}

fn has_uncopied(properties: Option<&Field>) -> bool
    ensures { result ≡ has_uncopied (maybe_field properties.entry) }
{
    match properties {
        Some(Field::Many(nodes)) => {
            any_sets_prototype(nodes) || any_uses_super(nodes) || are_parted(nodes)
        }
        _ => false,
    }
}

fn any_sets_prototype(properties: &[Node]) -> bool
    ensures { result ≡ any_among sets_prototype (trees properties.now) }
{
    for property in properties {
        if sets_prototype(property) {
            return true;
        }
    }
    false
}

/// Whether a property is `__proto__: v`.
fn sets_prototype(property: &Node) -> bool
    ensures { result ≡ sets_prototype property.now }
{
    match &property.kind {
        Kind::ObjectProperty {
            kind,
            method,
            shorthand,
            computed,
        } => {
            is_init(*kind)
                && !(*method || *shorthand || *computed)
                && is_prototype_key(field_at(property, 0))
        }
        _ => false,
    }
}

fn is_init(kind: PropertyKind) -> bool
    ensures { result ≡ bytes_eq (property_kind_text kind) (codes "init") }
{
    matches!(kind, PropertyKind::Init)
}

fn is_prototype_key(key: Option<&Field>) -> bool
    ensures { result ≡ is_prototype_key (maybe_field key.entry) }
{
    match key {
        Some(Field::One(name)) => is_prototype_name(name),
        _ => false,
    }
}

fn is_prototype_name(name: &Node) -> bool
    ensures { result ≡ is_prototype_name name.now }
{
    match &name.kind {
        Kind::Identifier { name, .. } => name.as_str() == "__proto__",
        Kind::StringLiteral { value } => value.as_str() == "__proto__",
        _ => false,
    }
}

fn any_uses_super(properties: &[Node]) -> bool
    ensures { result ≡ any_among uses_super (trees properties.now) }
{
    for property in properties {
        if uses_super(property) {
            return true;
        }
    }
    false
}

/// Whether a property is a method or an accessor that uses `super`.
fn uses_super(property: &Node) -> bool
    ensures { result ≡ uses_super property.now }
{
    match &property.kind {
        Kind::ObjectProperty { kind, method, .. } => {
            (*method || !is_init(*kind)) && has_super(field_at(property, 1))
        }
        _ => false,
    }
}

fn has_super(function: Option<&Field>) -> bool
    ensures { result ≡ has_super (maybe_field function.entry) }
{
    match function {
        Some(Field::One(node)) => match &node.kind {
            Kind::FunctionExpression { .. } => holds_super_in(node.fields.as_slice()),
            _ => false,
        },
        _ => false,
    }
}

/// Whether a `super` of the function around stands in the node.
#[cycle(holds)]
fn holds_super(node: &Node) -> bool
    ensures { result ≡ holds_super node.now }
{
    match &node.kind {
        Kind::Super => true,
        Kind::FunctionDeclaration { .. }
        | Kind::FunctionExpression { .. }
        | Kind::StaticBlock { .. } => false,
        Kind::PropertyDefinition { .. } => holds_super_in_key(node.fields.as_slice()),
        _ => holds_super_in(node.fields.as_slice()),
    }
}

/// Whether one stands in the first of these fields.
#[cycle(holds)]
fn holds_super_in_key(fields: &[Field]) -> bool
    ensures { result ≡ holds_super_in_key (plain_fields fields.now) }
{
    match fields {
        [key, ..] => holds_super_by(key),
        [] => false,
    }
}

#[cycle(holds)]
fn holds_super_in(fields: &[Field]) -> bool
    ensures { result ≡ holds_super_in (plain_fields fields.now) }
{
    for field in fields {
        if holds_super_by(field) {
            return true;
        }
    }
    false
}

#[cycle(holds)]
fn holds_super_by(field: &Field) -> bool
    ensures { result ≡ holds_super_by (plain_field field.now) }
{
    match field {
        Field::Missing => false,
        Field::One(node) => holds_super(node),
        Field::Many(nodes) | Field::Statements(nodes) => {
            for node in nodes {
                if holds_super(node) {
                    return true;
                }
            }
            false
        }
    }
}

/// Whether a getter and a setter stand on two sides of a spread.
fn are_parted(properties: &[Node]) -> bool
    ensures { result ≡ are_parted no_accessor no_accessor (trees properties.now) }
{
    let mut earlier = Accessors::none();
    let mut so_far = Accessors::none();
    for property in properties {
        if earlier.is_completed_by(property) {
            return true;
        }
        if is_spread(property) {
            earlier = so_far;
        }
        so_far = so_far.with_property(property);
    }
    false
}

/// Which accessors stand among some properties.
#[derive(Clone, Copy)]
struct Accessors {
    getter: bool,
    setter: bool,
}

impl Accessors {
    fn none() -> Accessors
        ensures { result ≡ no_accessor }
    {
        Accessors {
            getter: false,
            setter: false,
        }
    }

    /// With this property.
    fn with_property(self, property: &Node) -> Accessors
        ensures { result ≡ with_property property.now self }
    {
        Accessors {
            getter: self.getter || is_getter(property),
            setter: self.setter || is_setter(property),
        }
    }

    /// Whether the property is an accessor whose other half may be among these.
    fn is_completed_by(self, property: &Node) -> bool
        ensures { result ≡ completes self property.now }
    {
        (self.setter && is_getter(property)) || (self.getter && is_setter(property))
    }
}

fn is_getter(property: &Node) -> bool
    ensures { result ≡ is_getter property.now }
{
    match &property.kind {
        Kind::ObjectProperty { kind, .. } => matches!(kind, PropertyKind::Get),
        _ => false,
    }
}

fn is_setter(property: &Node) -> bool
    ensures { result ≡ is_setter property.now }
{
    match &property.kind {
        Kind::ObjectProperty { kind, .. } => matches!(kind, PropertyKind::Set),
        _ => false,
    }
}

fn is_spread(property: &Node) -> bool
    ensures { result ≡ is_spread (kind_of property.now) }
{
    matches!(property.kind, Kind::SpreadElement)
}
