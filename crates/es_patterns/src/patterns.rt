//! Binding patterns and assignment patterns.
ghost use Rattle.std.specs.Prelude.{IfOk, ◌≡◌, ◌+◌, ◌-◌, ◌^◌, ◌<◌, None};
ghost use Rattle.es_patterns.specs.PatternsArity.{
  IsObjectPattern,
  IsPatternProperty,
  IsArrayPattern,
  IsAssignmentPattern,
  IsRestElement,
  IsObjectTarget,
  IsTargetProperty,
  IsArrayTarget,
  IsTargetWithDefault,
  IsTargetRest,
};
ghost use Rattle.es_patterns.specs.PatternsPlain.{
  plain_object_pattern,
  plain_pattern_property,
  plain_array_pattern,
  plain_assignment_pattern,
  plain_rest_element,
  plain_object_target,
  plain_target_property,
  plain_array_target,
  plain_target_with_default,
  plain_target_rest,
};

use es_tree::builder::AstBuilder;
use es_tree::ids::{NodeId, Span};
use es_tree::kind::Kind;
use es_tree::node::{Field, Node, Parts, exactly};
use es_tree::sorts::{
    AssignmentTarget, BindingPattern, Expression, PatternMember, PropertyKey, TargetMember,
};
use std::alloc::{AllocError, Global};

/// An object pattern that binds (ECMA-262, 14.3.3).
#[derive(Drop)]
pub struct ObjectPattern {
    pub id: NodeId,
    pub span: Span,
    pub properties: Vec<PatternMember>,
}

impl ObjectPattern {
    /// Takes the node apart.
    pub fn open(node: Node) -> ObjectPattern
        requires { IsObjectPattern node }
        ensures { plain_object_pattern result ≡ node }
    {
        let Parts {
            id,
            span,
            kind,
            fields,
        } = node.into_parts();
        match kind {
            Kind::ObjectPattern => {}
            _other => unreachable!(),
        }
        let [properties]: [Field; 1] = exactly(fields);
        ObjectPattern {
            id,
            span,
            properties: properties.into_nodes(),
        }
    }

    /// The node of these parts.
    pub fn close(self, alloc: Global) -> Result<Node, AllocError>
        ensures { IfOk result (λ node. node ≡ plain_object_pattern self) }
    {
        let ObjectPattern {
            id,
            span,
            properties,
        } = self;
        let kind = Kind::ObjectPattern;
        let fields = Vec::from_array(alloc, [Field::Many(properties)])?;
        Ok(Node {
            id,
            span,
            kind,
            fields,
        })
    }
}

/// A node `ObjectPattern` with a new id and without marks.
pub fn new_object_pattern(
    ast: &mut AstBuilder,
    span: Span,
    properties: Vec<PatternMember>,
) -> Result<Node, AllocError>
    requires { ast.old.next < 2 ^ 32 - 1 }
    ensures made { IfOk result (λ node. node ≡ plain_object_pattern (record { id = record { 0 = ast.old.next }; span = span; properties = properties })) }
    ensures counted { ast.new.next ≡ ast.old.next + 1 }
{
    let id = ast.new_id();
    let made = ObjectPattern {
        id,
        span,
        properties,
    };
    made.close(ast.alloc)
}

/// A property of an object pattern that binds (ECMA-262, 14.3.3).
#[derive(Drop)]
pub struct PatternProperty {
    pub id: NodeId,
    pub span: Span,
    pub shorthand: bool,
    pub computed: bool,
    pub key: PropertyKey,
    pub value: BindingPattern,
}

impl PatternProperty {
    /// Takes the node apart.
    pub fn open(node: Node) -> PatternProperty
        requires { IsPatternProperty node }
        ensures { plain_pattern_property result ≡ node }
    {
        let Parts {
            id,
            span,
            kind,
            fields,
        } = node.into_parts();
        let (shorthand, computed) = match kind {
            Kind::PatternProperty {
                shorthand,
                computed,
            } => (shorthand, computed),
            _other => unreachable!(),
        };
        let [key, value]: [Field; 2] = exactly(fields);
        PatternProperty {
            id,
            span,
            shorthand,
            computed,
            key: key.into_node(),
            value: value.into_node(),
        }
    }

    /// The node of these parts.
    pub fn close(self, alloc: Global) -> Result<Node, AllocError>
        ensures { IfOk result (λ node. node ≡ plain_pattern_property self) }
    {
        let PatternProperty {
            id,
            span,
            shorthand,
            computed,
            key,
            value,
        } = self;
        let kind = Kind::PatternProperty {
            shorthand,
            computed,
        };
        let fields = Vec::from_array(alloc, [Field::One(key), Field::One(value)])?;
        Ok(Node {
            id,
            span,
            kind,
            fields,
        })
    }
}

/// A node `PatternProperty` with a new id and without marks.
pub fn new_pattern_property(
    ast: &mut AstBuilder,
    span: Span,
    shorthand: bool,
    computed: bool,
    key: PropertyKey,
    value: BindingPattern,
) -> Result<Node, AllocError>
    requires { ast.old.next < 2 ^ 32 - 1 }
    ensures made { IfOk result (λ node. node ≡ plain_pattern_property (record { id = record { 0 = ast.old.next }; span = span; shorthand = shorthand; computed = computed; key = key; value = value })) }
    ensures counted { ast.new.next ≡ ast.old.next + 1 }
{
    let id = ast.new_id();
    let made = PatternProperty {
        id,
        span,
        shorthand,
        computed,
        key,
        value,
    };
    made.close(ast.alloc)
}

/// An array pattern that binds (ECMA-262, 14.3.3).
#[derive(Drop)]
pub struct ArrayPattern {
    pub id: NodeId,
    pub span: Span,
    pub elements: Vec<Field>,
}

impl ArrayPattern {
    /// Takes the node apart.
    pub fn open(node: Node) -> ArrayPattern
        requires { IsArrayPattern node }
        ensures { plain_array_pattern result ≡ node }
    {
        let Parts {
            id,
            span,
            kind,
            fields,
        } = node.into_parts();
        match kind {
            Kind::ArrayPattern => {}
            _other => unreachable!(),
        }
        let elements = fields;
        ArrayPattern { id, span, elements }
    }

    /// The node of these parts.
    pub fn close(self, alloc: Global) -> Result<Node, AllocError>
        ensures { IfOk result (λ node. node ≡ plain_array_pattern self) }
    {
        let ArrayPattern { id, span, elements } = self;
        let kind = Kind::ArrayPattern;
        Ok(Node {
            id,
            span,
            kind,
            fields: elements,
        })
    }
}

/// A node `ArrayPattern` with a new id and without marks.
pub fn new_array_pattern(
    ast: &mut AstBuilder,
    span: Span,
    elements: Vec<Field>,
) -> Result<Node, AllocError>
    requires { ast.old.next < 2 ^ 32 - 1 }
    ensures made { IfOk result (λ node. node ≡ plain_array_pattern (record { id = record { 0 = ast.old.next }; span = span; elements = elements })) }
    ensures counted { ast.new.next ≡ ast.old.next + 1 }
{
    let id = ast.new_id();
    let made = ArrayPattern { id, span, elements };
    made.close(ast.alloc)
}

/// A binding with a default value (ECMA-262, 14.3.3).
#[derive(Drop)]
pub struct AssignmentPattern {
    pub id: NodeId,
    pub span: Span,
    pub left: BindingPattern,
    pub right: Expression,
}

impl AssignmentPattern {
    /// Takes the node apart.
    pub fn open(node: Node) -> AssignmentPattern
        requires { IsAssignmentPattern node }
        ensures { plain_assignment_pattern result ≡ node }
    {
        let Parts {
            id,
            span,
            kind,
            fields,
        } = node.into_parts();
        match kind {
            Kind::AssignmentPattern => {}
            _other => unreachable!(),
        }
        let [left, right]: [Field; 2] = exactly(fields);
        AssignmentPattern {
            id,
            span,
            left: left.into_node(),
            right: right.into_node(),
        }
    }

    /// The node of these parts.
    pub fn close(self, alloc: Global) -> Result<Node, AllocError>
        ensures { IfOk result (λ node. node ≡ plain_assignment_pattern self) }
    {
        let AssignmentPattern {
            id,
            span,
            left,
            right,
        } = self;
        let kind = Kind::AssignmentPattern;
        let fields = Vec::from_array(alloc, [Field::One(left), Field::One(right)])?;
        Ok(Node {
            id,
            span,
            kind,
            fields,
        })
    }
}

/// A node `AssignmentPattern` with a new id and without marks.
pub fn new_assignment_pattern(
    ast: &mut AstBuilder,
    span: Span,
    left: BindingPattern,
    right: Expression,
) -> Result<Node, AllocError>
    requires { ast.old.next < 2 ^ 32 - 1 }
    ensures made { IfOk result (λ node. node ≡ plain_assignment_pattern (record { id = record { 0 = ast.old.next }; span = span; left = left; right = right })) }
    ensures counted { ast.new.next ≡ ast.old.next + 1 }
{
    let id = ast.new_id();
    let made = AssignmentPattern {
        id,
        span,
        left,
        right,
    };
    made.close(ast.alloc)
}

/// A rest element that binds (ECMA-262, 14.3.3).
#[derive(Drop)]
pub struct RestElement {
    pub id: NodeId,
    pub span: Span,
    pub argument: BindingPattern,
}

impl RestElement {
    /// Takes the node apart.
    pub fn open(node: Node) -> RestElement
        requires { IsRestElement node }
        ensures { plain_rest_element result ≡ node }
    {
        let Parts {
            id,
            span,
            kind,
            fields,
        } = node.into_parts();
        match kind {
            Kind::RestElement => {}
            _other => unreachable!(),
        }
        let [argument]: [Field; 1] = exactly(fields);
        RestElement {
            id,
            span,
            argument: argument.into_node(),
        }
    }

    /// The node of these parts.
    pub fn close(self, alloc: Global) -> Result<Node, AllocError>
        ensures { IfOk result (λ node. node ≡ plain_rest_element self) }
    {
        let RestElement { id, span, argument } = self;
        let kind = Kind::RestElement;
        let fields = Vec::from_array(alloc, [Field::One(argument)])?;
        Ok(Node {
            id,
            span,
            kind,
            fields,
        })
    }
}

/// A node `RestElement` with a new id and without marks.
pub fn new_rest_element(
    ast: &mut AstBuilder,
    span: Span,
    argument: BindingPattern,
) -> Result<Node, AllocError>
    requires { ast.old.next < 2 ^ 32 - 1 }
    ensures made { IfOk result (λ node. node ≡ plain_rest_element (record { id = record { 0 = ast.old.next }; span = span; argument = argument })) }
    ensures counted { ast.new.next ≡ ast.old.next + 1 }
{
    let id = ast.new_id();
    let made = RestElement { id, span, argument };
    made.close(ast.alloc)
}

/// An object pattern that assigns (ECMA-262, 13.15.5).
#[derive(Drop)]
pub struct ObjectTarget {
    pub id: NodeId,
    pub span: Span,
    pub properties: Vec<TargetMember>,
}

impl ObjectTarget {
    /// Takes the node apart.
    pub fn open(node: Node) -> ObjectTarget
        requires { IsObjectTarget node }
        ensures { plain_object_target result ≡ node }
    {
        let Parts {
            id,
            span,
            kind,
            fields,
        } = node.into_parts();
        match kind {
            Kind::ObjectTarget => {}
            _other => unreachable!(),
        }
        let [properties]: [Field; 1] = exactly(fields);
        ObjectTarget {
            id,
            span,
            properties: properties.into_nodes(),
        }
    }

    /// The node of these parts.
    pub fn close(self, alloc: Global) -> Result<Node, AllocError>
        ensures { IfOk result (λ node. node ≡ plain_object_target self) }
    {
        let ObjectTarget {
            id,
            span,
            properties,
        } = self;
        let kind = Kind::ObjectTarget;
        let fields = Vec::from_array(alloc, [Field::Many(properties)])?;
        Ok(Node {
            id,
            span,
            kind,
            fields,
        })
    }
}

/// A node `ObjectTarget` with a new id and without marks.
pub fn new_object_target(
    ast: &mut AstBuilder,
    span: Span,
    properties: Vec<TargetMember>,
) -> Result<Node, AllocError>
    requires { ast.old.next < 2 ^ 32 - 1 }
    ensures made { IfOk result (λ node. node ≡ plain_object_target (record { id = record { 0 = ast.old.next }; span = span; properties = properties })) }
    ensures counted { ast.new.next ≡ ast.old.next + 1 }
{
    let id = ast.new_id();
    let made = ObjectTarget {
        id,
        span,
        properties,
    };
    made.close(ast.alloc)
}

/// A property of an object pattern that assigns (ECMA-262, 13.15.5).
#[derive(Drop)]
pub struct TargetProperty {
    pub id: NodeId,
    pub span: Span,
    pub shorthand: bool,
    pub computed: bool,
    pub key: PropertyKey,
    pub value: AssignmentTarget,
}

impl TargetProperty {
    /// Takes the node apart.
    pub fn open(node: Node) -> TargetProperty
        requires { IsTargetProperty node }
        ensures { plain_target_property result ≡ node }
    {
        let Parts {
            id,
            span,
            kind,
            fields,
        } = node.into_parts();
        let (shorthand, computed) = match kind {
            Kind::TargetProperty {
                shorthand,
                computed,
            } => (shorthand, computed),
            _other => unreachable!(),
        };
        let [key, value]: [Field; 2] = exactly(fields);
        TargetProperty {
            id,
            span,
            shorthand,
            computed,
            key: key.into_node(),
            value: value.into_node(),
        }
    }

    /// The node of these parts.
    pub fn close(self, alloc: Global) -> Result<Node, AllocError>
        ensures { IfOk result (λ node. node ≡ plain_target_property self) }
    {
        let TargetProperty {
            id,
            span,
            shorthand,
            computed,
            key,
            value,
        } = self;
        let kind = Kind::TargetProperty {
            shorthand,
            computed,
        };
        let fields = Vec::from_array(alloc, [Field::One(key), Field::One(value)])?;
        Ok(Node {
            id,
            span,
            kind,
            fields,
        })
    }
}

/// A node `TargetProperty` with a new id and without marks.
pub fn new_target_property(
    ast: &mut AstBuilder,
    span: Span,
    shorthand: bool,
    computed: bool,
    key: PropertyKey,
    value: AssignmentTarget,
) -> Result<Node, AllocError>
    requires { ast.old.next < 2 ^ 32 - 1 }
    ensures made { IfOk result (λ node. node ≡ plain_target_property (record { id = record { 0 = ast.old.next }; span = span; shorthand = shorthand; computed = computed; key = key; value = value })) }
    ensures counted { ast.new.next ≡ ast.old.next + 1 }
{
    let id = ast.new_id();
    let made = TargetProperty {
        id,
        span,
        shorthand,
        computed,
        key,
        value,
    };
    made.close(ast.alloc)
}

/// An array pattern that assigns (ECMA-262, 13.15.5).
#[derive(Drop)]
pub struct ArrayTarget {
    pub id: NodeId,
    pub span: Span,
    pub elements: Vec<Field>,
}

impl ArrayTarget {
    /// Takes the node apart.
    pub fn open(node: Node) -> ArrayTarget
        requires { IsArrayTarget node }
        ensures { plain_array_target result ≡ node }
    {
        let Parts {
            id,
            span,
            kind,
            fields,
        } = node.into_parts();
        match kind {
            Kind::ArrayTarget => {}
            _other => unreachable!(),
        }
        let elements = fields;
        ArrayTarget { id, span, elements }
    }

    /// The node of these parts.
    pub fn close(self, alloc: Global) -> Result<Node, AllocError>
        ensures { IfOk result (λ node. node ≡ plain_array_target self) }
    {
        let ArrayTarget { id, span, elements } = self;
        let kind = Kind::ArrayTarget;
        Ok(Node {
            id,
            span,
            kind,
            fields: elements,
        })
    }
}

/// A node `ArrayTarget` with a new id and without marks.
pub fn new_array_target(
    ast: &mut AstBuilder,
    span: Span,
    elements: Vec<Field>,
) -> Result<Node, AllocError>
    requires { ast.old.next < 2 ^ 32 - 1 }
    ensures made { IfOk result (λ node. node ≡ plain_array_target (record { id = record { 0 = ast.old.next }; span = span; elements = elements })) }
    ensures counted { ast.new.next ≡ ast.old.next + 1 }
{
    let id = ast.new_id();
    let made = ArrayTarget { id, span, elements };
    made.close(ast.alloc)
}

/// An assignment target with a default value (ECMA-262, 13.15.5).
#[derive(Drop)]
pub struct TargetWithDefault {
    pub id: NodeId,
    pub span: Span,
    pub left: AssignmentTarget,
    pub right: Expression,
}

impl TargetWithDefault {
    /// Takes the node apart.
    pub fn open(node: Node) -> TargetWithDefault
        requires { IsTargetWithDefault node }
        ensures { plain_target_with_default result ≡ node }
    {
        let Parts {
            id,
            span,
            kind,
            fields,
        } = node.into_parts();
        match kind {
            Kind::TargetWithDefault => {}
            _other => unreachable!(),
        }
        let [left, right]: [Field; 2] = exactly(fields);
        TargetWithDefault {
            id,
            span,
            left: left.into_node(),
            right: right.into_node(),
        }
    }

    /// The node of these parts.
    pub fn close(self, alloc: Global) -> Result<Node, AllocError>
        ensures { IfOk result (λ node. node ≡ plain_target_with_default self) }
    {
        let TargetWithDefault {
            id,
            span,
            left,
            right,
        } = self;
        let kind = Kind::TargetWithDefault;
        let fields = Vec::from_array(alloc, [Field::One(left), Field::One(right)])?;
        Ok(Node {
            id,
            span,
            kind,
            fields,
        })
    }
}

/// A node `TargetWithDefault` with a new id and without marks.
pub fn new_target_with_default(
    ast: &mut AstBuilder,
    span: Span,
    left: AssignmentTarget,
    right: Expression,
) -> Result<Node, AllocError>
    requires { ast.old.next < 2 ^ 32 - 1 }
    ensures made { IfOk result (λ node. node ≡ plain_target_with_default (record { id = record { 0 = ast.old.next }; span = span; left = left; right = right })) }
    ensures counted { ast.new.next ≡ ast.old.next + 1 }
{
    let id = ast.new_id();
    let made = TargetWithDefault {
        id,
        span,
        left,
        right,
    };
    made.close(ast.alloc)
}

/// A rest element that assigns (ECMA-262, 13.15.5).
#[derive(Drop)]
pub struct TargetRest {
    pub id: NodeId,
    pub span: Span,
    pub argument: AssignmentTarget,
}

impl TargetRest {
    /// Takes the node apart.
    pub fn open(node: Node) -> TargetRest
        requires { IsTargetRest node }
        ensures { plain_target_rest result ≡ node }
    {
        let Parts {
            id,
            span,
            kind,
            fields,
        } = node.into_parts();
        match kind {
            Kind::TargetRest => {}
            _other => unreachable!(),
        }
        let [argument]: [Field; 1] = exactly(fields);
        TargetRest {
            id,
            span,
            argument: argument.into_node(),
        }
    }

    /// The node of these parts.
    pub fn close(self, alloc: Global) -> Result<Node, AllocError>
        ensures { IfOk result (λ node. node ≡ plain_target_rest self) }
    {
        let TargetRest { id, span, argument } = self;
        let kind = Kind::TargetRest;
        let fields = Vec::from_array(alloc, [Field::One(argument)])?;
        Ok(Node {
            id,
            span,
            kind,
            fields,
        })
    }
}

/// A node `TargetRest` with a new id and without marks.
pub fn new_target_rest(
    ast: &mut AstBuilder,
    span: Span,
    argument: AssignmentTarget,
) -> Result<Node, AllocError>
    requires { ast.old.next < 2 ^ 32 - 1 }
    ensures made { IfOk result (λ node. node ≡ plain_target_rest (record { id = record { 0 = ast.old.next }; span = span; argument = argument })) }
    ensures counted { ast.new.next ≡ ast.old.next + 1 }
{
    let id = ast.new_id();
    let made = TargetRest { id, span, argument };
    made.close(ast.alloc)
}
