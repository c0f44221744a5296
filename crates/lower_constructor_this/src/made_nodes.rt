//! The nodes that set a name to `this`: behind a call of `super`, or in its place. A made node has the id 0 and no marks, and no place in the source but
//! that of the call whose place it takes.
//!
//! Before:
//!
//!     super(); a ? super(a) : super();
//!
//! After:
//!
//!     super(); _this = this; a ? (super(a), _this = this) : (super(), _this = this);
//!
//! The rules are `set_statement` and `then_set` of es_constructor_this.
ghost use Rattle.std.specs.Prelude.{◌≡◌, IfOk};
ghost use Rattle.es_tree.specs.Tree.{label_of};
ghost use Rattle.es_steps.specs.Nodes.{assign_node, this_expression};
ghost use Rattle.es_set_this.specs.ConstructorThis.{set_statement};
ghost use Rattle.lower_fresh_names.specs.Names.{name_with};
ghost use Rattle.lower_constructor_this.specs.Parts.{sequence_of};

use es_expressions::literals::ThisExpression;
use es_expressions::operations::{AssignmentExpression, SequenceExpression};
use es_statements::program::ExpressionStatement;
use es_tree::ids::NodeId;
use es_tree::kind::Kind;
use es_tree::node::Node;
use es_tree::operators::AssignmentOperator;
use lower_fresh_names::nodes::{MADE, new_name};
use std::alloc::{AllocError, Global};

/// The id of made nodes.
const MADE_ID: NodeId = NodeId(0);

/// `x = this;`
pub(crate) fn new_setting(name: &str, alloc: Global) -> Result<Node, AllocError>
    ensures { IfOk result (λ made. made ≡ set_statement (name_with 0 name.now)) }
{
    let said = ExpressionStatement {
        id: MADE_ID,
        span: MADE,
        expression: new_assignment(name, alloc)?,
    };
    said.close(alloc)
}

/// `(super(a), x = this)` for the call `super(a)`, with the span of the call.
pub(crate) fn new_sequence(call: Node, name: &str, alloc: Global) -> Result<Node, AllocError>
    ensures { IfOk result (λ made. made ≡ sequence_of (name_with 0 name.now) call) }
{
    let span = call.span;
    let assigned = new_assignment(name, alloc)?;
    let sequence = SequenceExpression {
        id: MADE_ID,
        span,
        expressions: Vec::from_array(alloc, [call, assigned])?,
    };
    sequence.close(alloc)
}

/// `x = this`
fn new_assignment(name: &str, alloc: Global) -> Result<Node, AllocError>
    ensures { IfOk result (λ made. made ≡ assign_node (name_with 0 name.now) this_expression) }
{
    let assigned = AssignmentExpression {
        id: MADE_ID,
        span: MADE,
        operator: AssignmentOperator::Assign,
        left: new_name(MADE_ID, name, alloc)?,
        right: new_this(alloc)?,
    };
    assigned.close(alloc)
}

/// `this`
fn new_this(alloc: Global) -> Result<Node, AllocError>
    ensures { IfOk result (λ made. made ≡ this_expression) }
{
    let this = ThisExpression {
        id: MADE_ID,
        span: MADE,
    };
    this.close(alloc)
}

/// What stands at a place while its node is taken from there.
pub(crate) fn new_placeholder(alloc: Global) -> Node {
    Node {
        id: MADE_ID,
        span: MADE,
        kind: Kind::EmptyStatement,
        fields: Vec::new(alloc),
    }
}
