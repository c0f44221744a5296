//! Methods of what is current: `call` and `bind` (ECMA-262, 20.2.3).
ghost use Rattle.std.specs.Prelude.{◌≡◌, ◌+◌, ◌-◌, ◌^◌, ◌<◌, IfOk, false};
ghost use Rattle.es_resolution.specs.Seen.{seen};
ghost use Rattle.es_runs.specs.Rules.{member_node};
ghost use Rattle.es_steps.specs.Nodes.{word};
ghost use Rattle.lower_chains.specs.Ways.{Names};

use es_expressions::literals::new_identifier;
use es_expressions::members::new_member_expression;
use es_tree::builder::AstBuilder;
use es_tree::node::Node;
use lower_temporaries::declarations::MADE;
use std::alloc::AllocError;

/// `object.name`
pub(crate) fn new_method(object: Node, name: &str, ast: &mut AstBuilder) -> Result<Node, AllocError>
    requires room { ast.old.next + 2 < 2 ^ 32 - 1 }
    ensures made { IfOk result (λ node. (names : Names) → seen names node ≡ member_node false (seen names object) (word name.now)) }
    ensures counted { IfOk result (λ _. ast.new.next ≡ ast.old.next + 2) }
{
    let name = String::from_str(ast.alloc, name)?;
    let property = new_identifier(ast, MADE, name)?;
    let node = new_member_expression(ast, MADE, false, false, object, property)?;
    Ok(node)
}
