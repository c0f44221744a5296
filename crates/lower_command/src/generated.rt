//! The script that is made where a number of statements is asked for.
ghost use Rattle.std.specs.Prelude.{◌≡◌, ◌+◌, ◌<◌, ◌≤◌, ◌^◌, IfOk};
ghost use Rattle.es_tree.specs.Tree.{tree_size};
ghost use Rattle.es_tree.specs.Words.{assignment_operator_text};
ghost use Rattle.lower_command.specs.Generated.{assigning, chaining, coalescing, generated, generated_statement, name_node, object_member, start_of};

use es_expressions::literals::new_identifier;
use es_expressions::members::{ChainExpression, MemberExpression};
use es_expressions::operations::{AssignmentExpression, LogicalExpression};
use es_json::program::ReadProgram;
use es_statements::program::{ExpressionStatement, Program};
use es_tree::builder::AstBuilder;
use es_tree::node::Node;
use es_tree::operators::{AssignmentOperator, LogicalOperator, SourceType};
use lower_temporaries::declarations::MADE;
use std::alloc::{AllocError, Global};

/// The script of this many statements, and the builder of further nodes, whose ids follow those of the
/// script. Statement `i`, with `I` for its number, is by the remainder of `i` by four `vI = oIx.p ?? d;`,
/// `oIx?.q?.r;`, `oIx.s ||= d;` or `oIx.t **= d;`. Fails only where memory runs out.
pub fn generate_program(alloc: Global, count: u32) -> Result<ReadProgram, AllocError>
    requires { count ≤ 20000 }
    ensures tree { IfOk result (λ read. read.program ≡ generated count) }
    ensures next { IfOk result (λ read. read.ast.next ≡ tree_size (generated count)) }
{
    let mut ast = AstBuilder::new(alloc, 0);
    let id = ast.new_id();
    let mut body = Vec::with_capacity(alloc, count as usize)?;
    for number in 0..count {
        let statement = new_statement(&mut ast, number)?;
        body.push(statement)?;
    }
    let program = Program {
        id,
        span: MADE,
        source_type: SourceType::Script,
        scope: None,
        directives: Vec::new(alloc),
        body,
    };
    let program = program.close(alloc)?;
    Ok(ReadProgram { program, ast })
}

/// The statement of this number.
fn new_statement(ast: &mut AstBuilder, number: u32) -> Result<Node, AllocError>
    requires number { number < 20000 }
    requires start { ast.old.next ≡ start_of number }
    ensures made { IfOk result (λ node. node ≡ generated_statement number) }
    ensures counted { IfOk result (λ _. ast.new.next ≡ start_of (number + 1)) }
{
    match number % 4 {
        0 => new_coalescing(ast, number),
        1 => new_chaining(ast, number),
        2 => new_assigning(ast, "s", AssignmentOperator::LogicalOr, number),
        _ => new_assigning(ast, "t", AssignmentOperator::Exponential, number),
    }
}

/// `vI = oIx.p ?? d;`
fn new_coalescing(ast: &mut AstBuilder, number: u32) -> Result<Node, AllocError>
    requires { ast.old.next + 8 < 2 ^ 32 }
    ensures made { IfOk result (λ node. node ≡ coalescing number ast.old.next) }
    ensures counted { IfOk result (λ _. ast.new.next ≡ ast.old.next + 8) }
{
    let id = ast.new_id();
    let assignment = ast.new_id();
    let name = format!(in ast.alloc; "v{number}")?;
    let target = new_identifier(ast, MADE, name)?;
    let coalescing = ast.new_id();
    let member = new_object_member(ast, number, false, "p")?;
    let default = new_name(ast, "d")?;
    let value = LogicalExpression {
        id: coalescing,
        span: MADE,
        operator: LogicalOperator::Coalesce,
        left: member,
        right: default,
    };
    let expression = AssignmentExpression {
        id: assignment,
        span: MADE,
        operator: AssignmentOperator::Assign,
        left: target,
        right: value.close(ast.alloc)?,
    };
    let statement = ExpressionStatement {
        id,
        span: MADE,
        expression: expression.close(ast.alloc)?,
    };
    statement.close(ast.alloc)
}

/// `oIx?.q?.r;`
fn new_chaining(ast: &mut AstBuilder, number: u32) -> Result<Node, AllocError>
    requires { ast.old.next + 7 < 2 ^ 32 }
    ensures made { IfOk result (λ node. node ≡ chaining number ast.old.next) }
    ensures counted { IfOk result (λ _. ast.new.next ≡ ast.old.next + 7) }
{
    let id = ast.new_id();
    let chain = ast.new_id();
    let outer = ast.new_id();
    let object = new_object_member(ast, number, true, "q")?;
    let property = new_name(ast, "r")?;
    let member = MemberExpression {
        id: outer,
        span: MADE,
        computed: false,
        optional: true,
        object,
        property,
    };
    let expression = ChainExpression {
        id: chain,
        span: MADE,
        expression: member.close(ast.alloc)?,
    };
    let statement = ExpressionStatement {
        id,
        span: MADE,
        expression: expression.close(ast.alloc)?,
    };
    statement.close(ast.alloc)
}

/// `oIx.property operator d;`
fn new_assigning(
    ast: &mut AstBuilder,
    property: &str,
    operator: AssignmentOperator,
    number: u32,
) -> Result<Node, AllocError>
    requires { ast.old.next + 6 < 2 ^ 32 }
    ensures made { IfOk result (λ node. node ≡ assigning property.now (assignment_operator_text operator) number ast.old.next) }
    ensures counted { IfOk result (λ _. ast.new.next ≡ ast.old.next + 6) }
{
    let id = ast.new_id();
    let assignment = ast.new_id();
    let target = new_object_member(ast, number, false, property)?;
    let default = new_name(ast, "d")?;
    let expression = AssignmentExpression {
        id: assignment,
        span: MADE,
        operator,
        left: target,
        right: default,
    };
    let statement = ExpressionStatement {
        id,
        span: MADE,
        expression: expression.close(ast.alloc)?,
    };
    statement.close(ast.alloc)
}

/// `oIx.property`, or `oIx?.property`
fn new_object_member(
    ast: &mut AstBuilder,
    number: u32,
    optional: bool,
    property: &str,
) -> Result<Node, AllocError>
    requires { ast.old.next + 3 < 2 ^ 32 }
    ensures made { IfOk result (λ node. node ≡ object_member number ast.old.next optional property.now) }
    ensures counted { IfOk result (λ _. ast.new.next ≡ ast.old.next + 3) }
{
    let id = ast.new_id();
    let name = format!(in ast.alloc; "o{number}x")?;
    let object = new_identifier(ast, MADE, name)?;
    let property = new_name(ast, property)?;
    let member = MemberExpression {
        id,
        span: MADE,
        computed: false,
        optional,
        object,
        property,
    };
    member.close(ast.alloc)
}

/// The name of this text.
fn new_name(ast: &mut AstBuilder, text: &str) -> Result<Node, AllocError>
    requires { ast.old.next + 1 < 2 ^ 32 }
    ensures made { IfOk result (λ node. node ≡ name_node ast.old.next text.now) }
    ensures counted { IfOk result (λ _. ast.new.next ≡ ast.old.next + 1) }
{
    let text = String::from_str(ast.alloc, text)?;
    new_identifier(ast, MADE, text)
}
