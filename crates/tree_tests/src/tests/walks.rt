//! What reads, counts, copies, writes and measures whole trees, and what looks below a node.
use super::every_kind::{CANONICAL, NODES, SPARSE};
use super::program_of;
use es_json::limits::{value_depth, value_objects};
use es_json::program::{ReadProgram, read_program};
use es_json::writer::program_text;
use es_nodes::count::count_nodes;
use es_nodes::fields::{field_at, nodes_in};
use es_tree::error::LowerError;
use es_tree::node::{Field, Node};
use es_tree::parens::strip_parens;
use serde_json::{Map, Value};
use std::alloc::{AllocError, Global};
use std::process::Abort;
use std::test::Fail;

// `((x)); var {a, b: [c, , d = 1], ...e} = x;`
const NAMES: &str =
    r#"{"type":"Program","sourceType":"script","body":[{"type":"ExpressionStatement","expression":{"type":"ParenthesizedExpression","expression":{"type":"ParenthesizedExpression","expression":{"type":"Identifier","name":"x"}}}},{"type":"VariableDeclaration","kind":"var","declarations":[{"type":"VariableDeclarator","id":{"type":"ObjectPattern","properties":[{"type":"Property","shorthand":true,"key":{"type":"Identifier","name":"a"},"value":{"type":"Identifier","name":"a"}},{"type":"Property","key":{"type":"Identifier","name":"b"},"value":{"type":"ArrayPattern","elements":[{"type":"Identifier","name":"c"},null,{"type":"AssignmentPattern","left":{"type":"Identifier","name":"d"},"right":{"type":"NumericLiteral","raw":"1","key":"1"}}]}},{"type":"RestElement","argument":{"type":"Identifier","name":"e"}}]},"init":{"type":"Identifier","name":"x"}}]}]}"#;

/// The tree writes its canonical form.
fn assert_canonical(rt: &(impl Abort + AllocGlobal), program: &Node) -> Result<(), AllocError> {
    let text = program_text(rt.alloc(), program)?;
    assert_eq!(rt; text.as_str(), CANONICAL);
    Ok(())
}

#[test]
fn every_kind_is_read_counted_copied_and_written(rt: HostRuntime) -> Result<(), Fail> {
    let alloc = rt.alloc();
    for text in [SPARSE, CANONICAL] {
        let value = Value::from_str(alloc, text)?;
        let ReadProgram { program, mut ast } = read_program(alloc, &value)?;
        assert_eq!(rt; count_nodes(&program), NODES);
        assert_canonical(&rt, &program)?;
        assert_canonical(&rt, &program.clone_tree(alloc)?)?;
        let copy = program.clone_in(&mut ast)?;
        assert_canonical(&rt, &copy)?;
        assert_eq!(rt; u64::from(copy.id.0), NODES);
    }
    Ok(())
}

/// The statement of this number.
fn statement(program: &Node, number: usize) -> Option<&Node> {
    let Some(Field::Statements(statements)) = field_at(program, 1) else {
        return None;
    };
    statements.get(number)
}

/// What the first declarator of a declaration declares.
fn pattern(declaration: &Node) -> Option<&Node> {
    nodes_in(field_at(declaration, 0)).first()?.child_at(0)
}

#[test]
fn parentheses_are_taken_off(rt: HostRuntime) -> Result<(), Fail> {
    let program = program_of(rt.alloc(), NAMES)?;
    let statement = statement(&program, 0).ok_or("no statement")?;
    let expression = statement.child_at(0).ok_or("no expression")?;
    assert_eq!(rt; expression.id.0, 2);
    assert_eq!(rt; strip_parens(expression).id.0, 4);
    Ok(())
}

#[test]
fn a_pattern_has_its_names(rt: HostRuntime) -> Result<(), Fail> {
    let alloc = rt.alloc();
    let program = program_of(alloc, NAMES)?;
    let declaration = statement(&program, 1).ok_or("no declaration")?;
    let pattern = pattern(declaration).ok_or("no pattern")?;
    let names = pattern.bound_names(alloc)?;
    let mut expected = ["a", "c", "d", "e"].iter();
    for name in &names {
        assert_eq!(rt; name.kind.text(0), expected.next().copied());
    }
    assert_eq!(rt; names.len(), 4);
    Ok(())
}

/// An array of so many empty objects.
fn objects(alloc: Global, count: usize) -> Result<Value, AllocError> {
    let mut objects = Vec::with_capacity(alloc, count)?;
    for _i in 0..count {
        objects.push(Value::Object(Map::new(alloc)))?;
    }
    Ok(Value::Array(objects))
}

/// So many arrays, one in the other.
fn nested(alloc: Global, depth: u32) -> Result<Value, AllocError> {
    let mut value = Value::Null;
    for _i in 0..depth {
        value = Value::Array(vec![in alloc; value]?);
    }
    Ok(value)
}

#[test]
fn values_are_measured(rt: HostRuntime) -> Result<(), Fail> {
    let alloc = rt.alloc();
    let value = Value::from_str(alloc, r#"[{"a": [null, {}]}, 1]"#)?;
    assert_eq!(rt; value_objects(&value), 2);
    assert_eq!(rt; value_depth(&value), 4);
    let many = objects(alloc, 1_048_575)?;
    assert!(rt; matches!(read_program(alloc, &many), Err(LowerError::Shape(_))));
    let too_many = objects(alloc, 1_048_576)?;
    assert!(rt;
        matches!(
            read_program(alloc, &too_many),
            Err(LowerError::TooLarge(1_048_576))
        )
    );
    Ok(())
}

#[test]
fn a_value_nests_400_deep(rt: HostRuntime) -> Result<(), Fail> {
    let alloc = rt.alloc();
    let deep = nested(alloc, 400)?;
    assert!(rt; matches!(read_program(alloc, &deep), Err(LowerError::Shape(_))));
    let too_deep = nested(alloc, 401)?;
    assert!(rt;
        matches!(
            read_program(alloc, &too_deep),
            Err(LowerError::TooDeep(401))
        )
    );
    Ok(())
}
