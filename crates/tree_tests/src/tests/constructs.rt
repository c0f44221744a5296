//! Constructs that a lowering takes away are found where the options ask for it.
use super::options::{LOWERINGS, ask, no_options};
use super::program_of;
use es_nodes::construct::has_enabled_construct;
use std::test::Fail;

/// Programs, each with the one lowering that has something to lower in it, or none.
static PROGRAMS: [(&str, &str); 31] = [
    // `this ** this;`
    (
        "exponentiation",
        r#"{"type":"Program","sourceType":"script","body":[{"type":"ExpressionStatement","expression":{"type":"BinaryExpression","operator":"**","left":{"type":"ThisExpression"},"right":{"type":"ThisExpression"}}}]}"#,
    ),
    // `(1n) ** this;`
    (
        "exponentiation",
        r#"{"type":"Program","sourceType":"script","body":[{"type":"ExpressionStatement","expression":{"type":"BinaryExpression","operator":"**","left":{"type":"ParenthesizedExpression","expression":{"type":"BigIntLiteral","raw":"1n","key":"1"}},"right":{"type":"ThisExpression"}}}]}"#,
    ),
    // `this.a **= this;`
    (
        "exponentiation",
        r#"{"type":"Program","sourceType":"script","body":[{"type":"ExpressionStatement","expression":{"type":"AssignmentExpression","operator":"**=","left":{"type":"MemberExpression","object":{"type":"ThisExpression"},"property":{"type":"Identifier","name":"a"}},"right":{"type":"ThisExpression"}}}]}"#,
    ),
    // `this.a **= (1n);`
    (
        "exponentiation",
        r#"{"type":"Program","sourceType":"script","body":[{"type":"ExpressionStatement","expression":{"type":"AssignmentExpression","operator":"**=","left":{"type":"MemberExpression","object":{"type":"ThisExpression"},"property":{"type":"Identifier","name":"a"}},"right":{"type":"ParenthesizedExpression","expression":{"type":"BigIntLiteral","raw":"1n","key":"1"}}}}]}"#,
    ),
    // `this ?? this;`
    (
        "nullish",
        r#"{"type":"Program","sourceType":"script","body":[{"type":"ExpressionStatement","expression":{"type":"LogicalExpression","operator":"??","left":{"type":"ThisExpression"},"right":{"type":"ThisExpression"}}}]}"#,
    ),
    // `this?.a;`
    (
        "chaining",
        r#"{"type":"Program","sourceType":"script","body":[{"type":"ExpressionStatement","expression":{"type":"ChainExpression","expression":{"type":"MemberExpression","optional":true,"object":{"type":"ThisExpression"},"property":{"type":"Identifier","name":"a"}}}}]}"#,
    ),
    // `this.a ||= this;`
    (
        "logical",
        r#"{"type":"Program","sourceType":"script","body":[{"type":"ExpressionStatement","expression":{"type":"AssignmentExpression","operator":"||=","left":{"type":"MemberExpression","object":{"type":"ThisExpression"},"property":{"type":"Identifier","name":"a"}},"right":{"type":"ThisExpression"}}}]}"#,
    ),
    // `this.a &&= this;`
    (
        "logical",
        r#"{"type":"Program","sourceType":"script","body":[{"type":"ExpressionStatement","expression":{"type":"AssignmentExpression","operator":"&&=","left":{"type":"MemberExpression","object":{"type":"ThisExpression"},"property":{"type":"Identifier","name":"a"}},"right":{"type":"ThisExpression"}}}]}"#,
    ),
    // `(this.a) ??= this;`
    (
        "logical",
        r#"{"type":"Program","sourceType":"script","body":[{"type":"ExpressionStatement","expression":{"type":"AssignmentExpression","operator":"??=","left":{"type":"ParenthesizedExpression","expression":{"type":"MemberExpression","object":{"type":"ThisExpression"},"property":{"type":"Identifier","name":"a"}}},"right":{"type":"ThisExpression"}}}]}"#,
    ),
    // `try {} catch {}`
    (
        "catch",
        r#"{"type":"Program","sourceType":"script","body":[{"type":"TryStatement","block":{"type":"BlockStatement"},"handler":{"type":"CatchClause","body":{"type":"BlockStatement"}}}]}"#,
    ),
    // `export * as "n" from "m";`
    (
        "namespace",
        r#"{"type":"Program","sourceType":"module","body":[{"type":"ExportAllDeclaration","source":{"type":"StringLiteral","value":"m"},"exported":{"type":"StringLiteral","value":"n"}}]}"#,
    ),
    // `({ ...this });`
    (
        "spread",
        r#"{"type":"Program","sourceType":"script","body":[{"type":"ExpressionStatement","expression":{"type":"ParenthesizedExpression","expression":{"type":"ObjectExpression","properties":[{"type":"SpreadElement","argument":{"type":"ThisExpression"}}]}}}]}"#,
    ),
    // `var { ...a } = this;`
    (
        "spread",
        r#"{"type":"Program","sourceType":"script","body":[{"type":"VariableDeclaration","kind":"var","declarations":[{"type":"VariableDeclarator","id":{"type":"ObjectPattern","properties":[{"type":"RestElement","argument":{"type":"Identifier","name":"a"}}]},"init":{"type":"ThisExpression"}}]}]}"#,
    ),
    // `({ b, ...a } = this);`
    (
        "spread",
        r#"{"type":"Program","sourceType":"script","body":[{"type":"ExpressionStatement","expression":{"type":"ParenthesizedExpression","expression":{"type":"AssignmentExpression","operator":"=","left":{"type":"ObjectPattern","properties":[{"type":"Property","shorthand":true,"key":{"type":"Identifier","name":"b"},"value":{"type":"Identifier","name":"b"}},{"type":"RestElement","argument":{"type":"Identifier","name":"a"}}]},"right":{"type":"ThisExpression"}}}}]}"#,
    ),
    // `using a = this;`
    (
        "using",
        r#"{"type":"Program","sourceType":"module","body":[{"type":"VariableDeclaration","kind":"using","declarations":[{"type":"VariableDeclarator","id":{"type":"Identifier","name":"a"},"init":{"type":"ThisExpression"}}]}]}"#,
    ),
    // `() => {};`
    (
        "arrows",
        r#"{"type":"Program","sourceType":"script","body":[{"type":"ExpressionStatement","expression":{"type":"ArrowFunctionExpression","body":{"type":"FunctionBody"}}}]}"#,
    ),
    // `{ this; this, (() => {}); }`
    (
        "arrows",
        r#"{"type":"Program","sourceType":"script","body":[{"type":"BlockStatement","body":[{"type":"ExpressionStatement","expression":{"type":"ThisExpression"}},{"type":"ExpressionStatement","expression":{"type":"SequenceExpression","expressions":[{"type":"ThisExpression"},{"type":"ParenthesizedExpression","expression":{"type":"ArrowFunctionExpression","body":{"type":"FunctionBody"}}}]}}]}]}"#,
    ),
    // nothing to lower
    // `this ** 1n;`
    (
        "",
        r#"{"type":"Program","sourceType":"script","body":[{"type":"ExpressionStatement","expression":{"type":"BinaryExpression","operator":"**","left":{"type":"ThisExpression"},"right":{"type":"BigIntLiteral","raw":"1n","key":"1"}}}]}"#,
    ),
    // `1n ** this;`
    (
        "",
        r#"{"type":"Program","sourceType":"script","body":[{"type":"ExpressionStatement","expression":{"type":"BinaryExpression","operator":"**","left":{"type":"BigIntLiteral","raw":"1n","key":"1"},"right":{"type":"ThisExpression"}}}]}"#,
    ),
    // `this * this;`
    (
        "",
        r#"{"type":"Program","sourceType":"script","body":[{"type":"ExpressionStatement","expression":{"type":"BinaryExpression","operator":"*","left":{"type":"ThisExpression"},"right":{"type":"ThisExpression"}}}]}"#,
    ),
    // `this.a **= 1n;`
    (
        "",
        r#"{"type":"Program","sourceType":"script","body":[{"type":"ExpressionStatement","expression":{"type":"AssignmentExpression","operator":"**=","left":{"type":"MemberExpression","object":{"type":"ThisExpression"},"property":{"type":"Identifier","name":"a"}},"right":{"type":"BigIntLiteral","raw":"1n","key":"1"}}}]}"#,
    ),
    // `this.a = this;`
    (
        "",
        r#"{"type":"Program","sourceType":"script","body":[{"type":"ExpressionStatement","expression":{"type":"AssignmentExpression","operator":"=","left":{"type":"MemberExpression","object":{"type":"ThisExpression"},"property":{"type":"Identifier","name":"a"}},"right":{"type":"ThisExpression"}}}]}"#,
    ),
    // `this || this && this;`
    (
        "",
        r#"{"type":"Program","sourceType":"script","body":[{"type":"ExpressionStatement","expression":{"type":"LogicalExpression","operator":"||","left":{"type":"ThisExpression"},"right":{"type":"LogicalExpression","operator":"&&","left":{"type":"ThisExpression"},"right":{"type":"ThisExpression"}}}}]}"#,
    ),
    // `this.a;`
    (
        "",
        r#"{"type":"Program","sourceType":"script","body":[{"type":"ExpressionStatement","expression":{"type":"MemberExpression","object":{"type":"ThisExpression"},"property":{"type":"Identifier","name":"a"}}}]}"#,
    ),
    // `this.a |= this;`
    (
        "",
        r#"{"type":"Program","sourceType":"script","body":[{"type":"ExpressionStatement","expression":{"type":"AssignmentExpression","operator":"|=","left":{"type":"MemberExpression","object":{"type":"ThisExpression"},"property":{"type":"Identifier","name":"a"}},"right":{"type":"ThisExpression"}}}]}"#,
    ),
    // `class A { #p; m() { this.#p ||= this; ((this.#p)) ??= this; } }`
    (
        "",
        r#"{"type":"Program","sourceType":"script","body":[{"type":"ClassDeclaration","id":{"type":"Identifier","name":"A"},"body":[{"type":"PropertyDefinition","key":{"type":"PrivateIdentifier","name":"p"}},{"type":"MethodDefinition","kind":"method","key":{"type":"Identifier","name":"m"},"value":{"type":"FunctionExpression","body":{"type":"FunctionBody","body":[{"type":"ExpressionStatement","expression":{"type":"AssignmentExpression","operator":"||=","left":{"type":"MemberExpression","object":{"type":"ThisExpression"},"property":{"type":"PrivateIdentifier","name":"p"}},"right":{"type":"ThisExpression"}}},{"type":"ExpressionStatement","expression":{"type":"AssignmentExpression","operator":"??=","left":{"type":"ParenthesizedExpression","expression":{"type":"ParenthesizedExpression","expression":{"type":"MemberExpression","object":{"type":"ThisExpression"},"property":{"type":"PrivateIdentifier","name":"p"}}}},"right":{"type":"ThisExpression"}}}]}}}]}]}"#,
    ),
    // `try {} catch ({}) {}`
    (
        "",
        r#"{"type":"Program","sourceType":"script","body":[{"type":"TryStatement","block":{"type":"BlockStatement"},"handler":{"type":"CatchClause","param":{"type":"ObjectPattern"},"body":{"type":"BlockStatement"}}}]}"#,
    ),
    // `export * from "m";`
    (
        "",
        r#"{"type":"Program","sourceType":"module","body":[{"type":"ExportAllDeclaration","source":{"type":"StringLiteral","value":"m"}}]}"#,
    ),
    // `[...this]; ({});`
    (
        "",
        r#"{"type":"Program","sourceType":"script","body":[{"type":"ExpressionStatement","expression":{"type":"ArrayExpression","elements":[{"type":"SpreadElement","argument":{"type":"ThisExpression"}}]}},{"type":"ExpressionStatement","expression":{"type":"ParenthesizedExpression","expression":{"type":"ObjectExpression"}}}]}"#,
    ),
    // `var [...a] = this; let b; const c = this;`
    (
        "",
        r#"{"type":"Program","sourceType":"script","body":[{"type":"VariableDeclaration","kind":"var","declarations":[{"type":"VariableDeclarator","id":{"type":"ArrayPattern","elements":[{"type":"RestElement","argument":{"type":"Identifier","name":"a"}}]},"init":{"type":"ThisExpression"}}]},{"type":"VariableDeclaration","kind":"let","declarations":[{"type":"VariableDeclarator","id":{"type":"Identifier","name":"b"}}]},{"type":"VariableDeclaration","kind":"const","declarations":[{"type":"VariableDeclarator","id":{"type":"Identifier","name":"c"},"init":{"type":"ThisExpression"}}]}]}"#,
    ),
    // `(function () {});`
    (
        "",
        r#"{"type":"Program","sourceType":"script","body":[{"type":"ExpressionStatement","expression":{"type":"ParenthesizedExpression","expression":{"type":"FunctionExpression","body":{"type":"FunctionBody"}}}}]}"#,
    ),
];

#[test]
fn constructs_are_found_where_they_are_asked_for(rt: HostRuntime) -> Result<(), Fail> {
    let alloc = rt.alloc();
    for (word, text) in PROGRAMS.iter() {
        let program = program_of(alloc, text)?;
        for lowering in LOWERINGS.iter() {
            let mut options = no_options(alloc)?;
            ask(&mut options, lowering);
            let found = has_enabled_construct(&program, &options);
            assert_eq!(rt; found, lowering == word, "{lowering} in {text}");
        }
    }
    Ok(())
}
