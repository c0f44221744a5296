//! A module with a node of each of the 81 kinds, and how often each hook is called there.
//!
//! The numbers were counted by hand in the text. Expressions and statements are those that stand where ECMA-262 (13 and 14
//! to 16) has one: targets of assignments and computed keys are expressions, but other keys, labels, what is bound,
//! the parts of imports and exports, the element of a chain unless it is a call, the template behind a tag and the function of a method are
//! none; and the blocks of `try`, the declaration of a loop's head and the class of `export default` are no statements.
//!
//! | text | expressions | statements | further hooks |
//! |---|---|---|---|
//! | `import d, {i as j} from "m" with {type: "json"};` | 0 | 1 | an import specifier |
//! | `import * as n from "m";` | 0 | 1 | |
//! | `export {j as k};` | 0 | 1 | an export specifier |
//! | `export * as q from "m";` | 0 | 1 | the export of all |
//! | `export default class C extends null { .. }` | 1 | 1 | |
//! | `#p = this;` | 1 | 0 | |
//! | `static { debugger; }` | 0 | 1 | the block and its list |
//! | `constructor(...r) { super(...r, new.target); }` | 4 | 1 | a function, its parameters, its body and the list of it |
//! | ``export var {[d]: a = 1n, ...b} = {c: `t${d}`};`` | 5 | 2 | a declaration, a big integer |
//! | `let [x, y] = [/r/g, (true)];` | 4 | 1 | a declaration |
//! | `[a.b = y, ...x] = [,];` | 6 | 1 | |
//! | `({[j]: x} = b);` | 5 | 1 | |
//! | `function f() { return x => x; }` | 2 | 2 | as the constructor; an arrow, its parameters and its body |
//! | `let g = function () { throw class {}; };` | 2 | 2 | a declaration; as the constructor |
//! | `l: for (let z; ; ) { break l; }` | 0 | 4 | a declaration, the list of the block |
//! | `for (x in b) continue;` | 2 | 2 | the loop |
//! | `for (let o of b) ;` | 1 | 2 | the loop, a declaration |
//! | `while (x) do if (y) ; while (x);` | 3 | 4 | |
//! | `switch (x) { case 1: ; }` | 2 | 2 | the list of the case |
//! | `try {} catch {}` | 0 | 1 | the statement, the clause, the lists of both blocks |
//! | ``x ? f`s` : new g(a?.b, typeof x);`` | 10 | 1 | |
//! | `x++, y ?? x + y;` | 8 | 1 | |
//! | together | 56 | 33 | and the program with its list |
use es_visit::hook::Hook;

/// Each hook, with the number of its calls on the way in, which is that on the way out.
pub(crate) const CALLS: [(Hook, u32); 19] = [
    (Hook::Program, 1),
    (Hook::Statements, 9),
    (Hook::Statement, 33),
    (Hook::Expression, 56),
    (Hook::Function, 3),
    (Hook::FunctionBody, 3),
    (Hook::FormalParameters, 4),
    (Hook::ArrowFunctionExpression, 1),
    (Hook::ArrowFunctionBody, 1),
    (Hook::StaticBlock, 1),
    (Hook::VariableDeclaration, 5),
    (Hook::CatchClause, 1),
    (Hook::TryStatement, 1),
    (Hook::ForInStatement, 1),
    (Hook::ForOfStatement, 1),
    (Hook::BigIntLiteral, 1),
    (Hook::ImportSpecifier, 1),
    (Hook::ExportSpecifier, 1),
    (Hook::ExportAllDeclaration, 1),
];

/// The module.
pub(crate) const MODULE: &str =
    r#"{"body":[{"attributes":[{"key":"type","type":"ImportAttribute","value":"json"}],"source":{"type":"StringLiteral","value":"m"},"specifiers":[{"local":{"name":"d","type":"Identifier"},"type":"ImportDefaultSpecifier"},{"imported":{"name":"i","type":"Identifier"},"local":{"name":"j","type":"Identifier"},"type":"ImportSpecifier"}],"type":"ImportDeclaration"},{"source":{"type":"StringLiteral","value":"m"},"specifiers":[{"local":{"name":"n","type":"Identifier"},"type":"ImportNamespaceSpecifier"}],"type":"ImportDeclaration"},{"specifiers":[{"exported":{"name":"k","type":"Identifier"},"local":{"name":"j","type":"Identifier"},"type":"ExportSpecifier"}],"type":"ExportNamedDeclaration"},{"exported":{"name":"q","type":"Identifier"},"source":{"type":"StringLiteral","value":"m"},"type":"ExportAllDeclaration"},{"declaration":{"body":[{"key":{"name":"p","type":"PrivateIdentifier"},"type":"PropertyDefinition","value":{"type":"ThisExpression"}},{"body":[{"type":"DebuggerStatement"}],"type":"StaticBlock"},{"key":{"name":"constructor","type":"Identifier"},"kind":"constructor","type":"MethodDefinition","value":{"body":{"body":[{"expression":{"arguments":[{"argument":{"name":"r","type":"Identifier"},"type":"SpreadElement"},{"meta":"new","property":"target","type":"MetaProperty"}],"callee":{"type":"Super"},"type":"CallExpression"},"type":"ExpressionStatement"}],"type":"FunctionBody"},"params":[{"argument":{"name":"r","type":"Identifier"},"type":"RestElement"}],"type":"FunctionExpression"}}],"id":{"name":"C","type":"Identifier"},"superClass":{"type":"NullLiteral"},"type":"ClassDeclaration"},"type":"ExportDefaultDeclaration"},{"declaration":{"declarations":[{"id":{"properties":[{"computed":true,"key":{"name":"d","type":"Identifier"},"type":"Property","value":{"left":{"name":"a","type":"Identifier"},"right":{"key":"1","raw":"1n","type":"BigIntLiteral"},"type":"AssignmentPattern"}},{"argument":{"name":"b","type":"Identifier"},"type":"RestElement"}],"type":"ObjectPattern"},"init":{"properties":[{"key":{"name":"c","type":"Identifier"},"kind":"init","type":"Property","value":{"expressions":[{"name":"d","type":"Identifier"}],"quasis":[{"cooked":"t","raw":"t","type":"TemplateElement"},{"cooked":"","raw":"","type":"TemplateElement"}],"type":"TemplateLiteral"}}],"type":"ObjectExpression"},"type":"VariableDeclarator"}],"kind":"var","type":"VariableDeclaration"},"type":"ExportNamedDeclaration"},{"declarations":[{"id":{"elements":[{"name":"x","type":"Identifier"},{"name":"y","type":"Identifier"}],"type":"ArrayPattern"},"init":{"elements":[{"flags":"g","pattern":"r","type":"RegExpLiteral"},{"expression":{"type":"BooleanLiteral","value":true},"type":"ParenthesizedExpression"}],"type":"ArrayExpression"},"type":"VariableDeclarator"}],"kind":"let","type":"VariableDeclaration"},{"expression":{"left":{"elements":[{"left":{"object":{"name":"a","type":"Identifier"},"property":{"name":"b","type":"Identifier"},"type":"MemberExpression"},"right":{"name":"y","type":"Identifier"},"type":"AssignmentPattern"},{"argument":{"name":"x","type":"Identifier"},"type":"RestElement"}],"type":"ArrayPattern"},"operator":"=","right":{"elements":[null],"type":"ArrayExpression"},"type":"AssignmentExpression"},"type":"ExpressionStatement"},{"expression":{"expression":{"left":{"properties":[{"computed":true,"key":{"name":"j","type":"Identifier"},"type":"Property","value":{"name":"x","type":"Identifier"}}],"type":"ObjectPattern"},"operator":"=","right":{"name":"b","type":"Identifier"},"type":"AssignmentExpression"},"type":"ParenthesizedExpression"},"type":"ExpressionStatement"},{"body":{"body":[{"argument":{"body":{"name":"x","type":"Identifier"},"params":[{"name":"x","type":"Identifier"}],"type":"ArrowFunctionExpression"},"type":"ReturnStatement"}],"type":"FunctionBody"},"id":{"name":"f","type":"Identifier"},"type":"FunctionDeclaration"},{"declarations":[{"id":{"name":"g","type":"Identifier"},"init":{"body":{"body":[{"argument":{"type":"ClassExpression"},"type":"ThrowStatement"}],"type":"FunctionBody"},"type":"FunctionExpression"},"type":"VariableDeclarator"}],"kind":"let","type":"VariableDeclaration"},{"body":{"body":{"body":[{"label":{"name":"l","type":"Identifier"},"type":"BreakStatement"}],"type":"BlockStatement"},"init":{"declarations":[{"id":{"name":"z","type":"Identifier"},"type":"VariableDeclarator"}],"kind":"let","type":"VariableDeclaration"},"type":"ForStatement"},"label":{"name":"l","type":"Identifier"},"type":"LabeledStatement"},{"body":{"type":"ContinueStatement"},"left":{"name":"x","type":"Identifier"},"right":{"name":"b","type":"Identifier"},"type":"ForInStatement"},{"body":{"type":"EmptyStatement"},"left":{"declarations":[{"id":{"name":"o","type":"Identifier"},"type":"VariableDeclarator"}],"kind":"let","type":"VariableDeclaration"},"right":{"name":"b","type":"Identifier"},"type":"ForOfStatement"},{"body":{"body":{"consequent":{"type":"EmptyStatement"},"test":{"name":"y","type":"Identifier"},"type":"IfStatement"},"test":{"name":"x","type":"Identifier"},"type":"DoWhileStatement"},"test":{"name":"x","type":"Identifier"},"type":"WhileStatement"},{"cases":[{"consequent":[{"type":"EmptyStatement"}],"test":{"key":"1","raw":"1","type":"NumericLiteral"},"type":"SwitchCase"}],"discriminant":{"name":"x","type":"Identifier"},"type":"SwitchStatement"},{"block":{"type":"BlockStatement"},"handler":{"body":{"type":"BlockStatement"},"type":"CatchClause"},"type":"TryStatement"},{"expression":{"alternate":{"arguments":[{"expression":{"object":{"name":"a","type":"Identifier"},"optional":true,"property":{"name":"b","type":"Identifier"},"type":"MemberExpression"},"type":"ChainExpression"},{"argument":{"name":"x","type":"Identifier"},"operator":"typeof","type":"UnaryExpression"}],"callee":{"name":"g","type":"Identifier"},"type":"NewExpression"},"consequent":{"quasi":{"quasis":[{"cooked":"s","raw":"s","type":"TemplateElement"}],"type":"TemplateLiteral"},"tag":{"name":"f","type":"Identifier"},"type":"TaggedTemplateExpression"},"test":{"name":"x","type":"Identifier"},"type":"ConditionalExpression"},"type":"ExpressionStatement"},{"expression":{"expressions":[{"argument":{"name":"x","type":"Identifier"},"operator":"++","type":"UpdateExpression"},{"left":{"name":"y","type":"Identifier"},"operator":"??","right":{"left":{"name":"x","type":"Identifier"},"operator":"+","right":{"name":"y","type":"Identifier"},"type":"BinaryExpression"},"type":"LogicalExpression"}],"type":"SequenceExpression"},"type":"ExpressionStatement"}],"directives":[{"type":"Directive","value":"use strict"}],"sourceType":"module","type":"Program"}"#;
