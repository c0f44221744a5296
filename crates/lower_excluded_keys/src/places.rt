//! Which lists names stand for: `["a"]` in `babelHelpers.objectWithoutProperties(b, ["a"])`, in a scope below the program's (ECMA-262, 9.1).
ghost use Rattle.std.specs.Prelude.{◌≡◌};
ghost use Rattle.es_tree.specs.Tree.{fields_of, kind_of, label_of, trees};
ghost use Rattle.es_tree.specs.Views.{plain_field, plain_fields};
ghost use Rattle.es_semantic.specs.Places.{is_inside, makes_scope};
ghost use Rattle.es_helper_calls.specs.TextLists.{are_texts, is_text_list};
ghost use Rattle.es_excluded_keys.specs.ExcludedKeys.{has_key_list, is_below, is_leaving_out, leaves_out};
ghost use Rattle.lower_excluded_keys.specs.Parts.{hold_texts, is_string, is_text, lists_keys};

use es_tree::ast_type::AstType;
use es_tree::helper::Helper;
use es_tree::kind::Kind;
use es_tree::node::{Field, Node};
use lower_helper_imports::calls::helper_of;

/// Whether the node is a call that leaves out the keys of a list, with no optional mark: `babelHelpers.objectWithoutProperties(b, ["a"])`.
pub(crate) fn leaves_out(node: &Node) -> bool
    ensures { result ≡ leaves_out (kind_of node.now) (label_of node.now) (fields_of node.now) }
{
    match &node.kind {
        Kind::CallExpression { optional: false } => has_key_list(node.fields.as_slice()),
        _ => false,
    }
}

/// Whether these are a callee that leaves out keys, and its arguments with a list of them.
fn has_key_list(fields: &[Field]) -> bool
    ensures { result ≡ has_key_list (plain_fields fields.now) }
{
    match fields {
        [Field::One(callee), Field::Many(arguments)] => {
            is_leaving_out(helper_of(callee)) && lists_keys(arguments.as_slice())
        }
        _ => false,
    }
}

fn is_leaving_out(helper: Option<Helper>) -> bool
    ensures { result ≡ is_leaving_out helper }
{
    matches!(helper, Some(Helper::ObjectWithoutProperties))
}

/// Whether these are a source and a list of keys.
fn lists_keys(arguments: &[Node]) -> bool
    ensures { result ≡ lists_keys (trees arguments.now) }
{
    match arguments {
        [_, keys] => is_text_list(keys),
        _ => false,
    }
}

/// Whether the node is an array literal of texts alone, and of one at least: `["a", "b"]`.
fn is_text_list(node: &Node) -> bool
    ensures { result ≡ is_text_list node.now }
{
    match &node.kind {
        Kind::ArrayExpression => hold_texts(node.fields.as_slice()),
        _ => false,
    }
}

fn hold_texts(fields: &[Field]) -> bool
    ensures { result ≡ hold_texts (plain_fields fields.now) }
{
    match fields {
        [] => false,
        _ => are_texts(fields),
    }
}

fn are_texts(fields: &[Field]) -> bool
    ensures { result ≡ are_texts (plain_fields fields.now) }
{
    fields.iter().all(|field| is_text(field))
}

fn is_text(field: &Field) -> bool
    ensures { result ≡ is_text (plain_field field.now) }
{
    match field {
        Field::One(node) => is_string(node),
        _ => false,
    }
}

fn is_string(node: &Node) -> bool
    ensures { result ≡ is_string node.now }
{
    match &node.kind {
        Kind::StringLiteral { .. } => node.fields.is_empty(),
        _ => false,
    }
}

/// Whether what stands in a field of a node of this kind, counted from 0, is below the program's scope, where the node itself is, or isn't (`deep`).
pub(crate) fn is_below(deep: bool, kind: AstType, index: usize) -> bool
    ensures { result ≡ is_below deep kind index }
{
    deep || (makes_scope(kind) && is_inside(kind, index))
}

/// Whether a node of this kind makes a scope inside a program.
fn makes_scope(kind: AstType) -> bool
    ensures { result ≡ makes_scope kind }
{
    matches!(
        kind,
        AstType::BlockStatement
            | AstType::StaticBlock
            | AstType::FunctionDeclaration
            | AstType::FunctionExpression
            | AstType::FunctionBody
            | AstType::ArrowFunctionExpression
            | AstType::ClassDeclaration
            | AstType::ClassExpression
            | AstType::ForStatement
            | AstType::ForInStatement
            | AstType::ForOfStatement
            | AstType::SwitchStatement
            | AstType::CatchClause
    )
}

/// Whether what stands in this field of a node that makes a scope is inside that scope.
fn is_inside(kind: AstType, index: usize) -> bool
    ensures { result ≡ is_inside kind index }
{
    index != 0
        || !matches!(
            kind,
            AstType::FunctionDeclaration
                | AstType::FunctionExpression
                | AstType::ClassDeclaration
                | AstType::SwitchStatement
        )
}
