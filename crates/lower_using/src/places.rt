//! Where `using` is lowered (Explicit Resource Management, 14.3.1): in the body of a function, in a static block of a class (15.7), in a block, in
//! the cases of a `switch` (14.12) and in the head of a `for` (14.7.4), which its labels go with; and how a node stands to the one around it.
ghost use Rattle.std.specs.Prelude.{◌≡◌, bytes_eq, codes};
ghost use Rattle.es_tree.specs.Tree.{fields_of, kind_of, label_of, trees};
ghost use Rattle.es_tree.specs.Views.{plain_field, plain_fields};
ghost use Rattle.es_tree.specs.Words.{variable_declaration_kind_text};
ghost use Rattle.es_steps.specs.UsingSwitches.{case_has_using, some_case_has_using};
ghost use Rattle.es_using_rows.specs.UsingPlaces.{are_used, are_used_cases, has_value, have_values, is_labelled, is_part, is_used, is_used_case, leads_to_head, standing_in, uses_here, uses_in_arrow, uses_in_body, uses_in_function, uses_in_head, uses_in_list, uses_in_static_block};
ghost use Rattle.lower_using.specs.Parts.{head_is_used, hold_values, holds_used, holds_using, holds_value, leads_in_label, some_have_values, uses_after_directives, uses_in_block, uses_in_switch};

use es_nodes::construct::is_using;
use es_tree::ast_type::AstType;
use es_tree::kind::Kind;
use es_tree::node::{Field, Node};
use es_tree::operators::VariableDeclarationKind;
use es_using_nodes::bodies::has_using;
use es_using_nodes::entering::may_enter;
use es_using_rows::standing::Standing;

/// How the node in this field of a node of this kind stands.
pub(crate) fn standing_in(kind: AstType, index: usize) -> Standing
    ensures { result ≡ standing_in kind index }
{
    match kind {
        AstType::TryStatement if index == 0 || index == 2 => Standing::Part,
        AstType::CatchClause if index == 1 => Standing::Part,
        AstType::LabeledStatement if index == 1 => Standing::Labelled,
        _ => Standing::Anywhere,
    }
}

/// Whether it is a block of a `try`, a `catch` or a `finally`.
pub(crate) fn is_part(standing: Standing) -> bool
    ensures { result ≡ is_part standing }
{
    matches!(standing, Standing::Part)
}

fn is_labelled(standing: Standing) -> bool
    ensures { result ≡ is_labelled standing }
{
    matches!(standing, Standing::Labelled)
}

/// Whether `using` is lowered at the node, which stands so.
pub(crate) fn uses_here(node: &Node, standing: Standing) -> bool
    ensures { result ≡ uses_here standing (kind_of node.now) (label_of node.now) (fields_of node.now) }
{
    match &node.kind {
        Kind::BlockStatement { .. } => uses_in_block(node.fields.as_slice()),
        Kind::SwitchStatement { .. } => uses_in_switch(node.fields.as_slice()),
        Kind::ForStatement { .. } => {
            !is_labelled(standing) && uses_in_head(node.fields.as_slice())
        }
        Kind::LabeledStatement => !is_labelled(standing) && leads_to_head(node),
        Kind::FunctionDeclaration { .. } | Kind::FunctionExpression { .. } => {
            uses_in_function(node.fields.as_slice())
        }
        Kind::ArrowFunctionExpression { .. } => uses_in_arrow(node.fields.as_slice()),
        Kind::StaticBlock { .. } => uses_in_static_block(node.fields.as_slice()),
        _ => false,
    }
}

fn uses_in_block(fields: &[Field]) -> bool
    ensures { result ≡ uses_in_block (plain_fields fields.now) }
{
    match fields {
        [Field::Statements(statements)] => uses_in_list(statements.as_slice()),
        _ => false,
    }
}

/// Whether some of these statements is a `using`, and each has values that can be used.
pub fn uses_in_list(statements: &[Node]) -> bool
    ensures { result ≡ uses_in_list (trees statements.now) }
{
    has_using(statements) && are_used(statements)
}

fn are_used(statements: &[Node]) -> bool
    ensures { result ≡ are_used (trees statements.now) }
{
    statements
        .iter()
        .all(|statement| !is_using(statement) || is_used(statement))
}

/// Whether it is a `using` that can become a declaration of constants.
fn is_used(statement: &Node) -> bool
    ensures { result ≡ is_used statement.now }
{
    match &statement.kind {
        Kind::VariableDeclaration { kind } => {
            is_using_word(*kind) && hold_values(statement.fields.as_slice())
        }
        _ => false,
    }
}

fn is_using_word(kind: VariableDeclarationKind) -> bool
    ensures { result ≡ bytes_eq (variable_declaration_kind_text kind) (codes "using") }
{
    matches!(kind, VariableDeclarationKind::Using)
}

fn hold_values(fields: &[Field]) -> bool
    ensures { result ≡ hold_values (plain_fields fields.now) }
{
    match fields {
        [Field::Many(declarators)] => some_have_values(declarators.as_slice()),
        _ => false,
    }
}

/// Whether there are declarators, and each has a value.
fn some_have_values(declarators: &[Node]) -> bool
    ensures { result ≡ some_have_values (trees declarators.now) }
{
    match declarators {
        [] => false,
        _ => have_values(declarators),
    }
}

fn have_values(declarators: &[Node]) -> bool
    ensures { result ≡ have_values (trees declarators.now) }
{
    declarators.iter().all(|declarator| has_value(declarator))
}

/// Whether it is a declarator with a value: `a = b`.
pub(crate) fn has_value(declarator: &Node) -> bool
    ensures { result ≡ has_value declarator.now }
{
    match &declarator.kind {
        Kind::VariableDeclarator => holds_value(declarator.fields.as_slice()),
        _ => false,
    }
}

fn holds_value(fields: &[Field]) -> bool
    ensures { result ≡ holds_value (plain_fields fields.now) }
{
    matches!(fields, [Field::One(..), Field::One(..)])
}

fn uses_in_switch(fields: &[Field]) -> bool
    ensures { result ≡ uses_in_switch (plain_fields fields.now) }
{
    match fields {
        [_, Field::Many(cases)] => {
            some_case_has_using(cases.as_slice()) && are_used_cases(cases.as_slice())
        }
        _ => false,
    }
}

fn some_case_has_using(cases: &[Node]) -> bool
    ensures { result ≡ some_case_has_using (trees cases.now) }
{
    cases.iter().any(|case| case_has_using(case))
}

fn are_used_cases(cases: &[Node]) -> bool
    ensures { result ≡ are_used_cases (trees cases.now) }
{
    cases.iter().all(|case| is_used_case(case))
}

fn case_has_using(case: &Node) -> bool
    ensures { result ≡ case_has_using case.now }
{
    match &case.kind {
        Kind::SwitchCase => holds_using(case.fields.as_slice()),
        _ => false,
    }
}

fn holds_using(fields: &[Field]) -> bool
    ensures { result ≡ holds_using (plain_fields fields.now) }
{
    match fields {
        [_, Field::Statements(statements)] => has_using(statements.as_slice()),
        _ => false,
    }
}

fn is_used_case(case: &Node) -> bool
    ensures { result ≡ is_used_case case.now }
{
    match &case.kind {
        Kind::SwitchCase => holds_used(case.fields.as_slice()),
        _ => false,
    }
}

fn holds_used(fields: &[Field]) -> bool
    ensures { result ≡ holds_used (plain_fields fields.now) }
{
    match fields {
        [_, Field::Statements(statements)] => are_used(statements.as_slice()),
        _ => false,
    }
}

/// Whether the head of a `for` of these fields is a `using` that is lowered: `for (using a = b; c; d) f(a);`.
fn uses_in_head(fields: &[Field]) -> bool
    ensures { result ≡ uses_in_head (plain_fields fields.now) }
{
    match fields {
        [head, _, _, _] => head_is_used(head),
        _ => false,
    }
}

fn head_is_used(head: &Field) -> bool
    ensures { result ≡ head_is_used (plain_field head.now) }
{
    match head {
        Field::One(declaration) => is_used(declaration),
        _ => false,
    }
}

/// Whether it is such a loop, maybe with labels.
#[cycle(leads)]
fn leads_to_head(node: &Node) -> bool
    ensures { result ≡ leads_to_head node.now }
{
    match &node.kind {
        Kind::ForStatement { .. } => uses_in_head(node.fields.as_slice()),
        Kind::LabeledStatement => leads_in_label(node.fields.as_slice()),
        _ => false,
    }
}

#[cycle(leads)]
fn leads_in_label(fields: &[Field]) -> bool
    ensures { result ≡ leads_in_label (plain_fields fields.now) }
{
    match fields {
        [Field::One(..), Field::One(body)] => leads_to_head(body),
        _ => false,
    }
}

/// Whether a function of these fields, with a name or without, has a body in which `using` is lowered.
fn uses_in_function(fields: &[Field]) -> bool
    ensures { result ≡ uses_in_function (plain_fields fields.now) }
{
    match fields {
        [_, Field::Many(parameters), Field::One(body)] => {
            uses_in_body(parameters.as_slice(), body)
        }
        _ => false,
    }
}

/// Whether an arrow function of these fields has one.
fn uses_in_arrow(fields: &[Field]) -> bool
    ensures { result ≡ uses_in_arrow (plain_fields fields.now) }
{
    match fields {
        [Field::Many(parameters), Field::One(body)] => uses_in_body(parameters.as_slice(), body),
        _ => false,
    }
}

/// Whether `using` is lowered in a body behind these parameters.
fn uses_in_body(parameters: &[Node], body: &Node) -> bool
    ensures { result ≡ uses_in_body (trees parameters.now) body.now }
{
    match &body.kind {
        Kind::FunctionBody { .. } => uses_after_directives(parameters, body.fields.as_slice()),
        _ => false,
    }
}

/// Whether `using` is lowered in the statements of a body of these fields, whose functions at the top become those of the block of a `try`:
/// `function f() { using a = b; g(a); function g(x) {} }`.
fn uses_after_directives(parameters: &[Node], fields: &[Field]) -> bool
    ensures { result ≡ uses_after_directives (trees parameters.now) (plain_fields fields.now) }
{
    match fields {
        [Field::Many(..), Field::Statements(statements)] => {
            uses_in_list(statements.as_slice()) && may_enter(parameters, statements.as_slice())
        }
        _ => false,
    }
}

/// Whether `using` is lowered in a static block of these fields, whose functions at the top become those of the block of a `try`; it has no
/// parameters: `static { using a = b; g(a); function g(x) {} }`.
fn uses_in_static_block(fields: &[Field]) -> bool
    ensures { result ≡ uses_in_static_block (plain_fields fields.now) }
{
    match fields {
        [Field::Statements(statements)] => {
            uses_in_list(statements.as_slice()) && may_enter(&[], statements.as_slice())
        }
        _ => false,
    }
}
