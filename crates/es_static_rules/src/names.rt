//! The names that each node declares, for the static rules (ECMA-262, 8.2).
ghost use Rattle.std.specs.Prelude.{◌≡◌, [], ◌∷◌, IfOk, OnOk, map};
ghost use Rattle.es_tree.specs.Ancestors.{is_scope, makes_scope, scopes};
ghost use Rattle.es_tree.specs.DeclaredNames.{bound_names, catch_names, constructor_names, declaration_names, declared, export_name, exported_names, exports_of, function_names, is_at_top, lexical_names, name, names_in_scope, parameter_names, private_names, slots, var_names};
ghost use Rattle.es_tree.specs.Words.{method_definition_kind_text};
ghost use Rattle.es_static_rules.specs.Bindings.{Adds, binding_of, class_names, first_binding, first_scope, later_binding, plain_name, second_binding, slot_names};
ghost use Rattle.es_static_rules.specs.Outward.{outward, plain_ancestor};

use crate::ancestors::{Ancestor, is_boundary, split_parent, stands_in};
use crate::classes::is_class_key;
use crate::modules::is_module;
use crate::places::is_lexical;
use crate::rules::is_name;
use es_tree::ast_type::AstType;
use es_tree::kind::Kind;
use es_tree::node::Node;
use es_tree::operators::MethodDefinitionKind;
use es_tree::place::Namespace;
use std::alloc::{AllocError, Global};

/// A declared name: the namespace in which it is told apart, the number of the node whose namespace that
/// is, and whether a second declaration of it clashes with this one, whatever it is.
#[derive(Clone, Copy)]
pub(crate) struct Name<'a> {
    pub namespace: Namespace,
    pub owner: u32,
    pub text: &'a str,
    pub lexical: bool,
}

/// What a binding identifier binds, by its parent and the field of that.
#[derive(Clone, Copy)]
pub(crate) enum Binding {
    /// What the pattern around it does.
    Pattern,
    Declarator,
    Function,
    Parameter,
    Class,
    Catch,
    Import,
    /// It binds nothing.
    Nothing,
}

/// The names that a node declares.
pub(crate) fn declared<'a>(
    alloc: Global,
    ancestors: &[Ancestor<'a>],
    node: &'a Node,
) -> Result<Vec<Name<'a>>, AllocError>
    ensures { IfOk result (λ names. map plain_name names.items ≡ declared (outward ancestors.now) node.now) }
{
    let mut names = Vec::new(alloc);
    match &node.kind {
        Kind::Identifier { name, .. } => {
            bound_names(&mut names, ancestors, name.as_str())?;
            exported_names(&mut names, ancestors, name.as_str())?;
        }
        Kind::StringLiteral { value } => exported_names(&mut names, ancestors, value.as_str())?,
        Kind::PrivateIdentifier { name } => private_names(&mut names, ancestors, name.as_str())?,
        Kind::MethodDefinition { kind, .. } => constructor_names(&mut names, ancestors, *kind)?,
        Kind::ExportDefaultDeclaration => export_name(&mut names, "default")?,
        _ => {}
    }
    Ok(names)
}

/// Adds what an identifier that stands here declares, in a pattern or not.
fn bound_names<'a>(
    names: &mut Vec<Name<'a>>,
    ancestors: &[Ancestor<'a>],
    text: &'a str,
) -> Result<(), AllocError>
    ensures { OnOk result (Adds names.old.items names.new.items (bound_names (outward ancestors.now) text.now)) }
{
    match split_parent(ancestors) {
        Some((parent, outer)) => match binding_of(parent.kind(), parent.index) {
            Binding::Pattern => bound_names(names, outer, text),
            Binding::Declarator => declaration_names(names, outer, text),
            Binding::Function => {
                function_names(names, outer, text)?;
                exports_of(names, outer, text)
            }
            Binding::Parameter => parameter_names(names, parent.number, text),
            Binding::Class => {
                lexical_names(names, outer, text)?;
                exports_of(names, outer, text)
            }
            Binding::Catch => catch_names(names, parent, text),
            Binding::Import => lexical_names(names, outer, text),
            Binding::Nothing => Ok(()),
        },
        None => Ok(()),
    }
}

/// What an identifier in this field of a node of this kind binds.
fn binding_of(kind: AstType, index: usize) -> Binding
    ensures { result ≡ binding_of kind index }
{
    match index {
        0 => first_binding(kind),
        1 => second_binding(kind),
        _ => later_binding(kind),
    }
}

fn first_binding(kind: AstType) -> Binding
    ensures { result ≡ first_binding kind }
{
    match kind {
        AstType::ObjectPattern
        | AstType::ArrayPattern
        | AstType::AssignmentPattern
        | AstType::RestElement => Binding::Pattern,
        AstType::VariableDeclarator => Binding::Declarator,
        AstType::FunctionDeclaration => Binding::Function,
        AstType::ArrowFunctionExpression => Binding::Parameter,
        AstType::ClassDeclaration => Binding::Class,
        AstType::CatchClause => Binding::Catch,
        AstType::ImportDefaultSpecifier | AstType::ImportNamespaceSpecifier => Binding::Import,
        _ => Binding::Nothing,
    }
}

fn second_binding(kind: AstType) -> Binding
    ensures { result ≡ second_binding kind }
{
    match kind {
        AstType::ArrayPattern | AstType::PatternProperty => Binding::Pattern,
        AstType::FunctionDeclaration | AstType::FunctionExpression => Binding::Parameter,
        AstType::ImportSpecifier => Binding::Import,
        _ => Binding::Nothing,
    }
}

fn later_binding(kind: AstType) -> Binding
    ensures { result ≡ later_binding kind }
{
    match kind {
        AstType::ArrayPattern => Binding::Pattern,
        _ => Binding::Nothing,
    }
}

/// Adds a name that a declarator here declares.
fn declaration_names<'a>(
    names: &mut Vec<Name<'a>>,
    ancestors: &[Ancestor<'a>],
    text: &'a str,
) -> Result<(), AllocError>
    ensures { OnOk result (Adds names.old.items names.new.items (declaration_names (outward ancestors.now) text.now)) }
{
    match split_parent(ancestors) {
        Some((declaration, outer)) => {
            let node = declaration.node;
            match &node.kind {
                Kind::VariableDeclaration { kind } => {
                    if is_lexical(*kind) {
                        lexical_names(names, outer, text)?;
                    } else {
                        var_names(names, outer, text)?;
                    }
                    exports_of(names, outer, text)
                }
                _ => Ok(()),
            }
        }
        None => Ok(()),
    }
}

/// Adds a `var` in each scope through which it hoists (ECMA-262, 14.3.2, 8.2.6).
fn var_names<'a>(
    names: &mut Vec<Name<'a>>,
    ancestors: &[Ancestor<'a>],
    text: &'a str,
) -> Result<(), AllocError>
    ensures { OnOk result (Adds names.old.items names.new.items (var_names (outward ancestors.now) text.now)) }
{
    match split_parent(ancestors) {
        Some((parent, outer)) => {
            let kind = parent.kind();
            if makes_scope(kind, outer) {
                push_name(names, Namespace::Scope, parent.number, text, false)?;
                if is_boundary(kind) {
                    return Ok(());
                }
            }
            var_names(names, outer, text)
        }
        None => Ok(()),
    }
}

/// Adds what `let`, `const`, `using`, a class or an import declares (ECMA-262, 8.2.4).
fn lexical_names<'a>(
    names: &mut Vec<Name<'a>>,
    ancestors: &[Ancestor<'a>],
    text: &'a str,
) -> Result<(), AllocError>
    ensures { OnOk result (Adds names.old.items names.new.items (lexical_names (outward ancestors.now) text.now)) }
{
    names_in_scope(names, ancestors, text, true)
}

/// Adds what a function here declares: at the top of a function's body, of a static block or of a script
/// it is declared like a `var` (ECMA-262, 8.2.8, 8.2.10).
fn function_names<'a>(
    names: &mut Vec<Name<'a>>,
    ancestors: &[Ancestor<'a>],
    text: &'a str,
) -> Result<(), AllocError>
    ensures { OnOk result (Adds names.old.items names.new.items (function_names (outward ancestors.now) text.now)) }
{
    let lexical = !is_at_top(ancestors);
    names_in_scope(names, ancestors, text, lexical)
}

/// Adds a name in the innermost scope.
fn names_in_scope<'a>(
    names: &mut Vec<Name<'a>>,
    ancestors: &[Ancestor<'a>],
    text: &'a str,
    lexical: bool,
) -> Result<(), AllocError>
    ensures { OnOk result (Adds names.old.items names.new.items (names_in_scope (scopes (outward ancestors.now)) text.now lexical)) }
{
    match first_scope(ancestors) {
        Some(owner) => push_name(names, Namespace::Scope, owner, text, lexical),
        None => Ok(()),
    }
}

/// The number of the innermost scope.
fn first_scope(ancestors: &[Ancestor]) -> Option<u32>
    ensures { result ≡ first_scope (scopes (outward ancestors.now)) }
{
    match split_parent(ancestors) {
        Some((parent, outer)) => {
            if makes_scope(parent.kind(), outer) {
                Some(parent.number)
            } else {
                first_scope(outer)
            }
        }
        None => None,
    }
}

/// Whether a node of this kind that stands here makes a scope.
fn makes_scope(kind: AstType, ancestors: &[Ancestor]) -> bool
    ensures { result ≡ makes_scope kind (outward ancestors.now) }
{
    match kind {
        AstType::BlockStatement => !stands_in(ancestors, AstType::CatchClause, 1),
        _ => is_scope(kind),
    }
}

fn is_scope(kind: AstType) -> bool
    ensures { result ≡ is_scope kind }
{
    match kind {
        AstType::Program
        | AstType::BlockStatement
        | AstType::SwitchStatement
        | AstType::CatchClause
        | AstType::ForStatement
        | AstType::ForInStatement
        | AstType::ForOfStatement => true,
        _ => is_boundary(kind),
    }
}

/// Whether this is at the top of a function's body, of a static block or of a script.
fn is_at_top(ancestors: &[Ancestor]) -> bool
    ensures { result ≡ is_at_top (outward ancestors.now) }
{
    stands_in(ancestors, AstType::FunctionBody, 1)
        || stands_in(ancestors, AstType::StaticBlock, 0)
        || (stands_in(ancestors, AstType::Program, 1) && !is_module(ancestors))
}

/// Adds a parameter of the function with this number (ECMA-262, 15.1.1, 15.2.1).
fn parameter_names<'a>(
    names: &mut Vec<Name<'a>>,
    function: u32,
    text: &'a str,
) -> Result<(), AllocError>
    ensures { OnOk result (Adds names.old.items names.new.items (parameter_names function text.now)) }
{
    push_name(names, Namespace::Parameters, function, text, true)?;
    push_name(names, Namespace::Scope, function, text, false)
}

/// Adds a name of the parameter of a catch clause (ECMA-262, 14.15.1, B.3.4).
fn catch_names<'a>(
    names: &mut Vec<Name<'a>>,
    clause: &Ancestor<'a>,
    text: &'a str,
) -> Result<(), AllocError>
    ensures { OnOk result (Adds names.old.items names.new.items (catch_names (plain_ancestor clause.now) text.now)) }
{
    let lexical = !is_name(clause.node.child_at(0));
    push_name(names, Namespace::Scope, clause.number, text, lexical)
}

/// Adds what a declaration that stands here exports, where it declares this name.
fn exports_of<'a>(
    names: &mut Vec<Name<'a>>,
    ancestors: &[Ancestor<'a>],
    text: &'a str,
) -> Result<(), AllocError>
    ensures { OnOk result (Adds names.old.items names.new.items (exports_of (outward ancestors.now) text.now)) }
{
    if stands_in(ancestors, AstType::ExportNamedDeclaration, 0) {
        export_name(names, text)
    } else {
        Ok(())
    }
}

/// Adds the name or string by which an export is known outside.
fn exported_names<'a>(
    names: &mut Vec<Name<'a>>,
    ancestors: &[Ancestor<'a>],
    text: &'a str,
) -> Result<(), AllocError>
    ensures { OnOk result (Adds names.old.items names.new.items (exported_names (outward ancestors.now) text.now)) }
{
    if stands_in(ancestors, AstType::ExportSpecifier, 1)
        || stands_in(ancestors, AstType::ExportAllDeclaration, 0)
    {
        export_name(names, text)
    } else {
        Ok(())
    }
}

fn export_name<'a>(names: &mut Vec<Name<'a>>, text: &'a str) -> Result<(), AllocError>
    ensures { OnOk result (Adds names.old.items names.new.items (export_name text.now)) }
{
    push_name(names, Namespace::Exports, 0, text, true)
}

/// Adds a private name that is the key of a class's member (ECMA-262, 15.7.1).
fn private_names<'a>(
    names: &mut Vec<Name<'a>>,
    ancestors: &[Ancestor<'a>],
    text: &'a str,
) -> Result<(), AllocError>
    ensures { OnOk result (Adds names.old.items names.new.items (private_names (outward ancestors.now) text.now)) }
{
    match split_parent(ancestors) {
        Some((member, outer)) => {
            if is_class_key(ancestors) {
                class_names(names, member, outer, text)
            } else {
                Ok(())
            }
        }
        None => Ok(()),
    }
}

/// Adds a private name of the class around, in each slot of the member.
fn class_names<'a>(
    names: &mut Vec<Name<'a>>,
    member: &Ancestor<'a>,
    ancestors: &[Ancestor<'a>],
    text: &'a str,
) -> Result<(), AllocError>
    ensures { OnOk result (Adds names.old.items names.new.items (class_names (plain_ancestor member.now) (outward ancestors.now) text.now)) }
{
    match split_parent(ancestors) {
        Some((class, _)) => {
            push_name(names, Namespace::PrivateNames, class.number, text, false)?;
            slot_names(names, slots(member), class.number, text)
        }
        None => Ok(()),
    }
}

/// Adds the private name of a class in these slots.
fn slot_names<'a>(
    names: &mut Vec<Name<'a>>,
    slots: &[Namespace],
    class: u32,
    text: &'a str,
) -> Result<(), AllocError>
    ensures { OnOk result (Adds names.old.items names.new.items (slot_names slots.now class text.now)) }
{
    for slot in slots {
        push_name(names, *slot, class, text, true)?;
    }
    Ok(())
}

/// The slots of a member with a private name: two declarations of the name clash where they have a slot in
/// common.
fn slots(member: &Ancestor) -> &'static [Namespace]
    ensures { result.now ≡ slots (plain_ancestor member.now) }
{
    let node = member.node;
    match &node.kind {
        Kind::MethodDefinition {
            kind: MethodDefinitionKind::Get,
            is_static,
            ..
        } => match is_static {
            true => &[Namespace::FirstSlot, Namespace::SecondSlot],
            false => &[Namespace::FirstSlot, Namespace::ThirdSlot],
        },
        Kind::MethodDefinition {
            kind: MethodDefinitionKind::Set,
            is_static,
            ..
        } => match is_static {
            true => &[Namespace::ThirdSlot, Namespace::FourthSlot],
            false => &[Namespace::SecondSlot, Namespace::FourthSlot],
        },
        _ => &[
            Namespace::FirstSlot,
            Namespace::SecondSlot,
            Namespace::ThirdSlot,
            Namespace::FourthSlot,
        ],
    }
}

/// Adds the constructor of the class around.
fn constructor_names<'a>(
    names: &mut Vec<Name<'a>>,
    ancestors: &[Ancestor<'a>],
    kind: MethodDefinitionKind,
) -> Result<(), AllocError>
    ensures { OnOk result (Adds names.old.items names.new.items (constructor_names (outward ancestors.now) (method_definition_kind_text kind))) }
{
    match split_parent(ancestors) {
        Some((class, _)) => match kind {
            MethodDefinitionKind::Constructor => {
                push_name(names, Namespace::Constructors, class.number, "", true)
            }
            _ => Ok(()),
        },
        None => Ok(()),
    }
}

fn push_name<'a>(
    names: &mut Vec<Name<'a>>,
    namespace: Namespace,
    owner: u32,
    text: &'a str,
    lexical: bool,
) -> Result<(), AllocError>
    ensures { OnOk result (Adds names.old.items names.new.items (name namespace owner text.now lexical ∷ [])) }
{
    names.push(Name {
        namespace,
        owner,
        text,
        lexical,
    })?;
    Ok(())
}
