//! The names that a program has declared so far.
ghost use Rattle.std.specs.Prelude.{◌≡◌, ◌∷◌, [], map, OnOk, false, unwrap_or, ◌||◌};
ghost use Rattle.std.specs.HashMap.{get};
ghost use Rattle.es_tree.specs.DeclaredNames.{clashes, is_declared};
ghost use Rattle.es_tree.specs.StaticRules.{is_binding_space, is_export_space};
ghost use Rattle.es_static_rules.specs.Bindings.{plain_name};
ghost use Rattle.es_static_rules.specs.Checks.{Declares, IsAnswer, IsClashAnswer, belongs_to, clashes_with, key_of, same_key};

use crate::names::Name;
use es_tree::error::Rule;
use es_tree::place::Namespace;
use std::alloc::AllocError;
use std::collections::HashMap;

/// What tells a declared name apart: its namespace, the number of the node whose namespace that is, and
/// its text.
#[derive(Clone, Copy, PartialEq, Eq, Hash)]
pub(crate) struct Key<'a> {
    pub namespace: Namespace,
    pub owner: u32,
    pub text: &'a str,
}

/// Declared names, each with whether one of its declarations is lexical.
pub(crate) type KnownNames<'a> = HashMap<Key<'a>, bool>;

fn key_of<'a>(name: &Name<'a>) -> Key<'a>
    ensures { result ≡ key_of name.now }
{
    Key {
        namespace: name.namespace,
        owner: name.owner,
        text: name.text,
    }
}

/// Whether a lexical one is among the declarations of a name, if there are any.
fn known(names: &KnownNames, key: &Key) -> Option<bool>
    ensures { result ≡ get same_key names.now key.now }
{
    names.get(key).copied()
}

/// Puts a name among the names.
fn declare<'a>(names: &mut KnownNames<'a>, name: &Name<'a>) -> Result<(), AllocError>
    ensures { OnOk result (Declares names.old names.new (plain_name name.now ∷ [])) }
{
    let key = key_of(name);
    let earlier = known(names, &key);
    let _old = names.insert(key, either_lexical(earlier, name.lexical))?;
    Ok(())
}

/// Puts what a node declares among the names.
pub(crate) fn declare_all<'a>(
    names: &mut KnownNames<'a>,
    declared: &[Name<'a>],
) -> Result<(), AllocError>
    ensures { OnOk result (Declares names.old names.new (map plain_name declared.now)) }
{
    for name in declared {
        declare(names, name)?;
    }
    Ok(())
}

/// Whether a name is among the names.
pub(crate) fn is_declared(names: &KnownNames, namespace: Namespace, owner: u32, text: &str) -> bool
    ensures { IsAnswer names.now (λ earlier. is_declared earlier namespace owner text.now) result }
{
    let key = Key {
        namespace,
        owner,
        text,
    };
    known(names, &key).is_some()
}

/// Whether a declared name that belongs to this rule clashes with one of the names.
pub(crate) fn has_clash(rule: Rule, names: &KnownNames, declared: &[Name]) -> bool
    ensures { IsClashAnswer names.now rule (map plain_name declared.now) result }
{
    for name in declared {
        if clashes_under(rule, names, name) {
            return true;
        }
    }
    false
}

/// Whether a name belongs to the rule and clashes with one of the names.
fn clashes_under(rule: Rule, names: &KnownNames, name: &Name) -> bool
    ensures { IsClashAnswer names.now rule (plain_name name.now ∷ []) result }
{
    belongs_to(rule, name.namespace) && clashes(names, name)
}

/// Whether names in this namespace belong to the rule: no two of them clash.
fn belongs_to(rule: Rule, namespace: Namespace) -> bool
    ensures { result ≡ belongs_to rule namespace }
{
    match rule {
        Rule::DuplicateName => is_binding_space(namespace),
        Rule::BadExport => is_export_space(namespace),
        Rule::BadClass => !(is_binding_space(namespace) || is_export_space(namespace)),
        _ => false,
    }
}

fn is_binding_space(namespace: Namespace) -> bool
    ensures { result ≡ is_binding_space namespace }
{
    matches!(namespace, Namespace::Scope | Namespace::Parameters)
}

fn is_export_space(namespace: Namespace) -> bool
    ensures { result ≡ is_export_space namespace }
{
    matches!(namespace, Namespace::Exports)
}

/// Whether a name clashes with one of the names.
fn clashes(names: &KnownNames, name: &Name) -> bool
    ensures { IsAnswer names.now (λ earlier. clashes earlier (plain_name name.now)) result }
{
    clashes_with(known(names, &key_of(name)), name.lexical)
}

/// Whether a name declared before, lexically or not, clashes with a declaration.
fn clashes_with(earlier: Option<bool>, lexical: bool) -> bool
    ensures { result ≡ clashes_with earlier lexical }
{
    match earlier {
        Some(earlier) => earlier || lexical,
        None => false,
    }
}

/// Whether one of two declarations is lexical.
fn either_lexical(earlier: Option<bool>, lexical: bool) -> bool
    ensures { result ≡ (lexical || unwrap_or earlier false) }
{
    lexical || earlier.unwrap_or(false)
}
