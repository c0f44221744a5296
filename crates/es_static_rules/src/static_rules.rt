//! The static rules of a whole program.
ghost use Rattle.std.specs.Prelude.{◌≡◌, ◌+◌, [], ◌∷◌, IfErr, MatchResult, OnOk};
ghost use Rattle.es_tree.specs.Ancestors.{place_of, visit, visits, visits_in_field};
ghost use Rattle.es_tree.specs.StaticRules.{IsFirstBreak, breaks};
ghost use Rattle.es_tree.specs.Tree.{field_size, tree_size};
ghost use Rattle.es_tree.specs.Views.{plain_field};
ghost use Rattle.es_static_rules.specs.Checks.{Checks, ChecksProgram};
ghost use Rattle.es_static_rules.specs.Outward.{outward};

use crate::ancestors::Ancestor;
use crate::known_names::{KnownNames, declare_all};
use crate::names::declared;
use crate::places::place_in;
use crate::rules::{ALL_RULES, Visit, broken_rule};
use es_tree::error::{LowerError, Rule};
use es_tree::node::{Field, Node};
use es_tree::place::Place;
use std::alloc::Global;
use std::collections::HashMap;

/// Checks the static rules of a program (early errors of ECMA-262): each `Rule`.
///
/// Answers `LowerError::Invalid` with the first broken rule in node order (a node before its children,
/// children in reading order), at one node the first in the order of `Rule`, and the id of the node
/// that breaks it; `LowerError::OutOfMemory` for want of memory, which may come at any point; and no
/// other error.
pub fn check_static(alloc: Global, program: &Node) -> Result<(), LowerError>
    ensures ok { OnOk result (breaks program.now ≡ []) }
    ensures err { IfErr result (IsFirstBreak (breaks program.now)) }
{
    let nothing = HashMap::new(alloc);
    let gather = Pass {
        alloc,
        rules: &[],
        all: &nothing,
    };
    let all = check_program(gather, program)?;
    let check = Pass {
        alloc,
        rules: &ALL_RULES,
        all: &all,
    };
    let _names = check_program(check, program)?;
    Ok(())
}

/// A walk over a program: the rules that it tests, and all names that the program declares.
#[derive(Clone, Copy)]
struct Pass<'p, 'a> {
    alloc: Global,
    rules: &'p [Rule],
    all: &'p KnownNames<'a>,
}

/// Where a walk is: the ancestors of what it visits, the outermost first, the names that were declared
/// before, and the number of the next node.
#[derive(Drop)]
struct Walk<'a> {
    ancestors: Vec<Ancestor<'a>>,
    names: KnownNames<'a>,
    next: u32,
}

/// Checks a whole program, and answers the names that it declares.
fn check_program<'a>(pass: Pass<'_, 'a>, program: &'a Node) -> Result<KnownNames<'a>, LowerError>
    ensures { ChecksProgram pass.entry.rules.now pass.entry.all.now result program.now }
{
    let mut walk = Walk {
        ancestors: Vec::new(pass.alloc),
        names: HashMap::new(pass.alloc),
        next: 0,
    };
    check_node(pass, &mut walk, Place::Other, program)?;
    Ok(walk.names)
}

/// Checks the tree of a node that stands here.
#[cycle(walk)]
fn check_node<'a>(
    pass: Pass<'_, 'a>,
    walk: &mut Walk<'a>,
    place: Place,
    node: &'a Node,
) -> Result<(), LowerError>
    requires { place ≡ place_of (outward walk.old.ancestors.items) }
    ensures checks { Checks pass.entry.rules.now pass.entry.all.now walk.old.names walk.new.names result (visits (outward walk.old.ancestors.items) walk.old.next node.now) }
    ensures ancestors { OnOk result (walk.new.ancestors.items ≡ walk.old.ancestors.items) }
    ensures next { OnOk result (walk.new.next ≡ walk.old.next + tree_size node.now) }
{
    let number = walk.next;
    walk.next = next_number(number)?;
    check_visit(pass, &walk.ancestors, &mut walk.names, place, node)?;
    for (index, field) in node.fields.iter().enumerate() {
        walk.ancestors.push(Ancestor {
            node,
            index,
            number,
        })?;
        check_field(pass, walk, place_in(place, node, index), field)?;
        walk.ancestors.pop();
    }
    Ok(())
}

#[cycle(walk)]
fn check_field<'a>(
    pass: Pass<'_, 'a>,
    walk: &mut Walk<'a>,
    place: Place,
    field: &'a Field,
) -> Result<(), LowerError>
    requires { place ≡ place_of (outward walk.old.ancestors.items) }
    ensures checks { Checks pass.entry.rules.now pass.entry.all.now walk.old.names walk.new.names result (visits_in_field (outward walk.old.ancestors.items) walk.old.next (plain_field field.now)) }
    ensures ancestors { OnOk result (walk.new.ancestors.items ≡ walk.old.ancestors.items) }
    ensures next { OnOk result (walk.new.next ≡ walk.old.next + field_size (plain_field field.now)) }
{
    match field {
        Field::Missing => {}
        Field::One(node) => check_node(pass, walk, place, node)?,
        Field::Many(nodes) | Field::Statements(nodes) => {
            for node in nodes {
                check_node(pass, walk, place, node)?;
            }
        }
    }
    Ok(())
}

/// The number after this one: more nodes than numbers fit no memory.
fn next_number(number: u32) -> Result<u32, LowerError>
    ensures { MatchResult result (λ next. next ≡ number + 1) (λ e. e ≡ LowerError.OutOfMemory) }
{
    match number.checked_add(1) {
        Some(next) => Ok(next),
        None => Err(LowerError::OutOfMemory),
    }
}

/// Checks a node by itself, and declares what it declares.
fn check_visit<'a>(
    pass: Pass<'_, 'a>,
    ancestors: &[Ancestor<'a>],
    names: &mut KnownNames<'a>,
    place: Place,
    node: &'a Node,
) -> Result<(), LowerError>
    requires { place ≡ place_of (outward ancestors.now) }
    ensures { Checks pass.entry.rules.now pass.entry.all.now names.old names.new result (visit (outward ancestors.now) 0 node.now ∷ []) }
{
    let declared = declared(pass.alloc, ancestors, node)?;
    let visit = Visit {
        ancestors,
        place,
        node,
        declared: &declared,
    };
    if let Some(rule) = broken_rule(pass.rules, pass.all, names, visit) {
        return Err(LowerError::Invalid(rule, node.id));
    }
    declare_all(names, &declared)?;
    Ok(())
}
