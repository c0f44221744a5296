//! Where a visit of a program begins: what the sources of programs meet at the first moment. The functions do nothing: their contracts are
//! laws over the definitions.
#![tactic(auto)]

ghost use Rattle.es_tree.specs.Tree.{Tree};
ghost use Rattle.es_traverse.specs.ContextMoments.{moment};
ghost use Rattle.es_starts.specs.Contexts.{IsNew, LawBindsNames};
ghost use Rattle.es_starts.specs.Starts.{IsFirst, LawFirstConditions, LawFirstOfTable, LawFits};

use es_scope::context::TraverseCtx;
use es_traverse::lowering::Additions;

/// The source of a program that has form and breaks no static rule fits the first moment of a visit.
pub fn law_fits()
    ensures { LawFits }
{}

/// The source of a program that has no shape that a run doesn't take meets the conditions of a visit by the core lowerings.
pub fn law_first_conditions()
    ensures { LawFirstConditions }
{}

/// The scope table of a program numbers, names and holds steady its symbols as the first moment has them.
pub fn law_first_of_table()
    ensures { LawFirstOfTable }
{}

/// The table of a program that has form and breaks no static rule binds names of the program alone, so that a context can be made of them.
pub fn law_binds_names()
    ensures { LawBindsNames }
{}

/// The moment of a new context is the first one.
pub fn law_first_of_context<S: Additions>(context: &TraverseCtx<S>)
    ensures { (p : Tree) → IsNew p S.pending context.now → IsFirst p (moment S.pending context.now) }
{}
