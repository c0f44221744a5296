//! In the constructor of a class that extends another the name for `this` is set behind each `super(..)` (ECMA-262, 13.3.7.1), where there is no `this`
//! before.
//!
//! Before, as arrows leave it:
//!
//!     class A extends B { constructor() { var _this = this; super(); f(function () { return _this; }); } }
//!     class C extends B { constructor(a) { var _this = this; a ? super(a) : super(); f(function () { return _this; }); } }
//!
//! After:
//!
//!     class A extends B { constructor() { var _this; super(); _this = this; f(function () { return _this; }); } }
//!     class C extends B { constructor(a) { var _this; a ? (super(a), _this = this) : (super(), _this = this); f(function () { return _this; }); } }
//!
//! Its rule is `set_this` of es_constructor_this.
#![tactic(auto)]

mod bodies;
mod calls;
mod declarations;
mod made_nodes;
mod names;
mod places;
mod walk;

ghost use Rattle.es_tree.specs.Fresh.{is_among};
ghost use Rattle.es_scope.specs.Contexts.{made_of};
ghost use Rattle.std.specs.Prelude.{◌≡◌, OnOk};
ghost use Rattle.es_set_this.specs.ConstructorThis.{set_this};
ghost use Rattle.es_super_calls.specs.declared.standing.ClassStanding.TheVariants.{Elsewhere};

use crate::walk::walk_node;
use es_scope::context::TraverseCtx;
use es_super_calls::standing::ClassStanding;
use es_tree::node::Node;
use std::alloc::AllocError;

/// Sets the name for `this` behind `super(..)` in each constructor of a class that extends another, where the context made that name. Fails only for
/// want of memory; the program is then in no stated shape.
pub fn set_this<S>(program: &mut Node, ctx: &TraverseCtx<S>) -> Result<(), AllocError>
    ensures { OnOk result (program.new ≡ set_this (is_among (made_of ctx.now)) Elsewhere program.old) }
{
    walk_node(program, ClassStanding::Elsewhere, ctx)
}
