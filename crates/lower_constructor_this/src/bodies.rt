//! The body of a constructor of a class that extends another, where the name for `this` is declared first.
//!
//! Before:
//!
//!     { var _this = this; super(); f(function () { return _this; }); }
//!
//! After:
//!
//!     { var _this; super(); _this = this; f(function () { return _this; }); }
//!
//! The rule is `set_in_body` of es_constructor_this.
ghost use Rattle.std.specs.Prelude.{◌≡◌, OnOk, option_copied};
ghost use Rattle.es_tree.specs.Fresh.{is_among};
ghost use Rattle.es_tree.specs.Tree.{trees};
ghost use Rattle.es_tree.specs.Views.{plain_fields};
ghost use Rattle.es_scope.specs.Contexts.{made_of};
ghost use Rattle.es_set_this.specs.ConstructorThis.{set_in_body, set_statements};
ghost use Rattle.lower_constructor_this.specs.Parts.{name_to_set};

use crate::calls::set_in_list;
use crate::declarations::{remove_value, this_name};
use crate::names::names_among;
use es_scope::context::TraverseCtx;
use es_tree::node::{Field, Node};
use std::alloc::AllocError;

/// `{ var x; super(); x = this; }` for the fields of a body `{ var x = this; super(); }`.
pub(crate) fn set_in_body<S>(
    fields: &mut Vec<Field>,
    ctx: &TraverseCtx<S>,
) -> Result<(), AllocError>
    ensures { OnOk result (plain_fields fields.new.items ≡ set_in_body (is_among (made_of ctx.now)) (plain_fields fields.old.items)) }
{
    if fields.len() != 2 {
        return Ok(());
    }
    match &mut fields[1] {
        Field::Statements(statements) => set_statements(statements, ctx),
        _ => Ok(()),
    }
}

/// `var x; super(); x = this;` for the statements `var x = this; super();`.
fn set_statements<S>(statements: &mut Vec<Node>, ctx: &TraverseCtx<S>) -> Result<(), AllocError>
    ensures { OnOk result (trees statements.new.items ≡ set_statements (is_among (made_of ctx.now)) (trees statements.old.items)) }
{
    let Some(found) = name_to_set(statements.as_slice(), ctx) else {
        return Ok(());
    };
    let name = String::from_str(ctx.ast.alloc, found)?;
    remove_value(&mut statements[0]);
    set_in_list(statements, name.as_str(), ctx.ast.alloc)
}

/// The name x of statements `var x = this; super();`, where x was made and stands nowhere else in what is gone through.
fn name_to_set<'a, S>(statements: &'a [Node], ctx: &TraverseCtx<S>) -> Option<&'a str>
    ensures { option_copied result ≡ name_to_set (is_among (made_of ctx.now)) (trees statements.now) }
{
    match statements {
        [declaration, others @ ..] => {
            let name = this_name(declaration, ctx)?;
            if names_among(name, others) {
                None
            } else {
                Some(name)
            }
        }
        [] => None,
    }
}
