//! The lowering of object rests that are declared (ECMA-262, 14.3.3): the rest of a pattern is what a helper answers that copies all but the
//! keys before. One that stands alone is what another copies, once a third has asked that there is something to take apart.
//!
//! | source | written |
//! |---|---|
//! | `const { a, ...b } = c;` | `const { a } = c, b = babelHelpers.objectWithoutProperties(c, ["a"]);` |
//! | `const { a, ...b } = f();` | `const _f = f(), { a } = _f, b = babelHelpers.objectWithoutProperties(_f, ["a"]);` |
//! | `const { "a": x = 1, ...b } = c, d = 2;` | `const { "a": x = 1 } = c, b = babelHelpers.objectWithoutProperties(c, ["a"]), d = 2;` |
//! | `const { 0x10: x, ["a"]: y, ...b } = c;` | `const { 0x10: x, ["a"]: y } = c, b = babelHelpers.objectWithoutProperties(c, ["16", "a"]);` |
//! | `const { a, [k()]: b, ...d } = c;` | `const { a } = c, _k = k(), { [_k]: b } = c, d = babelHelpers.objectWithoutProperties(c, ["a", _k].map(babelHelpers.toPropertyKey));` |
//! | `const { [k]: a, ["b"]: x, ...d } = c;` | `const {} = c, _k = k, { [_k]: a, ["b"]: x } = c, d = babelHelpers.objectWithoutProperties(c, [_k, "b"].map(babelHelpers.toPropertyKey));` |
//! | `const { ...b } = c;` | `const b = babelHelpers.extends({}, (babelHelpers.objectDestructuringEmpty(c), c));` |
//! | `var { ...a } = a;` | `var _a = a, a = babelHelpers.extends({}, (babelHelpers.objectDestructuringEmpty(_a), _a));` |
//! | `let { x: { ...y }, w } = o;` | `let { x: _ref } = o, y = babelHelpers.extends({}, (babelHelpers.objectDestructuringEmpty(_ref), _ref)), { w } = o;` |
//! | `const { a: { b, ...c } = {}, ...d } = e;` | `const { a: _ref = {} } = e, { b } = _ref, c = babelHelpers.objectWithoutProperties(_ref, ["b"]), d = babelHelpers.objectWithoutProperties(e, ["a"]);` |
//!
//! Before:
//!
//!     const { size, ...others } = settings();
//!
//! After:
//!
//!     const _settings = settings(), { size } = _settings, others = babelHelpers.objectWithoutProperties(_settings, ["size"]);
//!
//! A value that gives the same each time is read where it stands: a name that nothing writes and that the pattern doesn't bind, or a made
//! name. Any other is evaluated once, and stored. The properties come before the rest, as in the source. A computed key that is no literal
//! and no template without expressions is read once, where it stood, and has a name from there on. A pattern with a rest in a property
//! gives way to a name for what the property gives, and is declared in its turn, before the properties behind it. `babelHelpers` is an
//! unbound name of the written program, whose meaning is the host's: a run refuses a program that declares such a pattern and binds the name
//! anywhere.
//!
//! Its rule is `RestWalkRow` of es_rest_rows.
#![tactic(auto)]

ghost use Rattle.std.specs.Prelude.{◌&&◌, ◌≡◌, is_some};
ghost use Rattle.es_tree.specs.Tree.{fields_of, kind_of, label_of};
ghost use Rattle.lower_object_rest.specs.Lawful.{object_rest_lawful};
ghost use Rattle.lower_object_rest.specs.Profile.{object_rest_profile};
ghost use Rattle.lower_object_rest.specs.Shapes.{is_lowerable_declaration};

mod declarations;
mod groups;
mod nested;
mod patterns;
mod rests;
mod sources;

use crate::declarations::lower_declaration;
use crate::patterns::is_lowerable_declaration;
use es_scope::context::TraverseCtx;
use es_tree::node::Node;
use es_tree::options::EnvOptions;
use lower_nodes::NodeLowering;
use lower_temporaries::made_nodes::new_placeholder;
use lower_temporaries::state::TransformState;
use std::alloc::AllocError;
use std::mem;

/// The lowering of object rests that are declared.
#[derive(Clone, Copy, Debug)]
pub struct ObjectRest {
    is_on: bool,
}

impl ObjectRest {
    /// The lowering, as these options ask for it. It takes no memory.
    pub fn new(options: &EnvOptions) -> ObjectRest
        ensures { result.is_on ≡ is_some options.now.es2018.object_rest_spread }
    {
        ObjectRest {
            is_on: options.es2018.object_rest_spread.is_some(),
        }
    }

    /// Whether it lowers this node.
    fn lowers(&self, node: &Node) -> bool
        ensures { result ≡ (self.now.is_on && is_lowerable_declaration (kind_of node.now) (label_of node.now) (fields_of node.now)) }
    {
        self.is_on && is_lowerable_declaration(node)
    }
}

impl NodeLowering for ObjectRest {
    ghost profile = { object_rest_profile };

    ghost suits = { λ x o. x.is_on ≡ is_some o.es2018.object_rest_spread };

    /// Lowers a declaration with a pattern with a rest, once what stands in it was lowered.
    fn lower(
        &self,
        node: &mut Node,
        ctx: &mut TraverseCtx<TransformState>,
    ) -> Result<(), AllocError> {
        if !self.lowers(node) {
            return Ok(());
        }
        let taken = mem::replace(node, new_placeholder(ctx.ast.alloc));
        *node = lower_declaration(taken, ctx)?;
        Ok(())
    }

    ghost lawful = { λ x o. object_rest_lawful o };
}
