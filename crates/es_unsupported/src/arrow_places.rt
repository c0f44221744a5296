//! What is known of places, as far as arrows that become functions ask (ECMA-262, 15.3). Fields count from 0.
ghost use Rattle.std.specs.Prelude.{◌≡◌, ◌&&◌, ◌||◌, ◌==◌, if◌then◌else◌, not};
ghost use Rattle.es_tree.specs.Ancestors.{ancestor};
ghost use Rattle.es_tree.specs.HasForm.{same_type};
ghost use Rattle.es_tree.specs.Tree.{done, fields_of, kind_of, label_of};
ghost use Rattle.es_tree.specs.Views.{plain_field};
ghost use Rattle.es_tree.specs.declared.ast_type.AstType.TheVariants.{ArrowFunctionExpression};
ghost use Rattle.es_semantic.specs.Places.{is_inside};
ghost use Rattle.es_steps.specs.ThisPlaces.{keeps_this};
ghost use Rattle.es_arrow_steps.specs.ThisFits.{reaches_in};
ghost use Rattle.es_valid_arrows.specs.ArrowPlaces.{is_wrapped_slot, parameter_in};
ghost use Rattle.es_super_calls.specs.Constructors.{is_constructor};
ghost use Rattle.es_unsupported.specs.ArrowShapes.{arrow_place_in, outside};
ghost use Rattle.es_unsupported.specs.EarlySuper.{has_arrow_this};

use crate::early_super::has_arrow_this;
use crate::edges::{
    is_arrow, is_field_value, keeps_this, leads_to_parameter, leads_to_part, leads_to_value,
};
use crate::scopes::is_inside_at;
use es_slots::wrapped::field_holds;
use es_super_calls::standing::ClassStanding;
use es_tree::kind::Kind;
use es_tree::node::{Field, Node};
use es_tree::options::EnvOptions;

/// What is known of a place.
#[derive(Clone, Copy)]
pub struct ArrowPlace {
    /// It belongs to an arrow, or to the value of a slot that is wrapped.
    pub in_arrow: bool,
    /// A pattern there is a parameter, or a part of one.
    pub parameter: bool,
    /// A `this` there reaches the list of the statements in which its name would be declared.
    pub reaches: bool,
    /// What it is to the constructors of classes that extend others.
    pub standing: ClassStanding,
    /// It is a parameter of such a constructor, or stands in one, and a `this` of its body belongs to an arrow.
    pub early_super: bool,
    /// A scope inside the innermost arrow binds `arguments`.
    pub own_arguments: bool,
}

impl ArrowPlace {
    /// Of a program.
    pub(crate) fn outside() -> ArrowPlace
        ensures { result ≡ outside }
    {
        ArrowPlace {
            in_arrow: false,
            parameter: false,
            reaches: true,
            standing: ClassStanding::Elsewhere,
            early_super: false,
            own_arguments: false,
        }
    }

    /// Of what stands in this field of a node of which this is known, and whether its scope binds `arguments`. Nothing more
    /// where no arrow is to become a function.
    pub(crate) fn inside(
        self,
        node: &Node,
        index: usize,
        field: &Field,
        binds: bool,
        options: &EnvOptions,
    ) -> ArrowPlace
        ensures { result ≡ arrow_place_in options.now binds self (kind_of node.now) (label_of node.now) (fields_of node.now) index (plain_field field.now) }
    {
        if options.es2015.arrow_function.is_none() {
            return self;
        }
        let wrapped = self.is_wrapped_slot(node, index, field, options);
        ArrowPlace {
            in_arrow: self.arrow_in(node, index, wrapped),
            parameter: self.parameter_in(node, index),
            reaches: self.reaches_in(node, index),
            standing: self.standing.inside(node, index),
            early_super: self.early_super_in(node, index),
            own_arguments: self.own_arguments_in(node, index, wrapped, binds),
        }
    }

    /// Whether what stands in this field belongs to an arrow.
    fn arrow_in(self, node: &Node, index: usize, wrapped: bool) -> bool
        ensures { result ≡ (wrapped || (not (keeps_this (ancestor (kind_of node.now) (label_of node.now) done index 0)) && (same_type (kind_of node.now) ArrowFunctionExpression || self.in_arrow))) }
    {
        wrapped || (!keeps_this(node, index) && (is_arrow(node) || self.in_arrow))
    }

    /// Whether a call of `super` in this field comes before the name that it would set.
    fn early_super_in(self, node: &Node, index: usize) -> bool
        ensures { result ≡ (if keeps_this (ancestor (kind_of node.now) (label_of node.now) done index 0) then is_constructor self.standing && index == 1 && has_arrow_this (fields_of node.now) else self.early_super) }
    {
        if keeps_this(node, index) {
            matches!(self.standing, ClassStanding::Constructor)
                && index == 1
                && has_arrow_this(node)
        } else {
            self.early_super
        }
    }

    /// Whether a scope inside the innermost arrow binds `arguments`.
    fn own_arguments_in(self, node: &Node, index: usize, wrapped: bool, binds: bool) -> bool
        ensures { result ≡ ((not (wrapped || same_type (kind_of node.now) ArrowFunctionExpression) && self.own_arguments) || (binds && is_inside (kind_of node.now) index)) }
    {
        (!(wrapped || is_arrow(node)) && self.own_arguments)
            || (binds && is_inside_at(&node.kind, index))
    }

    /// Whether the field is a slot that holds what it is wrapped for.
    fn is_wrapped_slot(self, node: &Node, index: usize, field: &Field, options: &EnvOptions) -> bool
        ensures { result ≡ is_wrapped_slot options.now self.parameter (ancestor (kind_of node.now) (label_of node.now) done index 0) (plain_field field.now) }
    {
        (is_field_value(node, index) || (leads_to_value(node, index) && self.parameter))
            && field_holds(field, options)
    }

    /// Whether a pattern in this field of a node is a parameter, or a part of one.
    fn parameter_in(self, node: &Node, index: usize) -> bool
        ensures { result ≡ parameter_in self.parameter (ancestor (kind_of node.now) (label_of node.now) done index 0) }
    {
        leads_to_parameter(node, index) || (leads_to_part(node, index) && self.parameter)
    }

    /// Whether a `this` in this field of a node reaches its list.
    fn reaches_in(self, node: &Node, index: usize) -> bool
        ensures { result ≡ reaches_in self.reaches (ancestor (kind_of node.now) (label_of node.now) done index 0) }
    {
        match &node.kind {
            Kind::FunctionDeclaration { .. } | Kind::FunctionExpression { .. } => index == 2,
            Kind::StaticBlock { .. } => true,
            Kind::PropertyDefinition { .. } => index != 1 && self.reaches,
            _ => self.reaches,
        }
    }
}
