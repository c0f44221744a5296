//! The names that a binding pattern binds.
ghost use Rattle.std.specs.Prelude.{IfOk, OnOk, ◌++◌, ◌≡◌};
ghost use Rattle.es_tree.specs.BoundNames.{bound_identifiers, bound_in_field};
ghost use Rattle.es_tree.specs.Views.{plain_field};

use crate::kind::Kind;
use crate::node::{Field, Node};
use std::alloc::{AllocError, Global};

impl Node {
    /// Copies of the identifiers that the binding pattern binds, in source order, with their ids and
    /// marks (ECMA-262, 8.2.1); none of anything else. Fails where memory runs out.
    pub fn bound_names(&self, alloc: Global) -> Result<Vec<Node>, AllocError>
        ensures { IfOk result (λ names. names.items ≡ bound_identifiers self.now) }
    {
        let mut names = Vec::new(alloc);
        self.push_bound_names(alloc, &mut names)?;
        Ok(names)
    }

    #[cycle(bound)]
    fn push_bound_names(&self, alloc: Global, names: &mut Vec<Node>) -> Result<(), AllocError>
        ensures { OnOk result (names.new.items ≡ names.old.items ++ bound_identifiers self.now) }
    {
        match &self.kind {
            Kind::Identifier { .. } => names.push(self.clone_tree(alloc)?)?,
            Kind::ObjectPattern | Kind::AssignmentPattern | Kind::RestElement => {
                if let Some(field) = self.fields.first() {
                    field.push_bound_names(alloc, names)?;
                }
            }
            Kind::PatternProperty { .. } => {
                if let Some(value) = self.fields.get(1) {
                    value.push_bound_names(alloc, names)?;
                }
            }
            Kind::ArrayPattern => {
                for element in &self.fields {
                    element.push_bound_names(alloc, names)?;
                }
            }
            _ => {}
        }
        Ok(())
    }
}

impl Field {
    #[cycle(bound)]
    fn push_bound_names(&self, alloc: Global, names: &mut Vec<Node>) -> Result<(), AllocError>
        ensures { OnOk result (names.new.items ≡ names.old.items ++ bound_in_field (plain_field self.now)) }
    {
        match self {
            Field::Missing => {}
            Field::One(node) => node.push_bound_names(alloc, names)?,
            Field::Many(nodes) | Field::Statements(nodes) => {
                for node in nodes {
                    node.push_bound_names(alloc, names)?;
                }
            }
        }
        Ok(())
    }
}
