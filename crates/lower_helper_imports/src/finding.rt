//! Whether a program imports helpers, and where it can't.
ghost use Rattle.std.specs.Prelude.{◌≡◌, ℕ, Bool, Option, option_map, true};
ghost use Rattle.es_tree.specs.HasForm.{has_form};
ghost use Rattle.es_tree.specs.Options.{is_external};
ghost use Rattle.es_tree.specs.Tree.{Tree, fields_of, kind_of, label_of};
ghost use Rattle.es_tree.specs.Views.{plain_field};
ghost use Rattle.es_tree.specs.Walks.{first_in_field, first_node};
ghost use Rattle.es_tree.specs.declared.options.EnvOptions.{EnvOptions as PlainOptions};
ghost use Rattle.es_tree.specs.declared.table.Sort.TheVariants.{Program as s-Program};
ghost use Rattle.es_semantic.specs.TableOf.{IsTableOf};
ghost use Rattle.es_helper_calls.specs.Importing.{binds_require, imports_helpers, is_module, needs_helper, own_call, unimported};
ghost use Rattle.lower_helper_imports.specs.HelperImports.{Tells, first_asking, number_of, sought_test};

use crate::calls::used_helper;
use es_nodes::construct::is_object_spread;
use es_nodes::rest_targets::is_rest_assignment;
use es_rest_nodes::strays::is_rest_declaration;
use es_scope::scoping::Scoping;
use es_tree::ids::NodeId;
use es_tree::kind::Kind;
use es_tree::node::{Field, Node};
use es_tree::operators::SourceType;
use es_tree::options::{EnvOptions, HelperLoaderMode};

/// What a program tells of the helpers that it imports, with no scope table yet.
#[derive(Clone, Copy)]
pub struct HelperImports {
    is_module: bool,
    /// The first node that asks for a helper.
    asking: Option<NodeId>,
    /// The first use of a helper that the source itself makes.
    calling: Option<NodeId>,
}

/// What is looked for.
#[derive(Clone, Copy)]
struct Sought {
    /// Nodes for which a helper copies.
    copies: bool,
    /// Uses of helpers.
    calls: bool,
}

impl HelperImports {
    /// What a program under these options tells, where `using` was lowered (`made`), or wasn't, whose source makes this use itself.
    pub fn of_program(
        program: &Node,
        options: &EnvOptions,
        made: bool,
        calling: Option<NodeId>,
    ) -> HelperImports
        requires { has_form s-Program program.now ≡ true }
        ensures { Tells options.now made (option_map number_of calling) program.now result }
    {
        HelperImports {
            is_module: is_module(program),
            asking: first_asking(program, options, made),
            calling,
        }
    }

    /// Whether the program imports helpers.
    pub fn are_asked(&self) -> bool
        ensures { (o : PlainOptions) (made : Bool) (own : Option ℕ) (p : Tree) → Tells o made own p self.now → result ≡ imports_helpers o made p }
    {
        self.asking.is_some()
    }

    /// The node at which it can't, if there is one, of the program with this scope table.
    pub fn find_unsupported(self, scoping: &Scoping) -> Option<NodeId>
        ensures { (o : PlainOptions) (made : Bool) (own : Option ℕ) (p : Tree) → Tells o made own p self → IsTableOf p scoping.now → option_map number_of result ≡ unimported o made own p }
    {
        if self.asking.is_none() {
            return None;
        }
        if self.binds_require(scoping) {
            self.asking.or(self.calling)
        } else {
            self.calling
        }
    }

    /// Whether it is a script whose own scope binds `require`, where it has this scope table.
    fn binds_require(self, scoping: &Scoping) -> bool
        ensures { (p : Tree) → self.is_module ≡ is_module p → IsTableOf p scoping.now → result ≡ binds_require p }
    {
        !self.is_module
            && scoping
                .get_binding(scoping.root_scope_id(), "require")
                .is_some()
    }
}

/// The first use of a helper that a source itself makes, where helpers are imported.
pub fn own_call(source: &Node, options: &EnvOptions) -> Option<NodeId>
    ensures { option_map number_of result ≡ own_call options.now source.now }
{
    if is_external(options.helper_loader.mode) {
        return None;
    }
    let sought = Sought {
        copies: false,
        calls: true,
    };
    first_node(source, sought)
}

/// The first node that asks for a helper, where helpers are imported: one for which a helper copies, or a use of a helper, where `using` was
/// lowered.
fn first_asking(program: &Node, options: &EnvOptions, made: bool) -> Option<NodeId>
    ensures { option_map number_of result ≡ first_asking options.now made program.now }
{
    let sought = Sought {
        copies: options.es2018.object_rest_spread.is_some(),
        calls: made,
    };
    if is_external(options.helper_loader.mode) || !(sought.copies || sought.calls) {
        return None;
    }
    first_node(program, sought)
}

fn is_external(mode: HelperLoaderMode) -> bool
    ensures { result ≡ is_external mode }
{
    matches!(mode, HelperLoaderMode::External)
}

fn is_module(program: &Node) -> bool
    requires { has_form s-Program program.now ≡ true }
    ensures { result ≡ is_module program.now }
{
    match program.kind {
        Kind::Program { source_type, .. } => matches!(source_type, SourceType::Module),
        _ => false,
    }
}

/// The first node of a tree that is what is looked for.
#[cycle(first)]
fn first_node(node: &Node, sought: Sought) -> Option<NodeId>
    ensures { option_map number_of result ≡ first_node (sought_test sought) node.now }
{
    if is_sought(node, sought) {
        return Some(node.id);
    }
    for field in &node.fields {
        if let Some(found) = first_in_field(field, sought) {
            return Some(found);
        }
    }
    None
}

/// The first in a field.
#[cycle(first)]
fn first_in_field(field: &Field, sought: Sought) -> Option<NodeId>
    ensures { option_map number_of result ≡ first_in_field (sought_test sought) (plain_field field.now) }
{
    match field {
        Field::Missing => None,
        Field::One(node) => first_node(node, sought),
        Field::Many(nodes) | Field::Statements(nodes) => {
            for node in nodes {
                if let Some(found) = first_node(node, sought) {
                    return Some(found);
                }
            }
            None
        }
    }
}

fn is_sought(node: &Node, sought: Sought) -> bool
    ensures { result ≡ sought_test sought (kind_of node.now) (label_of node.now) (fields_of node.now) }
{
    (sought.copies && needs_helper(node)) || (sought.calls && used_helper(node).is_some())
}

/// Whether a helper copies for the node, where it is lowered.
fn needs_helper(node: &Node) -> bool
    ensures { result ≡ needs_helper (kind_of node.now) (label_of node.now) (fields_of node.now) }
{
    is_object_spread(node) || is_rest_declaration(node) || is_rest_assignment(node)
}
