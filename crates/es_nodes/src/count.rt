//! How many nodes a tree has.
ghost use Rattle.std.specs.Prelude.{◌≡◌};
ghost use Rattle.es_tree.specs.Capped.{capped};
ghost use Rattle.es_tree.specs.Tree.{field_size, tree_size};
ghost use Rattle.es_tree.specs.Views.{plain_field};

use es_tree::node::{Field, Node};

/// The number of nodes of the program, and 2^64 - 1 where there are more. Takes no memory.
#[cycle(count)]
pub fn count_nodes(program: &Node) -> u64
    ensures { result ≡ capped (tree_size program.now) }
{
    let mut count: u64 = 1;
    for field in &program.fields {
        count = count.saturating_add(count_field(field));
    }
    count
}

#[cycle(count)]
fn count_field(field: &Field) -> u64
    ensures { result ≡ capped (field_size (plain_field field.now)) }
{
    match field {
        Field::Missing => 0,
        Field::One(node) => count_nodes(node),
        Field::Many(nodes) | Field::Statements(nodes) => {
            let mut count: u64 = 0;
            for node in nodes {
                count = count.saturating_add(count_nodes(node));
            }
            count
        }
    }
}
