//! Trees by example. What a tree is read from is stated as JSON text, with the JavaScript beside it.

mod constructs;
mod every_kind;
mod made_nodes;
mod options;
mod walks;

use es_json::program::read_program;
use es_tree::node::Node;
use serde_json::Value;
use std::alloc::Global;
use std::test::Fail;

/// The program of this text.
fn program_of(alloc: Global, text: &str) -> Result<Node, Fail> {
    let value = Value::from_str(alloc, text)?;
    let read = read_program(alloc, &value)?;
    Ok(read.program)
}
