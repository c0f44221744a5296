//! The reader of programs.
ghost use Rattle.std.specs.Prelude.{◌≡◌, ◌<◌, ◌^◌, [], IfOk, IfErr, IsErrOf};
ghost use Rattle.serde_json.specs.View.{view};
ghost use Rattle.es_tree.specs.Order.{IsNumbered, IsUnmarked};
ghost use Rattle.es_tree.specs.Tree.{tree_size};
ghost use Rattle.es_json.specs.Faults.{faults};
ghost use Rattle.es_json.specs.Programs.{IsProgramForm, IsRefusal};

use crate::error::ReadError;
use crate::limits::{value_depth, value_objects};
use crate::pointer::pointer;
use crate::reader::read_node;
use es_tree::builder::AstBuilder;
use es_tree::error::LowerError;
use es_tree::node::Node;
use es_tree::table::Sort;
use serde_json::Value;
use std::alloc::Global;

/// So many JSON objects are too many.
const TOO_MANY_OBJECTS: u64 = 1_048_576;

/// A value may nest so deep.
const MAX_DEPTH: u64 = 400;

/// A program that was read, and the builder of further nodes, whose ids follow those of the program.
#[derive(Drop)]
pub struct ReadProgram {
    pub program: Node,
    pub ast: AstBuilder,
}

/// Reads a program in the tree form. Its nodes are numbered in node order, and no mark stands.
///
/// Fails with `TooLarge` exactly where the value has 2^20 JSON objects or more, else with `TooDeep`
/// exactly where it nests more than 400 deep, else with `Shape` exactly where a place fails by itself,
/// and names the first in reading order. It fails with `OutOfMemory` where memory runs out.
pub fn read_program(alloc: Global, value: &Value) -> Result<ReadProgram, LowerError>
    ensures form { IfOk result (λ read. IsProgramForm (view value.now) read.program) }
    ensures order { IfOk result (λ read. IsNumbered 0 read.program) }
    ensures marks { IfOk result (λ read. IsUnmarked read.program) }
    ensures size { IfOk result (λ read. tree_size read.program < 2 ^ 20) }
    ensures next { IfOk result (λ read. read.ast.next ≡ tree_size read.program) }
    ensures none { IfOk result (λ _. faults Sort.Program (view value.now) ≡ []) }
    ensures refused { IfErr result (λ error. IsRefusal (view value.now) error) }
{
    let objects = value_objects(value);
    if objects >= TOO_MANY_OBJECTS {
        return Err(LowerError::TooLarge(objects));
    }
    let depth = value_depth(value);
    if depth > MAX_DEPTH {
        return Err(LowerError::TooDeep(depth));
    }
    let mut ast = AstBuilder::new(alloc, 0);
    match read_node(value, Sort::Program, &mut ast) {
        Ok(program) => Ok(ReadProgram { program, ast }),
        Err(ReadError::Shape(steps)) => Err(LowerError::Shape(pointer(alloc, steps)?)),
        Err(ReadError::OutOfMemory) => Err(LowerError::OutOfMemory),
    }
}
