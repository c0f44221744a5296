//! Why a JSON value isn't read, and where.
ghost use Rattle.std.specs.Prelude.{List, false};
ghost use Rattle.es_json.specs.Faults.{Path, here, under, TellsFirst};

use es_tree::table::FieldName;
use std::alloc::{AllocError, AllocFailed, Global};

/// A step from a value to one inside it.
#[derive(Clone, Copy, PartialEq, Eq, Debug)]
pub enum Step {
    /// To a field of a node.
    Field(FieldName),
    /// To an item of a list, counted from 0.
    Index(usize),
}

/// Why a JSON value isn't read.
#[derive(Debug, Drop)]
pub enum ReadError {
    /// A place fails by itself, and none before it: the steps to it, the last first.
    Shape(Vec<Step>),
    /// Memory or ids ran out.
    OutOfMemory,
}

impl ReadError {
    /// The error for the value that this step leads into.
    pub(crate) fn under(self, step: Step) -> ReadError
        ensures { (paths : List Path) → TellsFirst self paths → TellsFirst result (under step paths) }
    {
        let ReadError::Shape(mut steps) = self else {
            return ReadError::OutOfMemory;
        };
        match steps.push(step) {
            Ok(()) => ReadError::Shape(steps),
            Err(_full) => ReadError::OutOfMemory,
        }
    }
}

/// The error for a value whose field fails by itself.
pub(crate) fn fault_at(alloc: Global, field: FieldName) -> ReadError
    ensures { TellsFirst result (under (Step.Field field) (here false)) }
{
    ReadError::Shape(Vec::new(alloc)).under(Step::Field(field))
}

impl From<AllocError> for ReadError {
    ghost use Rattle.std.specs.Prelude.{◌≡◌};
    ghost use Rattle.es_json.specs.declared.error.ReadError.TheVariants.{OutOfMemory};

    ghost from_gives = { λ _ e. e ≡ OutOfMemory };

    fn from(_refused: AllocError) -> ReadError {
        ReadError::OutOfMemory
    }
}

impl<T: Drop> From<AllocFailed<T>> for ReadError {
    ghost use Rattle.std.specs.Prelude.{◌≡◌};
    ghost use Rattle.es_json.specs.declared.error.ReadError.TheVariants.{OutOfMemory};

    ghost from_gives = { λ _ e. e ≡ OutOfMemory };

    fn from(_refused: AllocFailed<T>) -> ReadError {
        ReadError::OutOfMemory
    }
}
