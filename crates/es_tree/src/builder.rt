//! What makes new nodes.
ghost use Rattle.std.specs.Prelude.{◌≡◌, ◌+◌, ◌-◌, ◌<◌, ◌^◌};

use crate::ids::NodeId;
use std::alloc::Global;

/// Gives new nodes their memory and their ids.
#[derive(Drop)]
pub struct AstBuilder {
    pub alloc: Global,
    /// The id of the next new node.
    pub next: u32,
}

impl AstBuilder {
    /// Takes the memory from `alloc`, and counts the ids from `next`.
    pub fn new(alloc: Global, next: u32) -> AstBuilder
        ensures { result ≡ record { alloc = alloc; next = next } }
    {
        AstBuilder { alloc, next }
    }

    /// The next id. The last, 2^32 - 1, is never given.
    pub fn new_id(&mut self) -> NodeId
        requires { self.old.next < 2 ^ 32 - 1 }
        ensures id { result.0 ≡ self.old.next }
        ensures counted { self.new.next ≡ self.old.next + 1 }
        ensures same { self.new.alloc ≡ self.old.alloc }
    {
        let id = NodeId(self.next);
        self.next += 1;
        id
    }
}
