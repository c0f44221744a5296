//! Fresh names.
ghost use Rattle.std.specs.Prelude.{◌≡◌, ◌++◌, ◌∷◌, ◌<◌, [], ℕ, IfOk, OnOk, bytes_eq, false, map, string_bytes, true};
ghost use Rattle.std.specs.List.{list_any};
ghost use Rattle.es_tree.specs.Fresh.{IsFreshName, also, candidate, is_among, node_base, text_base};
ghost use Rattle.es_tree.specs.Names.{names_of};
ghost use Rattle.es_tree.specs.Words.{Text};
ghost use Rattle.es_scope.specs.Taken.{AreTaken, AreUnderscored, is_underscored};

use crate::base::{base_of_node, base_of_text};
use crate::names::insert_names;
use es_tree::node::Node;
use std::alloc::{AllocError, Global};
use std::collections::{HashMap, HashSet};

/// Makes names that no binding or reference of a program has: for a base `b` the first of `_b`, `_b2`,
/// `_b3` and so on that is not in use.
///
/// A call answers an error only for want of memory. It may then have recorded a name as made, or have
/// taken it into use, without answering it.
#[derive(Drop)]
pub struct UidGenerator {
    alloc: Global,
    in_use: HashSet<String>,
    /// For each base how many of its candidates, from the first on, are known to be in use.
    taken: HashMap<String, u32>,
    made: Vec<String>,
    ghost counted: { AreTaken taken in_use },
    ghost underscored: { AreUnderscored made.items },
}

impl UidGenerator {
    ghost use Rattle.es_scope.specs.Uids.{StaysInUse, made, uses};

    /// A generator for a program, whose names are in use.
    pub fn new(alloc: Global, program: &Node) -> Result<UidGenerator, AllocError>
        ensures in_use { IfOk result (λ uids. (x : Text) → uses uids x ≡ is_among (names_of program.now) x) }
        ensures none_made { IfOk result (λ uids. made uids ≡ []) }
    {
        let mut in_use = HashSet::new(alloc);
        insert_names(alloc, &mut in_use, program)?;
        Ok(UidGenerator {
            alloc,
            in_use,
            taken: HashMap::new(alloc),
            made: Vec::new(alloc),
        })
    }

    /// A fresh name of this base, which is in use from then on.
    pub fn generate(&mut self, base: &str) -> Result<String, AllocError>
        ensures fresh { IfOk result (λ name. IsFreshName (uses self.old) base.now (string_bytes name)) }
        ensures taken { IfOk result (λ name. (x : Text) → uses self.new x ≡ also (string_bytes name) (uses self.old) x) }
        ensures made { IfOk result (λ name. made self.new ≡ made self.old ++ string_bytes name ∷ []) }
        ensures kept { StaysInUse self.old self.new }
    {
        let (number, name) = self.first_free(base)?;
        self.take(base, number, name.as_str())?;
        Ok(name)
    }

    /// A fresh name for a node, of the base that the node gives.
    pub fn generate_from_node(&mut self, node: &Node) -> Result<String, AllocError>
        ensures fresh { IfOk result (λ name. IsFreshName (uses self.old) (node_base node.now) (string_bytes name)) }
        ensures taken { IfOk result (λ name. (x : Text) → uses self.new x ≡ also (string_bytes name) (uses self.old) x) }
        ensures made { IfOk result (λ name. made self.new ≡ made self.old ++ string_bytes name ∷ []) }
        ensures kept { StaysInUse self.old self.new }
    {
        let base = base_of_node(self.alloc, node)?;
        self.generate(base.as_str())
    }

    /// A fresh name for a text, of the base that the text gives.
    pub fn generate_from_text(&mut self, text: &str) -> Result<String, AllocError>
        ensures fresh { IfOk result (λ name. IsFreshName (uses self.old) (text_base text.now) (string_bytes name)) }
        ensures taken { IfOk result (λ name. (x : Text) → uses self.new x ≡ also (string_bytes name) (uses self.old) x) }
        ensures made { IfOk result (λ name. made self.new ≡ made self.old ++ string_bytes name ∷ []) }
        ensures kept { StaysInUse self.old self.new }
    {
        let base = base_of_text(self.alloc, text)?;
        self.generate(base.as_str())
    }

    /// Takes this name into use. It counts as no fresh name.
    pub fn use_name(&mut self, name: &str) -> Result<(), AllocError>
        ensures taken { OnOk result ((x : Text) → uses self.new x ≡ also name.now (uses self.old) x) }
        ensures made { made self.new ≡ made self.old }
        ensures kept { StaysInUse self.old self.new }
    {
        let used = String::from_str(self.alloc, name)?;
        self.in_use.insert(used)?;
        Ok(())
    }

    /// Whether this name was made here. The names made are searched, if it begins as they do.
    pub fn has_made(&self, name: &str) -> bool
        ensures { result ≡ is_among (made self.now) name.now }
    {
        is_underscored(name) && is_one_of(self.made.as_slice(), name)
    }

    /// The names made, in the order made.
    pub fn into_made(self) -> Vec<String>
        ensures { map string_bytes result.items ≡ made self }
    {
        self.made
    }

    /// The first candidate of the base that is not in use, and its number. Where there is none below
    /// the largest number, the names in use would not fit into memory.
    fn first_free(&self, base: &str) -> Result<(u32, String), AllocError>
        ensures number { IfOk result (λ found. found.0 < u32.MAX) }
        ensures name { IfOk result (λ found. string_bytes found.1 ≡ candidate base.now found.0) }
        ensures free { IfOk result (λ found. uses self.now (candidate base.now found.0) ≡ false) }
        ensures first { IfOk result (λ found. (m : ℕ) → m < found.0 → uses self.now (candidate base.now m) ≡ true) }
    {
        let known = self.taken.get(base).copied().unwrap_or(0);
        for number in known..u32::MAX {
            let name = candidate(self.alloc, base, number)?;
            if !self.in_use.contains(name.as_str()) {
                return Ok((number, name));
            }
        }
        Err(AllocError)
    }

    /// Takes the candidate of this number into use.
    fn take(&mut self, base: &str, number: u32, name: &str) -> Result<(), AllocError>
        requires number { number < u32.MAX }
        requires name { name.now ≡ candidate base.now number }
        requires first { (m : ℕ) → m < number → uses self.old (candidate base.now m) ≡ true }
        ensures taken { OnOk result ((x : Text) → uses self.new x ≡ also name.now (uses self.old) x) }
        ensures made { OnOk result (made self.new ≡ made self.old ++ name.now ∷ []) }
        ensures kept { StaysInUse self.old self.new }
    {
        let key = String::from_str(self.alloc, base)?;
        let used = String::from_str(self.alloc, name)?;
        self.made.push(String::from_str(self.alloc, name)?)?;
        self.in_use.insert(used)?;
        self.taken.insert(key, number + 1)?;
        Ok(())
    }
}

/// Whether a name begins with `_`, as each name that is made does.
fn is_underscored(name: &str) -> bool
    ensures { result ≡ is_underscored name.now }
{
    match name.as_bytes() {
        [first, ..] => *first == b'_',
        [] => false,
    }
}

/// Whether a name is one of these.
fn is_one_of(names: &[String], name: &str) -> bool
    ensures { result ≡ list_any (λ made. bytes_eq (string_bytes made) name.now) names.now }
{
    names.iter().any(|made| made.as_str() == name)
}

/// The candidate of this number: `_b` for 0, `_b2` for 1 and so on.
fn candidate(alloc: Global, base: &str, number: u32) -> Result<String, AllocError>
    ensures { IfOk result (λ name. string_bytes name ≡ candidate base.now number) }
{
    if number == 0 {
        return format!(in alloc; "_{base}");
    }
    let shown = u64::from(number) + 1;
    format!(in alloc; "_{base}{shown}")
}
