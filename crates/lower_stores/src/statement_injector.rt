//! Statements that are to be written around other statements.
ghost use Rattle.std.specs.Prelude.{◌≡◌, ◌≤◌, ◌+◌, ◌++◌, ◌∷◌, [], ℕ, IfErr, IfNone, IfOk, IfSome, IsOk, IsSome, None, OnErr, OnOk, OnSome, Some, false, length, map, nat_eq, option_copied, vec_capacity, vec_len};
ghost use Rattle.std.specs.FinMap as finite;
ghost use Rattle.std.specs.HashMap.{get};
ghost use Rattle.es_tree.specs.Bare.{bare};
ghost use Rattle.lower_stores.specs.Insertions.{StandsAmong, inserted, is_any_around, moved, nothing_around, still_to_insert, with_after, with_around, with_before, with_lists, with_many_after, with_many_before};
ghost use Rattle.lower_stores.specs.BareInsertions.{bare_lists, has_lists, lists_left, lists_length, room_for, surrounded_by, woven};

use es_tree::ids::NodeId;
use es_tree::sorts::Statement;
use std::alloc::{AllocError, AllocFailed, Global};
use std::collections::HashMap;
use std::marker::Model;
use std::mem;

/// The statements that are to stand before and after one statement.
#[derive(Drop)]
struct Lists {
    befores: Vec<Statement>,
    afters: Vec<Statement>,
}

/// The statements that are to be written before and after other statements, by the ids of these.
///
/// A call answers an error only for want of memory, and leaves the store as it was.
#[derive(Drop)]
pub struct StatementInjectorStore {
    alloc: Global,
    insertions: HashMap<u32, Lists>,
}

impl Model for StatementInjectorStore {
    ghost use Rattle.lower_stores.specs.Insertions.{Insertions, insertions_code};

    ghost Value = { Insertions };

    ghost coded = { insertions_code };

    ghost use Rattle.lower_stores.specs.BareInsertions.{bare_insertions};

    ghost view = { λ store. bare_insertions store.insertions.entries };
}

impl StatementInjectorStore {
    /// The store with nothing to insert. Takes no memory.
    pub fn new(alloc: Global) -> StatementInjectorStore
        ensures { result ≡ finite.empty }
    {
        StatementInjectorStore {
            alloc,
            insertions: HashMap::new(alloc),
        }
    }

    /// This statement is to stand right before the target.
    pub fn insert_before(&mut self, target: NodeId, stmt: Statement) -> Result<(), AllocError>
        ensures inserted { OnOk result (self.new ≡ with_around (with_before (bare stmt)) target.0 self.old) }
        ensures kept { OnErr result (self.new ≡ self.old) }
    {
        let lists = Lists {
            befores: Vec::from_array(self.alloc, [stmt])?,
            afters: Vec::new(self.alloc),
        };
        self.append(target, lists)?;
        Ok(())
    }

    /// This statement is to stand after the target and after what already is to stand there.
    pub fn insert_after(&mut self, target: NodeId, stmt: Statement) -> Result<(), AllocError>
        ensures inserted { OnOk result (self.new ≡ with_around (with_after (bare stmt)) target.0 self.old) }
        ensures kept { OnErr result (self.new ≡ self.old) }
    {
        let lists = Lists {
            befores: Vec::new(self.alloc),
            afters: Vec::from_array(self.alloc, [stmt])?,
        };
        self.append(target, lists)?;
        Ok(())
    }

    /// These statements are to stand before the target and before what already is to stand there.
    pub fn insert_many_before(
        &mut self,
        target: NodeId,
        stmts: Vec<Statement>,
    ) -> Result<(), AllocError>
        ensures inserted { OnOk result (self.new ≡ with_around (with_many_before (map bare stmts.items)) target.0 self.old) }
        ensures kept { OnErr result (self.new ≡ self.old) }
    {
        match self.insertions.get_mut(&target.0) {
            Some(there) => there.put_first(stmts),
            None => {
                let lists = Lists {
                    befores: stmts,
                    afters: Vec::new(self.alloc),
                };
                self.insertions.insert(target.0, lists)?;
                Ok(())
            }
        }
    }

    /// These statements are to stand after the target and after what already is to stand there.
    pub fn insert_many_after(
        &mut self,
        target: NodeId,
        stmts: Vec<Statement>,
    ) -> Result<(), AllocError>
        ensures inserted { OnOk result (self.new ≡ with_around (with_many_after (map bare stmts.items)) target.0 self.old) }
        ensures kept { OnErr result (self.new ≡ self.old) }
    {
        let lists = Lists {
            befores: Vec::new(self.alloc),
            afters: stmts,
        };
        self.append(target, lists)?;
        Ok(())
    }

    /// What is to stand around the old target is to stand around the new one, each list behind the one that is there.
    pub fn move_insertions(
        &mut self,
        old_target: NodeId,
        new_target: NodeId,
    ) -> Result<(), AllocError>
        ensures moved { OnOk result (self.new ≡ moved old_target.0 new_target.0 self.old) }
        ensures kept { OnErr result (self.new ≡ self.old) }
    {
        if old_target.0 == new_target.0 {
            return Ok(());
        }
        let Some(lists) = self.take(old_target) else {
            return Ok(());
        };
        match self.append(new_target, lists) {
            Ok(()) => {
                self.insertions.remove(&old_target.0);
                Ok(())
            }
            Err(failed) => {
                self.put_back(old_target, failed.value);
                Err(AllocError)
            }
        }
    }

    /// Puts around each of these statements what is to stand there, which is then no longer to be inserted. Where
    /// nothing is to stand around any of them, takes no memory and leaves the list as it is.
    pub fn insert_into_statements(
        &mut self,
        statements: &mut Vec<Statement>,
    ) -> Result<(), AllocError>
        ensures written { OnOk result (map bare statements.new.items ≡ inserted self.old statements.old.items) }
        ensures left { OnOk result (self.new ≡ still_to_insert self.old statements.old.items) }
        ensures among { OnOk result (StandsAmong statements.old.items statements.new.items) }
        ensures kept { OnErr result (self.new ≡ self.old) }
        ensures unwritten { OnErr result (statements.new.items ≡ statements.old.items) }
        ensures untouched { is_any_around self.old statements.old.items ≡ false → (statements.new ≡ statements.old) × IsOk result }
    {
        if !has_lists(&self.insertions, statements) {
            return Ok(());
        }
        let room = count_with_lists(&self.insertions, statements)?;
        let written = Vec::with_capacity(self.alloc, room)?;
        let bare = mem::replace(statements, Vec::new(self.alloc));
        *statements = weave(&mut self.insertions, bare, written);
        Ok(())
    }

    /// Puts these lists behind those of the target. Gives them back where there is no memory.
    fn append(&mut self, target: NodeId, lists: Lists) -> Result<(), AllocFailed<Lists>>
        ensures appended { OnOk result (self.new ≡ with_around (with_lists (bare_lists lists)) target.0 self.old) }
        ensures kept { OnErr result (self.new ≡ self.old) }
        ensures returned { IfErr result (λ failed. bare_lists failed.value ≡ bare_lists lists) }
    {
        match self.insertions.get_mut(&target.0) {
            Some(there) => there.append(lists),
            None => match self.insertions.insert(target.0, lists) {
                Ok(_) => Ok(()),
                Err(AllocFailed { value: (_, lists) }) => Err(AllocFailed { value: lists }),
            },
        }
    }

    /// The lists of the target, if it has any, with empty ones left in their place.
    fn take(&mut self, target: NodeId) -> Option<Lists>
        ensures absent { IfNone result ((self.new ≡ self.old) × (finite.get self.old target.0 ≡ None)) }
        ensures there { IfSome result (λ lists. finite.get self.old target.0 ≡ Some (bare_lists lists)) }
        ensures emptied { OnSome result (self.new ≡ finite.insert self.old target.0 nothing_around) }
    {
        let nothing = Lists {
            befores: Vec::new(self.alloc),
            afters: Vec::new(self.alloc),
        };
        let Some(there) = self.insertions.get_mut(&target.0) else {
            return None;
        };
        Some(mem::replace(there, nothing))
    }

    /// Puts these lists in the place of those of the target.
    fn put_back(&mut self, target: NodeId, lists: Lists)
        requires { IsSome (finite.get self.old target.0) }
        ensures { self.new ≡ finite.insert self.old target.0 (bare_lists lists) }
    {
        let Some(there) = self.insertions.get_mut(&target.0) else {
            unreachable!();
        };
        *there = lists;
    }
}

impl Lists {
    /// Puts each of these lists behind its own. Gives them back where there is no memory.
    fn append(&mut self, lists: Lists) -> Result<(), AllocFailed<Lists>>
        ensures appended { OnOk result (bare_lists self.new ≡ with_lists (bare_lists lists) (bare_lists self.old)) }
        ensures kept { OnErr result (bare_lists self.new ≡ bare_lists self.old) }
        ensures returned { IfErr result (λ failed. bare_lists failed.value ≡ bare_lists lists) }
    {
        let Lists {
            mut befores,
            mut afters,
        } = lists;
        if self.befores.reserve(befores.len()).is_err() {
            let value = Lists { befores, afters };
            return Err(AllocFailed { value });
        }
        if self.afters.append(&mut afters).is_err() {
            let value = Lists { befores, afters };
            return Err(AllocFailed { value });
        }
        self.befores.append(&mut befores).unwrap();
        Ok(())
    }

    /// Puts these statements before all its befores.
    fn put_first(&mut self, mut stmts: Vec<Statement>) -> Result<(), AllocError>
        ensures first { OnOk result (bare_lists self.new ≡ with_many_before (map bare stmts.items) (bare_lists self.old)) }
        ensures kept { OnErr result (bare_lists self.new ≡ bare_lists self.old) }
    {
        stmts.append(&mut self.befores)?;
        self.befores = stmts;
        Ok(())
    }
}

/// Whether one of these statements has lists.
fn has_lists(insertions: &HashMap<u32, Lists>, statements: &[Statement]) -> bool
    ensures { result ≡ has_lists (get nat_eq insertions.now) statements.now }
{
    for statement in statements {
        if insertions.contains_key(&statement.id.0) {
            return true;
        }
    }
    false
}

/// How many statements there are with the lists of each of them.
fn count_with_lists(
    insertions: &HashMap<u32, Lists>,
    statements: &[Statement],
) -> Result<usize, AllocError>
    ensures { IfOk result (λ count. count ≡ room_for (get nat_eq insertions.now) statements.now) }
{
    let mut count = 0;
    for statement in statements {
        let lists = insertions.get(&statement.id.0);
        count = count_further(count, lists)?;
    }
    Ok(count)
}

/// This count with one statement more, and its lists. More than 2^64 statements have no room in memory.
fn count_further(count: usize, lists: Option<&Lists>) -> Result<usize, AllocError>
    ensures { IfOk result (λ further. further ≡ count + (lists_length (option_copied lists.entry) + 1)) }
{
    let further = match lists {
        Some(lists) => count
            .checked_add(lists.befores.len())
            .and_then(|count| count.checked_add(lists.afters.len())),
        None => Some(count),
    };
    let further = further.and_then(|count| count.checked_add(1));
    further.ok_or(AllocError)
}

/// Behind what is written these statements, each with its lists around it. The lists are taken out.
fn weave(
    insertions: &mut HashMap<u32, Lists>,
    statements: Vec<Statement>,
    mut written: Vec<Statement>,
) -> Vec<Statement>
    requires { vec_len written + length (woven (get nat_eq insertions.old) statements.items) ≤ vec_capacity written }
    ensures written { result.items ≡ written.items ++ woven (get nat_eq insertions.old) statements.items }
    ensures left { (id : ℕ) → get nat_eq insertions.new id ≡ lists_left (get nat_eq insertions.old) statements.items id }
{
    for statement in statements {
        let lists = insertions.remove(&statement.id.0);
        written = surround(lists, statement, written);
    }
    written
}

/// Behind what is written this statement with its lists around it.
fn surround(
    lists: Option<Lists>,
    statement: Statement,
    mut written: Vec<Statement>,
) -> Vec<Statement>
    requires { vec_len written + length (surrounded_by lists statement) ≤ vec_capacity written }
    ensures written { result.items ≡ written.items ++ surrounded_by lists statement }
    ensures len { vec_len result ≡ vec_len written + length (surrounded_by lists statement) }
    ensures capacity { vec_capacity written ≤ vec_capacity result }
{
    match lists {
        Some(
            Lists {
                mut befores,
                mut afters,
            },
        ) => {
            written.append(&mut befores).unwrap();
            written.push(statement).unwrap();
            written.append(&mut afters).unwrap();
        }
        None => written.push(statement).unwrap(),
    }
    written
}
