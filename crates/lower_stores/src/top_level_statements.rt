//! Statements that are to be written at the top of the program.
ghost use Rattle.std.specs.Prelude.{◌≡◌, ◌≤◌, ◌+◌, ◌++◌, ◌∷◌, [], List, OnErr, OnOk, length, map, option_map, option_to_list};
ghost use Rattle.es_tree.specs.Bare.{bare};
ghost use Rattle.es_tree.specs.Tree.{Tree};
ghost use Rattle.lower_stores.specs.Insertions.{StandsAmong};
ghost use Rattle.lower_stores.specs.TopLevel.{behind_imports, imports_before, is_import, with_declarations};

use es_statements::program::Program;
use es_tree::kind::Kind;
use es_tree::node::Node;
use es_tree::sorts::Statement;
use std::alloc::{AllocError, Global};
use std::marker::Model;

/// The statements that are to be written at the top of the program.
///
/// A call answers an error only for want of memory, and leaves the store as it was.
#[derive(Drop)]
pub struct TopLevelStatementsStore {
    stmts: Vec<Statement>,
}

impl Model for TopLevelStatementsStore {
    ghost use Rattle.std.specs.Prelude.{List, map};
    ghost use Rattle.es_tree.specs.Bare.{bare};
    ghost use Rattle.es_tree.specs.Tree.{Tree};
    ghost use Rattle.lower_stores.specs.TopLevel.{trees_code};

    ghost Value = { List Tree };

    ghost coded = { trees_code };

    ghost view = { λ store. map bare store.stmts.items };
}

impl TopLevelStatementsStore {
    /// The store with nothing to write. Takes no memory.
    pub fn new(alloc: Global) -> TopLevelStatementsStore
        ensures { result ≡ [] }
    {
        TopLevelStatementsStore {
            stmts: Vec::new(alloc),
        }
    }

    /// This statement, behind those that are there.
    pub fn insert_statement(&mut self, stmt: Statement) -> Result<(), AllocError>
        ensures inserted { OnOk result (self.new ≡ self.old ++ bare stmt ∷ []) }
        ensures kept { OnErr result (self.new ≡ self.old) }
    {
        self.stmts.push(stmt)?;
        Ok(())
    }

    /// These statements, behind those that are there.
    pub fn insert_statements(&mut self, mut stmts: Vec<Statement>) -> Result<(), AllocError>
        ensures inserted { OnOk result (self.new ≡ self.old ++ map bare stmts.items) }
        ensures kept { OnErr result (self.new ≡ self.old) }
    {
        self.stmts.append(&mut stmts)?;
        Ok(())
    }

    /// The imports of a module or the requires of a script, and then the program's own declarations by `var` and by
    /// `let`, behind those that are there.
    pub fn insert_declarations(
        &mut self,
        imports: Vec<Statement>,
        var: Option<Statement>,
        lets: Option<Statement>,
    ) -> Result<(), AllocError>
        ensures inserted { OnOk result (self.new ≡ with_declarations self.old (map bare imports.items) (option_map bare var) (option_map bare lets)) }
        ensures kept { OnErr result (self.new ≡ self.old) }
    {
        let mut stmts = imports;
        push_if_there(&mut stmts, var)?;
        push_if_there(&mut stmts, lets)?;
        self.insert_statements(stmts)?;
        Ok(())
    }

    /// Writes all before the first statement of the program that is no import, and has nothing more to write.
    pub fn insert_into_program(&mut self, program: &mut Program) -> Result<(), AllocError>
        ensures written { OnOk result (map bare program.new.body.items ≡ behind_imports self.old (map bare program.old.body.items)) }
        ensures among { OnOk result (StandsAmong program.old.body.items program.new.body.items) }
        ensures emptied { OnOk result (self.new ≡ []) }
        ensures kept { OnErr result (self.new ≡ self.old) }
        ensures unwritten { OnErr result (program.new.body.items ≡ program.old.body.items) }
        ensures else_same { program.new ≡ record program.old { body = program.new.body } }
    {
        put_behind_imports(&mut program.body, &mut self.stmts)?;
        Ok(())
    }
}

/// Puts this statement behind the others, if it is there.
fn push_if_there(stmts: &mut Vec<Statement>, stmt: Option<Statement>) -> Result<(), AllocError>
    ensures { OnOk result (stmts.new.items ≡ stmts.old.items ++ option_to_list stmt) }
{
    if let Some(stmt) = stmt {
        stmts.push(stmt)?;
    }
    Ok(())
}

/// Takes the second statements, and puts them before the first of the others that is no import.
fn put_behind_imports(
    body: &mut Vec<Statement>,
    stmts: &mut Vec<Statement>,
) -> Result<(), AllocError>
    ensures written { OnOk result (body.new.items ≡ behind_imports stmts.old.items body.old.items) }
    ensures taken { OnOk result (stmts.new.items ≡ []) }
    ensures kept { OnErr result (stmts.new.items ≡ stmts.old.items) }
    ensures unwritten { OnErr result (body.new.items ≡ body.old.items) }
{
    let count = stmts.len();
    let first = imports_before(body);
    body.append(stmts)?;
    rotate_behind(body, first, count);
    Ok(())
}

/// Puts the last statements, which are this many, behind the first ones.
fn rotate_behind(statements: &mut [Statement], first: usize, count: usize)
    requires { first + count ≤ length statements.old }
    ensures { (fronts middles lasts : List Tree) → statements.old ≡ fronts ++ (middles ++ lasts) → length fronts ≡ first → length lasts ≡ count → statements.new ≡ fronts ++ (lasts ++ middles) }
{
    statements[first..].rotate_right(count);
}

/// How many imports stand before the first statement that is none.
fn imports_before(statements: &[Statement]) -> usize
    ensures { result ≡ imports_before statements.now }
{
    for (index, statement) in statements.iter().enumerate() {
        if !is_import(statement) {
            return index;
        }
    }
    statements.len()
}

fn is_import(statement: &Node) -> bool
    ensures { result ≡ is_import statement.now }
{
    matches!(&statement.kind, Kind::ImportDeclaration)
}
