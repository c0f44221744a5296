//! The constants that lists of excluded keys become: their names, their declarators and the statement of all of them.
ghost use Rattle.std.specs.Prelude.{◌≡◌, [], IfOk, OnOk};
ghost use Rattle.es_tree.specs.Bare.{bare};
ghost use Rattle.es_tree.specs.Words.{Text};
ghost use Rattle.es_scope.specs.Uids.{made, uses};
ghost use Rattle.es_statements.specs.ProgramPlain.{plain_program};
ghost use Rattle.es_steps.specs.CoreBridge.{first_whole};
ghost use Rattle.lower_excluded_keys.specs.Parts.{declarator_with_name, with_declarators};
ghost use Rattle.lower_excluded_keys.specs.Sharing.{Becomes, IsNamed};

use es_scope::uids::UidGenerator;
use es_statements::program::{Program, VariableDeclaration, VariableDeclarator};
use es_tree::node::Node;
use es_tree::operators::VariableDeclarationKind;
use lower_fresh_names::new_generator;
use lower_fresh_names::nodes::{MADE, new_name};
use lower_helper_imports::calls::ID;
use lower_helper_imports::statements::put_behind_imports;
use std::alloc::{AllocError, Global};
use std::mem;

/// The base of the fresh names: `_excluded`, `_excluded2` and so on.
const BASE: &str = "excluded";

/// The constants of a program, as far as they are made.
#[derive(Drop)]
pub(crate) struct MadeConstants {
    pub(crate) alloc: Global,
    /// The generator of their names.
    pub(crate) uids: UidGenerator,
    /// `_excluded = ["a"]` for each.
    pub(crate) declarators: Vec<Node>,
}

impl MadeConstants {
    /// None yet, for the program. Fails only for want of memory.
    pub(crate) fn new(alloc: Global, program: &Node) -> Result<MadeConstants, AllocError>
        ensures in_use { IfOk result (λ constants. (x : Text) → uses constants.uids x ≡ (first_whole program.now).in_use x) }
        ensures none_made { IfOk result (λ constants. made constants.uids ≡ []) }
        ensures none_declared { IfOk result (λ constants. constants.declarators.items ≡ []) }
    {
        let uids = new_generator(alloc, program)?;
        Ok(MadeConstants {
            alloc,
            uids,
            declarators: Vec::new(alloc),
        })
    }

    /// Puts a fresh name where a list stands, and the list into a declarator of it: `_excluded` for `["a"]`, by `_excluded = ["a"]`.
    pub(crate) fn share(&mut self, list: &mut Node) -> Result<(), AllocError>
        ensures { OnOk result (Becomes (IsNamed list.old) bare self.old self.new list.new) }
    {
        let name = self.uids.generate(BASE)?;
        let place = new_name(ID, name.as_str(), self.alloc)?;
        let keys = mem::replace(list, place);
        let declarator = new_declarator(name.as_str(), keys, self.alloc)?;
        self.declarators.push(declarator)?;
        Ok(())
    }
}

/// `_excluded = ["a"]`
fn new_declarator(name: &str, keys: Node, alloc: Global) -> Result<Node, AllocError>
    ensures { IfOk result (λ node. node ≡ declarator_with_name name.now keys) }
{
    let declarator = VariableDeclarator {
        id: ID,
        span: MADE,
        binding: new_name(ID, name, alloc)?,
        init: Some(keys),
    };
    declarator.close(alloc)
}

/// Puts `const _excluded = ["a"], _excluded2 = ["b"];` of these declarators behind the first imports of a program, if there are any.
pub(crate) fn declare(
    declarators: Vec<Node>,
    program: &mut Program,
    alloc: Global,
) -> Result<(), AllocError>
    ensures { OnOk result (plain_program program.new ≡ with_declarators declarators.items (plain_program program.old)) }
{
    if declarators.is_empty() {
        return Ok(());
    }
    let declaration = VariableDeclaration {
        id: ID,
        span: MADE,
        kind: VariableDeclarationKind::Const,
        declarations: declarators,
    };
    put_behind_imports(program, declaration.close(alloc)?)
}
