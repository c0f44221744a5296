//! Declarators that are to be written at the heads of statement lists.
ghost use Rattle.std.specs.Prelude.{◌==◌, ◌≡◌, ◌+◌, ◌-◌, ◌<◌, ◌^◌, ◌∷◌, [], IfOk, OnErr, OnOk, None, Some, codes, length, map, string_bytes, true};
ghost use Rattle.std.specs.List.{list_all};
ghost use Rattle.es_tree.specs.Words.{variable_declaration_kind_text};
ghost use Rattle.es_changes.specs.Moments.{below, top};
ghost use Rattle.es_statements.specs.ProgramPlain.{plain_variable_declarator};
ghost use Rattle.es_steps.specs.Nodes.{declarator_with, identifier};
ghost use Rattle.es_steps.specs.Open.{nothing_pending, with_vars};
ghost use Rattle.lower_temporaries.specs.Declarators.{IsInert, binding_node, bound_as, declaration_of, declarations_for, declarations_written, declarator_of, seen_option};
ghost use Rattle.lower_temporaries.specs.SeenTrees.{IsSeenAsOption, is_inert, seen_alone};
ghost use Rattle.lower_temporaries.specs.Stacks.{with_let, with_top, with_var};
ghost use Rattle.lower_temporaries.specs.Store.{are_inert, is_inert_pending};

use es_scope::context_names::BoundIdentifier;
use es_statements::program::{VariableDeclarator, new_variable_declarator};
use es_tree::builder::AstBuilder;
use es_tree::ids::Span;
use es_tree::kind::Kind;
use es_tree::node::{Field, Node};
use es_tree::operators::VariableDeclarationKind;
use es_tree::sorts::{BindingPattern, Expression, Statement};
use std::alloc::{AllocError, Global};
use std::marker::Model;

/// The place of made nodes.
pub const MADE: Span = Span { start: 0, end: 0 };

/// The declarators of one statement list.
#[derive(Drop)]
struct Pair {
    vars: Vec<Node>,
    lets: Vec<Node>,
}

/// The declarators that are to be written at the head of each statement list around the place, and of each body of an
/// arrow that is an expression, those of `var` before those of `let`. Each is inert.
///
/// A call answers an error only for want of memory, and leaves the store as it was.
#[derive(Drop)]
pub struct VarDeclarationsStore {
    alloc: Global,
    /// From the outermost list to the innermost.
    pairs: Vec<Pair>,
    ghost inert: { are_inert pairs.items ≡ true },
}

impl Model for VarDeclarationsStore {
    ghost use Rattle.std.specs.Prelude.{List};
    ghost use Rattle.es_steps.specs.Open.{Pending};
    ghost use Rattle.lower_temporaries.specs.Stacks.{stack_code};

    ghost Value = { List Pending };

    ghost coded = { stack_code };

    ghost use Rattle.lower_temporaries.specs.Store.{pendings_in};

    ghost view = { λ store. pendings_in store.pairs.items };
}

impl VarDeclarationsStore {
    /// The store at the program's own list, with nothing to declare.
    pub fn new(alloc: Global) -> Result<VarDeclarationsStore, AllocError>
        ensures { IfOk result (λ store. store ≡ nothing_pending ∷ []) }
    {
        let pair = Pair {
            vars: Vec::new(alloc),
            lets: Vec::new(alloc),
        };
        let pairs = Vec::from_array(alloc, [pair])?;
        Ok(VarDeclarationsStore { alloc, pairs })
    }

    /// Whether no statement list is open.
    pub fn is_empty(&self) -> bool
        ensures { result ≡ (length self.now == 0) }
    {
        self.pairs.is_empty()
    }

    /// `var` of this name at the head of the innermost list.
    pub fn insert_var(
        &mut self,
        binding: &BoundIdentifier,
        ast: &mut AstBuilder,
    ) -> Result<(), AllocError>
        requires there { 0 < length self.old }
        requires room { ast.old.next + 2 < 2 ^ 32 }
        ensures inserted { OnOk result (self.new ≡ with_top (with_vars (bound_as binding.now ∷ [])) self.old) }
        ensures counted { OnOk result (ast.new.next ≡ ast.old.next + 2) }
        ensures kept { OnErr result (self.new ≡ self.old) }
    {
        let ident = binding_identifier(binding, ast)?;
        self.insert_var_binding_pattern(ident, None, ast)?;
        Ok(())
    }

    /// `var` of this name with this initialiser.
    pub fn insert_var_with_init(
        &mut self,
        binding: &BoundIdentifier,
        init: Expression,
        ast: &mut AstBuilder,
    ) -> Result<(), AllocError>
        requires inert { is_inert init ≡ true }
        requires there { 0 < length self.old }
        requires room { ast.old.next + 2 < 2 ^ 32 }
        ensures inserted { OnOk result (self.new ≡ with_top (with_var (declarator_with (identifier (bound_as binding.now)) (seen_alone init))) self.old) }
        ensures counted { OnOk result (ast.new.next ≡ ast.old.next + 2) }
        ensures kept { OnErr result (self.new ≡ self.old) }
    {
        let ident = binding_identifier(binding, ast)?;
        self.insert_var_binding_pattern(ident, Some(init), ast)?;
        Ok(())
    }

    /// `let` of this name, maybe with an initialiser.
    pub fn insert_let(
        &mut self,
        binding: &BoundIdentifier,
        init: Option<Expression>,
        ast: &mut AstBuilder,
    ) -> Result<(), AllocError>
        requires inert { IsInert init }
        requires there { 0 < length self.old }
        requires room { ast.old.next + 2 < 2 ^ 32 }
        ensures inserted { OnOk result (self.new ≡ with_top (with_let (declarator_of (identifier (bound_as binding.now)) (seen_option init))) self.old) }
        ensures counted { OnOk result (ast.new.next ≡ ast.old.next + 2) }
        ensures kept { OnErr result (self.new ≡ self.old) }
    {
        let ident = binding_identifier(binding, ast)?;
        self.insert_let_binding_pattern(ident, init, ast)?;
        Ok(())
    }

    /// `var` of this identifier or pattern, maybe with an initialiser.
    pub fn insert_var_binding_pattern(
        &mut self,
        ident: BindingPattern,
        init: Option<Expression>,
        ast: &mut AstBuilder,
    ) -> Result<(), AllocError>
        requires inert { is_inert ident ≡ true }
        requires init { IsInert init }
        requires there { 0 < length self.old }
        requires room { ast.old.next + 1 < 2 ^ 32 }
        ensures inserted { OnOk result (self.new ≡ with_top (with_var (declarator_of (seen_alone ident) (seen_option init))) self.old) }
        ensures counted { OnOk result (ast.new.next ≡ ast.old.next + 1) }
        ensures kept { OnErr result (self.new ≡ self.old) }
    {
        let declarator = declarator(ident, init, ast)?;
        self.push_var(declarator)?;
        Ok(())
    }

    /// `let` of this identifier or pattern, maybe with an initialiser.
    pub fn insert_let_binding_pattern(
        &mut self,
        ident: BindingPattern,
        init: Option<Expression>,
        ast: &mut AstBuilder,
    ) -> Result<(), AllocError>
        requires inert { is_inert ident ≡ true }
        requires init { IsInert init }
        requires there { 0 < length self.old }
        requires room { ast.old.next + 1 < 2 ^ 32 }
        ensures inserted { OnOk result (self.new ≡ with_top (with_let (declarator_of (seen_alone ident) (seen_option init))) self.old) }
        ensures counted { OnOk result (ast.new.next ≡ ast.old.next + 1) }
        ensures kept { OnErr result (self.new ≡ self.old) }
    {
        let declarator = declarator(ident, init, ast)?;
        self.push_let(declarator)?;
        Ok(())
    }

    /// This declarator of `var`.
    pub fn insert_var_declarator(
        &mut self,
        declarator: VariableDeclarator,
    ) -> Result<(), AllocError>
        requires inert { is_inert (plain_variable_declarator declarator) ≡ true }
        requires there { 0 < length self.old }
        ensures inserted { OnOk result (self.new ≡ with_top (with_var (seen_alone (plain_variable_declarator declarator))) self.old) }
        ensures kept { OnErr result (self.new ≡ self.old) }
    {
        let node = declarator.close(self.alloc)?;
        self.push_var(node)?;
        Ok(())
    }

    /// This declarator of `let`.
    pub fn insert_let_declarator(
        &mut self,
        declarator: VariableDeclarator,
    ) -> Result<(), AllocError>
        requires inert { is_inert (plain_variable_declarator declarator) ≡ true }
        requires there { 0 < length self.old }
        ensures inserted { OnOk result (self.new ≡ with_top (with_let (seen_alone (plain_variable_declarator declarator))) self.old) }
        ensures kept { OnErr result (self.new ≡ self.old) }
    {
        let node = declarator.close(self.alloc)?;
        self.push_let(node)?;
        Ok(())
    }

    /// A statement list begins, with nothing to declare.
    pub fn record_entering_statements(&mut self) -> Result<(), AllocError>
        ensures entered { OnOk result (self.new ≡ nothing_pending ∷ self.old) }
        ensures kept { OnErr result (self.new ≡ self.old) }
    {
        let pair = Pair {
            vars: Vec::new(self.alloc),
            lets: Vec::new(self.alloc),
        };
        self.pairs.push(pair)?;
        Ok(())
    }

    /// The innermost list ends: its declarators as a declaration by `var` and one by `let`, where there are any.
    pub fn get_var_statement(
        &mut self,
        ast: &mut AstBuilder,
    ) -> Result<(Option<Statement>, Option<Statement>), AllocError>
        requires there { 0 < length self.old }
        requires room { ast.old.next + declarations_written (top self.old) < 2 ^ 32 }
        ensures by_var { IfOk result (λ made. IsSeenAsOption made.0 (declaration_of (codes "var") (top self.old).vars)) }
        ensures by_let { IfOk result (λ made. IsSeenAsOption made.1 (declaration_of (codes "let") (top self.old).lets)) }
        ensures inert { OnOk result (is_inert_pending (top self.old) ≡ true) }
        ensures ended { OnOk result (self.new ≡ below self.old) }
        ensures counted { OnOk result (ast.new.next ≡ ast.old.next + declarations_written (top self.old)) }
        ensures kept { OnErr result (self.new ≡ self.old) }
    {
        let last = &self.pairs[self.pairs.len() - 1];
        let var_fields = room_for_declarators(ast.alloc, last.vars.as_slice())?;
        let let_fields = room_for_declarators(ast.alloc, last.lets.as_slice())?;
        match self.pairs.pop() {
            Some(Pair { vars, lets }) => {
                let var = declaration(VariableDeclarationKind::Var, vars, var_fields, ast);
                let other = declaration(VariableDeclarationKind::Let, lets, let_fields, ast);
                Ok((var, other))
            }
            None => unreachable!(),
        }
    }

    fn push_var(&mut self, declarator: Node) -> Result<(), AllocError>
        requires inert { is_inert declarator ≡ true }
        requires there { 0 < length self.old }
        ensures inserted { OnOk result (self.new ≡ with_top (with_var (seen_alone declarator)) self.old) }
        ensures kept { OnErr result (self.new ≡ self.old) }
    {
        let last = self.pairs.len() - 1;
        self.pairs[last].vars.push(declarator)?;
        Ok(())
    }

    fn push_let(&mut self, declarator: Node) -> Result<(), AllocError>
        requires inert { is_inert declarator ≡ true }
        requires there { 0 < length self.old }
        ensures inserted { OnOk result (self.new ≡ with_top (with_let (seen_alone declarator)) self.old) }
        ensures kept { OnErr result (self.new ≡ self.old) }
    {
        let last = self.pairs.len() - 1;
        self.pairs[last].lets.push(declarator)?;
        Ok(())
    }
}

/// An identifier that binds this name, with the mark of its symbol.
fn binding_identifier(binding: &BoundIdentifier, ast: &mut AstBuilder) -> Result<Node, AllocError>
    requires { ast.old.next < 2 ^ 32 - 1 }
    ensures made { IfOk result (λ n. n ≡ binding_node ast.old.next (string_bytes binding.now.name) binding.now.symbol_id.0) }
    ensures counted { OnOk result (ast.new.next ≡ ast.old.next + 1) }
{
    let name = String::from_str(ast.alloc, binding.name.as_str())?;
    let kind = Kind::Identifier {
        name,
        reference: None,
        symbol: Some(binding.symbol_id),
    };
    Ok(Node {
        id: ast.new_id(),
        span: MADE,
        kind,
        fields: Vec::new(ast.alloc),
    })
}

/// A declarator of this binding.
fn declarator(
    binding: BindingPattern,
    init: Option<Expression>,
    ast: &mut AstBuilder,
) -> Result<Node, AllocError>
    requires { ast.old.next < 2 ^ 32 - 1 }
    ensures made { IfOk result (λ n. seen_alone n ≡ declarator_of (seen_alone binding) (seen_option init)) }
    ensures inert { is_inert binding ≡ true → IsInert init → IfOk result (λ n. is_inert n ≡ true) }
    ensures counted { ast.new.next ≡ ast.old.next + 1 }
{
    let declarator = new_variable_declarator(ast, MADE, binding, init)?;
    Ok(declarator)
}

/// Memory for the field of a declaration of these, if there are any.
fn room_for_declarators(alloc: Global, declarators: &[Node]) -> Result<Vec<Field>, AllocError>
    ensures { IfOk result (λ fields. length fields.items ≡ declarations_for declarators.now) }
{
    if declarators.is_empty() {
        return Ok(Vec::new(alloc));
    }
    let fields = Vec::from_array(alloc, [Field::Missing])?;
    Ok(fields)
}

/// The declaration of these, if there are any, in the memory for its field.
fn declaration(
    kind: VariableDeclarationKind,
    declarators: Vec<Node>,
    mut fields: Vec<Field>,
    ast: &mut AstBuilder,
) -> Option<Statement>
    requires inert { list_all is_inert declarators.items ≡ true }
    requires memory { length fields.items ≡ declarations_for declarators.items }
    requires room { ast.old.next + declarations_for declarators.items < 2 ^ 32 }
    ensures made { IsSeenAsOption result (declaration_of (variable_declaration_kind_text kind) (map seen_alone declarators.items)) }
    ensures counted { ast.new.next ≡ ast.old.next + declarations_for declarators.items }
{
    if declarators.is_empty() {
        return None;
    }
    fields[0] = Field::Many(declarators);
    Some(Node {
        id: ast.new_id(),
        span: MADE,
        kind: Kind::VariableDeclaration { kind },
        fields,
    })
}
