//! The import and the export that are made (ECMA-262, 16.2.2 and 16.2.3).
ghost use Rattle.std.specs.Prelude.{◌≡◌, ◌+◌, ◌-◌, ◌<◌, ◌^◌, IfOk, OnOk};
ghost use Rattle.es_tree.specs.Tree.{trees};
ghost use Rattle.lower_namespace_exports.specs.Exports.{export_of, import_of, place_of};

use es_patterns::modules::{
    ImportDeclaration, new_export_named_declaration, new_export_specifier,
    new_import_namespace_specifier,
};
use es_tree::builder::AstBuilder;
use es_tree::ids::{NodeId, Span};
use es_tree::node::Node;
use es_tree::sorts::Statement;
use lower_temporaries::declarations::MADE;
use std::alloc::AllocError;

/// `import * as local from source with { attributes }`, with the id and the place of what it stands for.
pub(crate) fn namespace_import(
    id: NodeId,
    span: Span,
    local: Node,
    source: Node,
    attributes: Vec<Node>,
    ast: &mut AstBuilder,
) -> Result<Statement, AllocError>
    requires room { ast.old.next < 2 ^ 32 - 1 }
    ensures made { IfOk result (λ node. node ≡ import_of (place_of id span) ast.old.next local source (trees attributes.items)) }
    ensures counted { OnOk result (ast.new.next ≡ ast.old.next + 1) }
{
    let specifier = new_import_namespace_specifier(ast, MADE, local)?;
    let specifiers = Vec::from_array(ast.alloc, [specifier])?;
    let made = ImportDeclaration {
        id,
        span,
        specifiers,
        source,
        attributes,
    };
    made.close(ast.alloc)
}

/// `export { local as exported }`
pub(crate) fn export_as(
    local: Node,
    exported: Node,
    ast: &mut AstBuilder,
) -> Result<Statement, AllocError>
    requires room { ast.old.next + 2 < 2 ^ 32 - 1 }
    ensures made { IfOk result (λ node. node ≡ export_of ast.old.next local exported) }
    ensures counted { OnOk result (ast.new.next ≡ ast.old.next + 2) }
{
    let specifier = new_export_specifier(ast, MADE, local, exported)?;
    let specifiers = Vec::from_array(ast.alloc, [specifier])?;
    let attributes = Vec::new(ast.alloc);
    let node = new_export_named_declaration(ast, MADE, None, specifiers, None, attributes)?;
    Ok(node)
}
