//! Imports and exports.
ghost use Rattle.std.specs.Prelude.{IfOk, ◌≡◌, ◌+◌, ◌-◌, ◌^◌, ◌<◌, None};
ghost use Rattle.es_patterns.specs.ModulesArity.{
  IsImportDeclaration,
  IsImportSpecifier,
  IsImportDefaultSpecifier,
  IsImportNamespaceSpecifier,
  IsImportAttribute,
  IsExportNamedDeclaration,
  IsExportSpecifier,
  IsExportDefaultDeclaration,
  IsExportAllDeclaration,
};
ghost use Rattle.es_patterns.specs.ModulesPlain.{
  plain_import_declaration,
  plain_import_specifier,
  plain_import_default_specifier,
  plain_import_namespace_specifier,
  plain_import_attribute,
  plain_export_named_declaration,
  plain_export_specifier,
  plain_export_default_declaration,
  plain_export_all_declaration,
};

use es_tree::builder::AstBuilder;
use es_tree::ids::{NodeId, Span};
use es_tree::kind::Kind;
use es_tree::node::{Field, Node, Parts, exactly};
use es_tree::sorts::{ExportDefault, ImportItem, ModuleExportName};
use std::alloc::{AllocError, Global};

/// An import declaration (ECMA-262, 16.2.2).
#[derive(Drop)]
pub struct ImportDeclaration {
    pub id: NodeId,
    pub span: Span,
    pub specifiers: Vec<ImportItem>,
    pub source: Node,
    pub attributes: Vec<Node>,
}

impl ImportDeclaration {
    /// Takes the node apart.
    pub fn open(node: Node) -> ImportDeclaration
        requires { IsImportDeclaration node }
        ensures { plain_import_declaration result ≡ node }
    {
        let Parts {
            id,
            span,
            kind,
            fields,
        } = node.into_parts();
        match kind {
            Kind::ImportDeclaration => {}
            _other => unreachable!(),
        }
        let [specifiers, source, attributes]: [Field; 3] = exactly(fields);
        ImportDeclaration {
            id,
            span,
            specifiers: specifiers.into_nodes(),
            source: source.into_node(),
            attributes: attributes.into_nodes(),
        }
    }

    /// The node of these parts.
    pub fn close(self, alloc: Global) -> Result<Node, AllocError>
        ensures { IfOk result (λ node. node ≡ plain_import_declaration self) }
    {
        let ImportDeclaration {
            id,
            span,
            specifiers,
            source,
            attributes,
        } = self;
        let kind = Kind::ImportDeclaration;
        let fields = Vec::from_array(
            alloc,
            [
                Field::Many(specifiers),
                Field::One(source),
                Field::Many(attributes),
            ],
        )?;
        Ok(Node {
            id,
            span,
            kind,
            fields,
        })
    }
}

/// A node `ImportDeclaration` with a new id and without marks.
pub fn new_import_declaration(
    ast: &mut AstBuilder,
    span: Span,
    specifiers: Vec<ImportItem>,
    source: Node,
    attributes: Vec<Node>,
) -> Result<Node, AllocError>
    requires { ast.old.next < 2 ^ 32 - 1 }
    ensures made { IfOk result (λ node. node ≡ plain_import_declaration (record { id = record { 0 = ast.old.next }; span = span; specifiers = specifiers; source = source; attributes = attributes })) }
    ensures counted { ast.new.next ≡ ast.old.next + 1 }
{
    let id = ast.new_id();
    let made = ImportDeclaration {
        id,
        span,
        specifiers,
        source,
        attributes,
    };
    made.close(ast.alloc)
}

/// A named import (ECMA-262, 16.2.2).
#[derive(Drop)]
pub struct ImportSpecifier {
    pub id: NodeId,
    pub span: Span,
    pub imported: ModuleExportName,
    pub local: Node,
}

impl ImportSpecifier {
    /// Takes the node apart.
    pub fn open(node: Node) -> ImportSpecifier
        requires { IsImportSpecifier node }
        ensures { plain_import_specifier result ≡ node }
    {
        let Parts {
            id,
            span,
            kind,
            fields,
        } = node.into_parts();
        match kind {
            Kind::ImportSpecifier => {}
            _other => unreachable!(),
        }
        let [imported, local]: [Field; 2] = exactly(fields);
        ImportSpecifier {
            id,
            span,
            imported: imported.into_node(),
            local: local.into_node(),
        }
    }

    /// The node of these parts.
    pub fn close(self, alloc: Global) -> Result<Node, AllocError>
        ensures { IfOk result (λ node. node ≡ plain_import_specifier self) }
    {
        let ImportSpecifier {
            id,
            span,
            imported,
            local,
        } = self;
        let kind = Kind::ImportSpecifier;
        let fields = Vec::from_array(alloc, [Field::One(imported), Field::One(local)])?;
        Ok(Node {
            id,
            span,
            kind,
            fields,
        })
    }
}

/// A node `ImportSpecifier` with a new id and without marks.
pub fn new_import_specifier(
    ast: &mut AstBuilder,
    span: Span,
    imported: ModuleExportName,
    local: Node,
) -> Result<Node, AllocError>
    requires { ast.old.next < 2 ^ 32 - 1 }
    ensures made { IfOk result (λ node. node ≡ plain_import_specifier (record { id = record { 0 = ast.old.next }; span = span; imported = imported; local = local })) }
    ensures counted { ast.new.next ≡ ast.old.next + 1 }
{
    let id = ast.new_id();
    let made = ImportSpecifier {
        id,
        span,
        imported,
        local,
    };
    made.close(ast.alloc)
}

/// A default import (ECMA-262, 16.2.2).
#[derive(Drop)]
pub struct ImportDefaultSpecifier {
    pub id: NodeId,
    pub span: Span,
    pub local: Node,
}

impl ImportDefaultSpecifier {
    /// Takes the node apart.
    pub fn open(node: Node) -> ImportDefaultSpecifier
        requires { IsImportDefaultSpecifier node }
        ensures { plain_import_default_specifier result ≡ node }
    {
        let Parts {
            id,
            span,
            kind,
            fields,
        } = node.into_parts();
        match kind {
            Kind::ImportDefaultSpecifier => {}
            _other => unreachable!(),
        }
        let [local]: [Field; 1] = exactly(fields);
        ImportDefaultSpecifier {
            id,
            span,
            local: local.into_node(),
        }
    }

    /// The node of these parts.
    pub fn close(self, alloc: Global) -> Result<Node, AllocError>
        ensures { IfOk result (λ node. node ≡ plain_import_default_specifier self) }
    {
        let ImportDefaultSpecifier { id, span, local } = self;
        let kind = Kind::ImportDefaultSpecifier;
        let fields = Vec::from_array(alloc, [Field::One(local)])?;
        Ok(Node {
            id,
            span,
            kind,
            fields,
        })
    }
}

/// A node `ImportDefaultSpecifier` with a new id and without marks.
pub fn new_import_default_specifier(
    ast: &mut AstBuilder,
    span: Span,
    local: Node,
) -> Result<Node, AllocError>
    requires { ast.old.next < 2 ^ 32 - 1 }
    ensures made { IfOk result (λ node. node ≡ plain_import_default_specifier (record { id = record { 0 = ast.old.next }; span = span; local = local })) }
    ensures counted { ast.new.next ≡ ast.old.next + 1 }
{
    let id = ast.new_id();
    let made = ImportDefaultSpecifier { id, span, local };
    made.close(ast.alloc)
}

/// A namespace import (ECMA-262, 16.2.2).
#[derive(Drop)]
pub struct ImportNamespaceSpecifier {
    pub id: NodeId,
    pub span: Span,
    pub local: Node,
}

impl ImportNamespaceSpecifier {
    /// Takes the node apart.
    pub fn open(node: Node) -> ImportNamespaceSpecifier
        requires { IsImportNamespaceSpecifier node }
        ensures { plain_import_namespace_specifier result ≡ node }
    {
        let Parts {
            id,
            span,
            kind,
            fields,
        } = node.into_parts();
        match kind {
            Kind::ImportNamespaceSpecifier => {}
            _other => unreachable!(),
        }
        let [local]: [Field; 1] = exactly(fields);
        ImportNamespaceSpecifier {
            id,
            span,
            local: local.into_node(),
        }
    }

    /// The node of these parts.
    pub fn close(self, alloc: Global) -> Result<Node, AllocError>
        ensures { IfOk result (λ node. node ≡ plain_import_namespace_specifier self) }
    {
        let ImportNamespaceSpecifier { id, span, local } = self;
        let kind = Kind::ImportNamespaceSpecifier;
        let fields = Vec::from_array(alloc, [Field::One(local)])?;
        Ok(Node {
            id,
            span,
            kind,
            fields,
        })
    }
}

/// A node `ImportNamespaceSpecifier` with a new id and without marks.
pub fn new_import_namespace_specifier(
    ast: &mut AstBuilder,
    span: Span,
    local: Node,
) -> Result<Node, AllocError>
    requires { ast.old.next < 2 ^ 32 - 1 }
    ensures made { IfOk result (λ node. node ≡ plain_import_namespace_specifier (record { id = record { 0 = ast.old.next }; span = span; local = local })) }
    ensures counted { ast.new.next ≡ ast.old.next + 1 }
{
    let id = ast.new_id();
    let made = ImportNamespaceSpecifier { id, span, local };
    made.close(ast.alloc)
}

/// An import attribute (ECMA-262, 16.2.2).
#[derive(Drop)]
pub struct ImportAttribute {
    pub id: NodeId,
    pub span: Span,
    pub key: String,
    pub value: String,
}

impl ImportAttribute {
    /// Takes the node apart.
    pub fn open(node: Node) -> ImportAttribute
        requires { IsImportAttribute node }
        ensures { plain_import_attribute result ≡ node }
    {
        let Parts {
            id,
            span,
            kind,
            fields,
        } = node.into_parts();
        let (key, value) = match kind {
            Kind::ImportAttribute { key, value } => (key, value),
            _other => unreachable!(),
        };
        let []: [Field; 0] = exactly(fields);
        ImportAttribute {
            id,
            span,
            key,
            value,
        }
    }

    /// The node of these parts.
    pub fn close(self, alloc: Global) -> Result<Node, AllocError>
        ensures { IfOk result (λ node. node ≡ plain_import_attribute self) }
    {
        let ImportAttribute {
            id,
            span,
            key,
            value,
        } = self;
        let kind = Kind::ImportAttribute { key, value };
        let fields = Vec::new(alloc);
        Ok(Node {
            id,
            span,
            kind,
            fields,
        })
    }
}

/// A node `ImportAttribute` with a new id and without marks.
pub fn new_import_attribute(
    ast: &mut AstBuilder,
    span: Span,
    key: String,
    value: String,
) -> Result<Node, AllocError>
    requires { ast.old.next < 2 ^ 32 - 1 }
    ensures made { IfOk result (λ node. node ≡ plain_import_attribute (record { id = record { 0 = ast.old.next }; span = span; key = key; value = value })) }
    ensures counted { ast.new.next ≡ ast.old.next + 1 }
{
    let id = ast.new_id();
    let made = ImportAttribute {
        id,
        span,
        key,
        value,
    };
    made.close(ast.alloc)
}

/// An export of a declaration or of names (ECMA-262, 16.2.3).
#[derive(Drop)]
pub struct ExportNamedDeclaration {
    pub id: NodeId,
    pub span: Span,
    pub declaration: Option<Node>,
    pub specifiers: Vec<Node>,
    pub source: Option<Node>,
    pub attributes: Vec<Node>,
}

impl ExportNamedDeclaration {
    /// Takes the node apart.
    pub fn open(node: Node) -> ExportNamedDeclaration
        requires { IsExportNamedDeclaration node }
        ensures { plain_export_named_declaration result ≡ node }
    {
        let Parts {
            id,
            span,
            kind,
            fields,
        } = node.into_parts();
        match kind {
            Kind::ExportNamedDeclaration => {}
            _other => unreachable!(),
        }
        let [declaration, specifiers, source, attributes]: [Field; 4] = exactly(fields);
        ExportNamedDeclaration {
            id,
            span,
            declaration: declaration.into_optional(),
            specifiers: specifiers.into_nodes(),
            source: source.into_optional(),
            attributes: attributes.into_nodes(),
        }
    }

    /// The node of these parts.
    pub fn close(self, alloc: Global) -> Result<Node, AllocError>
        ensures { IfOk result (λ node. node ≡ plain_export_named_declaration self) }
    {
        let ExportNamedDeclaration {
            id,
            span,
            declaration,
            specifiers,
            source,
            attributes,
        } = self;
        let kind = Kind::ExportNamedDeclaration;
        let fields = Vec::from_array(
            alloc,
            [
                Field::from_optional(declaration),
                Field::Many(specifiers),
                Field::from_optional(source),
                Field::Many(attributes),
            ],
        )?;
        Ok(Node {
            id,
            span,
            kind,
            fields,
        })
    }
}

/// A node `ExportNamedDeclaration` with a new id and without marks.
pub fn new_export_named_declaration(
    ast: &mut AstBuilder,
    span: Span,
    declaration: Option<Node>,
    specifiers: Vec<Node>,
    source: Option<Node>,
    attributes: Vec<Node>,
) -> Result<Node, AllocError>
    requires { ast.old.next < 2 ^ 32 - 1 }
    ensures made { IfOk result (λ node. node ≡ plain_export_named_declaration (record { id = record { 0 = ast.old.next }; span = span; declaration = declaration; specifiers = specifiers; source = source; attributes = attributes })) }
    ensures counted { ast.new.next ≡ ast.old.next + 1 }
{
    let id = ast.new_id();
    let made = ExportNamedDeclaration {
        id,
        span,
        declaration,
        specifiers,
        source,
        attributes,
    };
    made.close(ast.alloc)
}

/// A named export (ECMA-262, 16.2.3).
#[derive(Drop)]
pub struct ExportSpecifier {
    pub id: NodeId,
    pub span: Span,
    pub local: ModuleExportName,
    pub exported: ModuleExportName,
}

impl ExportSpecifier {
    /// Takes the node apart.
    pub fn open(node: Node) -> ExportSpecifier
        requires { IsExportSpecifier node }
        ensures { plain_export_specifier result ≡ node }
    {
        let Parts {
            id,
            span,
            kind,
            fields,
        } = node.into_parts();
        match kind {
            Kind::ExportSpecifier => {}
            _other => unreachable!(),
        }
        let [local, exported]: [Field; 2] = exactly(fields);
        ExportSpecifier {
            id,
            span,
            local: local.into_node(),
            exported: exported.into_node(),
        }
    }

    /// The node of these parts.
    pub fn close(self, alloc: Global) -> Result<Node, AllocError>
        ensures { IfOk result (λ node. node ≡ plain_export_specifier self) }
    {
        let ExportSpecifier {
            id,
            span,
            local,
            exported,
        } = self;
        let kind = Kind::ExportSpecifier;
        let fields = Vec::from_array(alloc, [Field::One(local), Field::One(exported)])?;
        Ok(Node {
            id,
            span,
            kind,
            fields,
        })
    }
}

/// A node `ExportSpecifier` with a new id and without marks.
pub fn new_export_specifier(
    ast: &mut AstBuilder,
    span: Span,
    local: ModuleExportName,
    exported: ModuleExportName,
) -> Result<Node, AllocError>
    requires { ast.old.next < 2 ^ 32 - 1 }
    ensures made { IfOk result (λ node. node ≡ plain_export_specifier (record { id = record { 0 = ast.old.next }; span = span; local = local; exported = exported })) }
    ensures counted { ast.new.next ≡ ast.old.next + 1 }
{
    let id = ast.new_id();
    let made = ExportSpecifier {
        id,
        span,
        local,
        exported,
    };
    made.close(ast.alloc)
}

/// A default export (ECMA-262, 16.2.3).
#[derive(Drop)]
pub struct ExportDefaultDeclaration {
    pub id: NodeId,
    pub span: Span,
    pub declaration: ExportDefault,
}

impl ExportDefaultDeclaration {
    /// Takes the node apart.
    pub fn open(node: Node) -> ExportDefaultDeclaration
        requires { IsExportDefaultDeclaration node }
        ensures { plain_export_default_declaration result ≡ node }
    {
        let Parts {
            id,
            span,
            kind,
            fields,
        } = node.into_parts();
        match kind {
            Kind::ExportDefaultDeclaration => {}
            _other => unreachable!(),
        }
        let [declaration]: [Field; 1] = exactly(fields);
        ExportDefaultDeclaration {
            id,
            span,
            declaration: declaration.into_node(),
        }
    }

    /// The node of these parts.
    pub fn close(self, alloc: Global) -> Result<Node, AllocError>
        ensures { IfOk result (λ node. node ≡ plain_export_default_declaration self) }
    {
        let ExportDefaultDeclaration {
            id,
            span,
            declaration,
        } = self;
        let kind = Kind::ExportDefaultDeclaration;
        let fields = Vec::from_array(alloc, [Field::One(declaration)])?;
        Ok(Node {
            id,
            span,
            kind,
            fields,
        })
    }
}

/// A node `ExportDefaultDeclaration` with a new id and without marks.
pub fn new_export_default_declaration(
    ast: &mut AstBuilder,
    span: Span,
    declaration: ExportDefault,
) -> Result<Node, AllocError>
    requires { ast.old.next < 2 ^ 32 - 1 }
    ensures made { IfOk result (λ node. node ≡ plain_export_default_declaration (record { id = record { 0 = ast.old.next }; span = span; declaration = declaration })) }
    ensures counted { ast.new.next ≡ ast.old.next + 1 }
{
    let id = ast.new_id();
    let made = ExportDefaultDeclaration {
        id,
        span,
        declaration,
    };
    made.close(ast.alloc)
}

/// An export of all of a module (ECMA-262, 16.2.3).
#[derive(Drop)]
pub struct ExportAllDeclaration {
    pub id: NodeId,
    pub span: Span,
    pub exported: Option<ModuleExportName>,
    pub source: Node,
    pub attributes: Vec<Node>,
}

impl ExportAllDeclaration {
    /// Takes the node apart.
    pub fn open(node: Node) -> ExportAllDeclaration
        requires { IsExportAllDeclaration node }
        ensures { plain_export_all_declaration result ≡ node }
    {
        let Parts {
            id,
            span,
            kind,
            fields,
        } = node.into_parts();
        match kind {
            Kind::ExportAllDeclaration => {}
            _other => unreachable!(),
        }
        let [exported, source, attributes]: [Field; 3] = exactly(fields);
        ExportAllDeclaration {
            id,
            span,
            exported: exported.into_optional(),
            source: source.into_node(),
            attributes: attributes.into_nodes(),
        }
    }

    /// The node of these parts.
    pub fn close(self, alloc: Global) -> Result<Node, AllocError>
        ensures { IfOk result (λ node. node ≡ plain_export_all_declaration self) }
    {
        let ExportAllDeclaration {
            id,
            span,
            exported,
            source,
            attributes,
        } = self;
        let kind = Kind::ExportAllDeclaration;
        let fields = Vec::from_array(
            alloc,
            [
                Field::from_optional(exported),
                Field::One(source),
                Field::Many(attributes),
            ],
        )?;
        Ok(Node {
            id,
            span,
            kind,
            fields,
        })
    }
}

/// A node `ExportAllDeclaration` with a new id and without marks.
pub fn new_export_all_declaration(
    ast: &mut AstBuilder,
    span: Span,
    exported: Option<ModuleExportName>,
    source: Node,
    attributes: Vec<Node>,
) -> Result<Node, AllocError>
    requires { ast.old.next < 2 ^ 32 - 1 }
    ensures made { IfOk result (λ node. node ≡ plain_export_all_declaration (record { id = record { 0 = ast.old.next }; span = span; exported = exported; source = source; attributes = attributes })) }
    ensures counted { ast.new.next ≡ ast.old.next + 1 }
{
    let id = ast.new_id();
    let made = ExportAllDeclaration {
        id,
        span,
        exported,
        source,
        attributes,
    };
    made.close(ast.alloc)
}
