//! Imports that are to be written at the top of the program.
ghost use Rattle.std.specs.Prelude.{◌≡◌, ◌==◌, [], IfOk, OnErr, OnOk, length, string_bytes};
ghost use Rattle.lower_stores.specs.Imports.{IsPlaceOf, added, by_default, by_name, in_front, with_import};
ghost use Rattle.lower_stores.specs.PlainImports.{plain_import, plain_sources};

use es_scope::context_names::BoundIdentifier;
use indexmap::IndexMap;
use std::alloc::{AllocError, Global};
use std::marker::Model;
use std::mem;

/// An import by the name that the module gives it.
#[derive(Drop)]
pub struct NamedImport {
    pub imported: String,
    pub local: BoundIdentifier,
}

/// What is imported of a module.
#[derive(Drop)]
pub enum Import {
    Named(NamedImport),
    Default(BoundIdentifier),
}

/// What is to be imported, by the text that names the module. In a script it is to be required.
///
/// A call answers an error only for want of memory, and leaves the store as it was.
#[derive(Drop)]
pub struct ModuleImportsStore {
    alloc: Global,
    imports: IndexMap<String, Vec<Import>>,
}

impl Model for ModuleImportsStore {
    ghost use Rattle.lower_stores.specs.Imports.{Sources, sources_code};

    ghost Value = { Sources };

    ghost coded = { sources_code };

    ghost use Rattle.lower_stores.specs.PlainImports.{plain_sources};

    ghost view = { λ store. plain_sources store.imports.entries };
}

impl ModuleImportsStore {
    /// The store with nothing to import. Takes no memory.
    pub fn new(alloc: Global) -> ModuleImportsStore
        ensures { result ≡ [] }
    {
        ModuleImportsStore {
            alloc,
            imports: IndexMap::new(alloc),
        }
    }

    /// Whether there is nothing to import. Takes no memory.
    pub fn is_empty(&self) -> bool
        ensures { result ≡ (length self.now == 0) }
    {
        self.imports.len() == 0
    }

    /// What is to be imported, by source and in order. Takes no memory.
    pub fn imports(&self) -> &IndexMap<String, Vec<Import>>
        ensures { plain_sources result.now.entries ≡ self.now }
    {
        &self.imports
    }

    /// What is to be imported, by source and in order, which is then no longer in the store. Takes no memory.
    pub fn take_imports(&mut self) -> IndexMap<String, Vec<Import>>
        ensures taken { plain_sources result.entries ≡ self.old }
        ensures emptied { self.new ≡ [] }
    {
        mem::replace(&mut self.imports, IndexMap::new(self.alloc))
    }

    /// What the module exports by default, as this name. With `front` its import is to be the first.
    pub fn add_default_import(
        &mut self,
        source: String,
        local: BoundIdentifier,
        front: bool,
    ) -> Result<(), AllocError>
        ensures added { OnOk result (self.new ≡ added (string_bytes source) (by_default (string_bytes local.name) local.symbol_id.0) front self.old) }
        ensures kept { OnErr result (self.new ≡ self.old) }
    {
        self.add_import(source, Import::Default(local), front)?;
        Ok(())
    }

    /// What the module exports by this name, as that one. With `front` its import is to be the first.
    pub fn add_named_import(
        &mut self,
        source: String,
        imported: String,
        local: BoundIdentifier,
        front: bool,
    ) -> Result<(), AllocError>
        ensures added { OnOk result (self.new ≡ added (string_bytes source) (by_name (string_bytes imported) (string_bytes local.name) local.symbol_id.0) front self.old) }
        ensures kept { OnErr result (self.new ≡ self.old) }
    {
        let import = Import::Named(NamedImport { imported, local });
        self.add_import(source, import, front)?;
        Ok(())
    }

    fn add_import(&mut self, source: String, import: Import, front: bool) -> Result<(), AllocError>
        ensures added { OnOk result (self.new ≡ added (string_bytes source) (plain_import import) front self.old) }
        ensures kept { OnErr result (self.new ≡ self.old) }
    {
        let index = push_import(self.alloc, &mut self.imports, source, import)?;
        if front {
            self.imports.move_index(index, 0);
        }
        Ok(())
    }
}

/// Puts the import behind those of its module, which else goes last. The place of the module.
fn push_import(
    alloc: Global,
    imports: &mut IndexMap<String, Vec<Import>>,
    source: String,
    import: Import,
) -> Result<usize, AllocError>
    ensures pushed { OnOk result (plain_sources imports.new.entries ≡ with_import (string_bytes source) (plain_import import) (plain_sources imports.old.entries)) }
    ensures place { IfOk result (λ index. IsPlaceOf (string_bytes source) (plain_sources imports.new.entries) index) }
    ensures kept { OnErr result (plain_sources imports.new.entries ≡ plain_sources imports.old.entries) }
{
    match imports.get_index_of(source.as_str()) {
        Some(index) => {
            imports[index].push(import)?;
            Ok(index)
        }
        None => {
            let index = imports.len();
            let list = Vec::from_array(alloc, [import])?;
            imports.insert(source, list)?;
            Ok(index)
        }
    }
}
