//! The helpers that are loaded, and the names that they got.
ghost use Rattle.std.specs.Prelude.{◌≡◌, ◌≢◌, ◌↔◌, ◌++◌, ◌∷◌, [], Contains, IfNone, IfOk, IfSome, IsTrue, OnErr, OnOk, string_bytes};
ghost use Rattle.lower_stores.specs.LoadedHelpers.{IsEachOnce, IsNotLoaded, helper_source, with_helper_import, with_loaded};
ghost use Rattle.lower_stores.specs.PlainHelpers.{plain_name};

use crate::module_imports::ModuleImportsStore;
use es_scope::context_names::BoundIdentifier;
use es_tree::helper::Helper;
use es_tree::options::{HelperLoaderMode, HelperLoaderOptions};
use std::alloc::{AllocError, Global};
use std::marker::Model;

/// Where helpers come from, and those that are loaded, with the names that they are bound to.
///
/// A call answers an error only for want of memory, and leaves the store as it was.
#[derive(Drop)]
pub struct HelperLoaderStore {
    alloc: Global,
    mode: HelperLoaderMode,
    module_name: String,
    /// The first loaded first. There are thirty helpers.
    loaded: Vec<(Helper, BoundIdentifier)>,
}

impl Model for HelperLoaderStore {
    ghost use Rattle.lower_stores.specs.LoadedHelpers.{Helpers};

    ghost Value = { Helpers };

    ghost use Rattle.lower_stores.specs.PlainHelpers.{plain_helpers, HoldsEachOnce};

    ghost view = { λ store. plain_helpers store.mode store.module_name store.loaded.items };

    ghost invariant = { λ store. HoldsEachOnce store.loaded.items };
}

impl HelperLoaderStore {
    /// The store of these options, with no helper loaded.
    pub fn new(
        alloc: Global,
        options: &HelperLoaderOptions,
    ) -> Result<HelperLoaderStore, AllocError>
        ensures { IfOk result (λ store. store ≡ record { mode = options.now.mode; module_name = string_bytes options.now.module_name; loaded = [] }) }
    {
        let module_name = String::from_str(alloc, options.module_name.as_str())?;
        Ok(HelperLoaderStore {
            alloc,
            mode: options.mode,
            module_name,
            loaded: Vec::new(alloc),
        })
    }

    /// Where helpers come from.
    pub fn mode(&self) -> HelperLoaderMode
        ensures { result ≡ self.now.mode }
    {
        self.mode
    }

    /// The module that has the helpers.
    pub fn module_name(&self) -> &str
        ensures { result.now ≡ self.now.module_name }
    {
        self.module_name.as_str()
    }

    /// The name that the helper is bound to, if it is loaded.
    pub fn loaded(&self, helper: Helper) -> Option<&BoundIdentifier>
        ensures there { IfSome result (λ local. Contains self.now.loaded (helper, plain_name local.now)) }
        ensures absent { IfNone result (IsNotLoaded helper self.now.loaded) }
        ensures once { IsEachOnce self.now.loaded }
    {
        for (known, local) in &self.loaded {
            if is_same(*known, helper) {
                return Some(local);
            }
        }
        None
    }

    /// Notes that the helper is loaded and bound to this name, which is to be imported of the module that has it.
    pub fn load(
        &mut self,
        helper: Helper,
        local: BoundIdentifier,
        imports: &mut ModuleImportsStore,
    ) -> Result<(), AllocError>
        requires { IsNotLoaded helper self.old.loaded }
        ensures noted { OnOk result (self.new ≡ with_loaded helper (plain_name local) self.old) }
        ensures imported { OnOk result (imports.new ≡ with_helper_import self.old.module_name helper (plain_name local) imports.old) }
        ensures kept { OnErr result (self.new ≡ self.old) }
        ensures imports_kept { OnErr result (imports.new ≡ imports.old) }
    {
        let source = self.source_of(helper)?;
        let imported = BoundIdentifier {
            name: String::from_str(self.alloc, local.name.as_str())?,
            symbol_id: local.symbol_id,
        };
        self.loaded.reserve(1)?;
        imports.add_default_import(source, imported, false)?;
        self.loaded.push((helper, local)).unwrap();
        Ok(())
    }

    /// The text that names the module of this helper.
    fn source_of(&self, helper: Helper) -> Result<String, AllocError>
        ensures { IfOk result (λ source. string_bytes source ≡ helper_source self.now.module_name helper) }
    {
        let mut source = String::from_str(self.alloc, self.module_name.as_str())?;
        source.push_str("/helpers/")?;
        source.push_str(helper.name())?;
        Ok(source)
    }
}

fn is_same(a: Helper, b: Helper) -> bool
    ensures { IsTrue result ↔ (a ≡ b) }
{
    a == b
}
