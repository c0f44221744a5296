//! What the calls of helpers keep.
ghost use Rattle.std.specs.Prelude.{◌≡◌, [], IfOk, string_bytes};

use es_tree::operators::SourceType;
use es_tree::options::HelperLoaderOptions;
use lower_stores::helper_loader::HelperLoaderStore;
use lower_stores::module_imports::ModuleImportsStore;
use std::alloc::{AllocError, Global};

/// What is known of a program's helpers, and what is to be imported.
#[derive(Drop)]
pub struct HelperStores {
    /// Whether the program is a script or a module.
    pub source_type: SourceType,
    pub helper_loader: HelperLoaderStore,
    pub module_imports: ModuleImportsStore,
}

impl HelperStores {
    /// The stores of a program of this sort under these options, with no helper loaded and nothing to import. Answers
    /// an error only for want of memory.
    pub fn new(
        alloc: Global,
        source_type: SourceType,
        options: &HelperLoaderOptions,
    ) -> Result<HelperStores, AllocError>
        ensures source_type { IfOk result (λ stores. stores.source_type ≡ source_type) }
        ensures helpers { IfOk result (λ stores. stores.helper_loader ≡ record { mode = options.now.mode; module_name = string_bytes options.now.module_name; loaded = [] }) }
        ensures imports { IfOk result (λ stores. stores.module_imports ≡ []) }
    {
        let helper_loader = HelperLoaderStore::new(alloc, options)?;
        Ok(HelperStores {
            source_type,
            helper_loader,
            module_imports: ModuleImportsStore::new(alloc),
        })
    }
}
