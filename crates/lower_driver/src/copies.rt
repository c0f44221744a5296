//! Options of one's own.
ghost use Rattle.std.specs.Prelude.{IfOk};
ghost use Rattle.lower_driver.specs.Copies.{IsCopy};

use es_tree::options::{EnvOptions, HelperLoaderOptions};
use std::alloc::{AllocError, Global};

/// The same options, with a module name of their own. Fails only where memory runs out.
pub fn copy_options(alloc: Global, options: &EnvOptions) -> Result<EnvOptions, AllocError>
    ensures { IfOk result (IsCopy options.now) }
{
    let module_name = String::from_str(alloc, options.helper_loader.module_name.as_str())?;
    let helper_loader = HelperLoaderOptions {
        module_name,
        mode: options.helper_loader.mode,
    };
    Ok(EnvOptions {
        es2015: options.es2015,
        es2016: options.es2016,
        es2017: options.es2017,
        es2018: options.es2018,
        es2019: options.es2019,
        es2020: options.es2020,
        es2021: options.es2021,
        es2026: options.es2026,
        assumptions: options.assumptions,
        helper_loader,
    })
}
