//! Whether lists of excluded keys become constants of a program.
ghost use Rattle.std.specs.Prelude.{◌≡◌, ◌&&◌, is_some};
ghost use Rattle.es_excluded_keys.specs.ExcludedKeys.{names_itself, shares_keys};

use es_searches::{Sought, has_node};
use es_tree::node::Node;
use es_tree::options::EnvOptions;

/// Whether an identifier of a program is `babelHelpers`, a key or a label too, where object rests are lowered under these options. It is asked once
/// exports are split, before any other step.
pub fn names_itself(program: &Node, options: &EnvOptions) -> bool
    ensures { result ≡ (is_some options.now.es2018.object_rest_spread && names_itself program.now) }
{
    options.es2018.object_rest_spread.is_some() && has_node(program, Sought::HelpersName)
}

/// Whether lists of excluded keys become constants of a program under these options, where its source has an identifier `babelHelpers`, which may be a
/// key or a label, or has none (`named`): an object rest stands in it.
pub fn shares_keys(program: &Node, options: &EnvOptions, named: bool) -> bool
    ensures { result ≡ shares_keys options.now named program.now }
{
    options.es2018.object_rest_spread.is_some() && !named && has_node(program, Sought::ObjectRest)
}
