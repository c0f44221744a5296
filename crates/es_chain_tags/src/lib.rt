//! Tagged templates whose tag is an optional chain (ECMA-262, 13.3.11), which no lowering of chains takes: what is refused for them and what is proved of
//! chains cite one definition. The function does nothing: its contract is a law over it.
#![tactic(auto)]

ghost use Rattle.es_chain_tags.specs.ChainTags.{LawChainTags};

/// Which tags are chains: those in parentheses, too, but not those with a member behind the parentheses.
pub fn law_chain_tags()
    ensures { LawChainTags }
{}
