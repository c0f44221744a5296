//! What the core lowerings count on of the nodes of a visit, and bring about. The functions do nothing: their contracts are laws over the
//! definitions.
#![tactic(auto)]

ghost use Rattle.es_conditions.specs.Laws.{LawCatch, LawChains, LawChainsOff, LawConditions, LawRows, LawSlots};

/// What a visit by the core lowerings knows of nodes goes inward.
pub fn law_conditions()
    ensures { LawConditions }
{}

/// Slots are wrapped where they hold what they are wrapped for.
pub fn law_slots()
    ensures { LawSlots }
{}

/// Rows act in no open slot with a temporary, and leave what the hooks after them count on.
pub fn law_rows()
    ensures { LawRows }
{}

/// A chain stands where its value is taken, or is lowered with what stands around it.
pub fn law_chains()
    ensures { LawChains }
{}

/// Where chains aren't lowered, nothing is asked of them.
pub fn law_chains_off()
    ensures { LawChainsOff }
{}

/// A `catch` that takes a parameter keeps what the hooks after it count on.
pub fn law_catch()
    ensures { LawCatch }
{}
