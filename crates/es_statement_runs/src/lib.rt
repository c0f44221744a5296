//! The runs of programs without functions, arrows and classes. The functions do nothing: their contracts are laws over the
//! definitions.
#![tactic(auto)]

ghost use Rattle.es_statement_runs.specs.Laws.{LawAssign, LawCatch, LawCatchPattern, LawChain, LawCollected, LawCoreClass, LawCoreMeaning, LawCoreRun, LawExponentiation, LawFresh, LawGroups, LawHead, LawLater, LawLogicalAssignment, LawMeant, LawNamespaceExports, LawNoHelper, LawNullish, LawParted, LawPlace, LawPower, LawRest, LawSpread, LawTemporaries, LawThen, LawUsing, LawValidIsMeant, LawValidMeaning, LawVars, LawWithoutAll};

/// A tree of core kinds means what it means in the core.
pub fn law_core_meaning()
    ensures { LawCoreMeaning }
{}

/// A program of core nodes is without functions, arrows and classes.
pub fn law_core_class()
    ensures { LawCoreClass }
{}

/// In a program that uses no helper itself no name stands for one, however helpers are supplied.
pub fn law_no_helper()
    ensures { LawNoHelper }
{}

/// Replacing an expression by one that evaluates alike, at places that take its value, keeps the runs, inside whatever
/// statements, in programs without helpers.
pub fn law_statement_place()
    ensures { LawPlace }
{}

/// A `var` of a name that stands nowhere, at the top of a program's list, keeps the runs of programs without
/// helpers.
pub fn law_statement_fresh()
    ensures { LawFresh }
{}

/// A core program has the run of the core machine, from any number of turns.
pub fn law_core_run()
    ensures { LawCoreRun }
{}

/// The row of nullish coalescing at whatever places of whatever statements, with its `var` at the top of the list, keeps the
/// runs of programs without helpers.
pub fn law_statement_nullish()
    ensures { LawNullish }
{}

/// The definitions of an object may be collected in parts (the kernel of object spread).
pub fn law_collected()
    ensures { LawCollected }
{}

/// An object pattern may be cut into groups: what stands after a group takes the keys of it (the kernel of object rest).
pub fn law_groups()
    ensures { LawGroups }
{}

/// The row of logical assignment to a name, whatever its right side is, at whatever places, with whatever helpers.
pub fn law_statement_assign()
    ensures { LawAssign }
{}

/// The row of exponentiation, whatever its operands are but spreads, where no scope declares `Math`.
pub fn law_statement_power()
    ensures { LawPower }
{}

/// The rows of optional chaining over whatever operands, with their temporaries, at whatever places of whatever statements,
/// reading again names of the top and of scopes around.
pub fn law_statement_chain()
    ensures { LawChain }
{}

/// The rows of logical assignment over whatever operands, to names and members, with their temporaries, at whatever places
/// of whatever statements.
pub fn law_statement_logical_assignment()
    ensures { LawLogicalAssignment }
{}

/// The rows of exponentiation and its assignment over whatever operands, with their temporaries, where no scope declares
/// `Math`.
pub fn law_statement_exponentiation()
    ensures { LawExponentiation }
{}

/// The row of optional catch, at whatever places of whatever statements, with whatever helpers.
pub fn law_statement_catch()
    ensures { LawCatch }
{}

/// Runs alike compose, so that rows may be taken one after another.
pub fn law_then()
    ensures { LawThen }
{}

/// The row of object spread under External helpers, at whatever places of whatever statements.
pub fn law_statement_spread()
    ensures { LawSpread }
{}

/// `using` in a block under External helpers: its list becomes the one of a `try` with a context, at whatever places of whatever statements.
pub fn law_statement_using()
    ensures { LawUsing }
{}

/// The catch clause of object rest: an object pattern is bound in a block inside, at whatever places, with whatever helpers.
pub fn law_statement_catch_pattern()
    ensures { LawCatchPattern }
{}

/// The heads of for-of and for-in of object rest: an object pattern is bound in a block inside the body, at whatever places, with whatever helpers.
pub fn law_statement_head()
    ensures { LawHead }
{}

/// The row of object rest in a declaration, from a name that nothing between writes, under External helpers, at whatever places of whatever statements.
pub fn law_statement_rest()
    ensures { LawRest }
{}

/// Names of the top may be set later in the source than in the target: declarations by `let` become declarations by `var`.
pub fn law_statement_later()
    ensures { LawLater }
{}

/// Where no value is `document.all`, a run is the same whether that counts as null for `==` or not.
pub fn law_statement_without_all()
    ensures { LawWithoutAll }
{}

/// A program that means something never ends without meaning, however helpers are supplied, where no name of its stands for one.
pub fn law_meant()
    ensures { LawMeant }
{}

/// A valid program of the class means something, where it uses no helper itself.
pub fn law_valid_is_meant()
    ensures { LawValidIsMeant }
{}

/// A valid program of the class never ends without meaning, however helpers are supplied, where it uses none itself.
pub fn law_valid_meaning()
    ensures { LawValidMeaning }
{}

/// The properties of an object pattern with static keys may be put first, as a pattern of their own; what stands after excludes their texts.
pub fn law_parted()
    ensures { LawParted }
{}

/// `var` statements without values may be put into lists of statements, at any depth, or moved and changed, where the top binds as before but for names that
/// the source doesn't declare and that stand nowhere else.
pub fn law_statement_vars()
    ensures { LawVars }
{}

/// `var` statements of temporaries that stand nowhere may be put into lists of statements, at any depth, or such temporaries into the `var` statements
/// without values that stand there.
pub fn law_statement_temporaries()
    ensures { LawTemporaries }
{}

/// An export of a namespace, in the program's list, becomes an import of it and an export of the import's name, with whatever helpers.
pub fn law_statement_namespace_exports()
    ensures { LawNamespaceExports }
{}
