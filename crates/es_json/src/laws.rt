//! Laws of the tree form, each the contract of a function that does nothing.
ghost use Rattle.es_json.specs.Laws.{WrittenReads, FormHasForm, FormHasNoFault, OneTree};

/// What is written of a tree with form is a form of that tree: read, it gives the tree.
pub fn law_written_reads()
    ensures { WrittenReads }
{}

/// A tree that a value is a form of, as each tree that is read, has form.
pub fn law_form_has_form()
    ensures { FormHasForm }
{}

/// Where a value is a form of some tree, no place of it fails by itself. So what fails with a place is
/// the form of no tree.
pub fn law_no_faults()
    ensures { FormHasNoFault }
{}

/// A value is a form of at most one tree.
pub fn law_one_tree()
    ensures { OneTree }
{}
