//! A law of what is exported over the definitions alone. It is the contract of a function that has no code.
ghost use Rattle.lrat_export.specs.Laws.{ExportedRefutes};

/// What is exported of a proof that refutes a set is a refutation of the set's clauses by themselves.
pub fn exported_refutes()
    ensures { ExportedRefutes }
{}
