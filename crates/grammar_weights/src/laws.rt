ghost use Rattle.std.specs.Prelude.{Bool, IsTrue};
ghost use Rattle.regex_ast.specs.declared.expr.Atom.{Atom as AtomLeaf};
ghost use Rattle.regex_ast.specs.declared.expr.Raw.{Raw};
ghost use Rattle.project_meaning.specs.Leaves.{Leaf};
ghost use Rattle.grammar_weights.specs.Laws.{AlikeWeighs, MappedWeighs, MeantWeighs};

/// A grammar whose leaves are replaced weighs what it weighs by what they are replaced by. It does nothing when it runs.
pub fn mapped_weighs()
    ensures { MappedWeighs Leaf AtomLeaf }
{}

/// A grammar of a project weighs what it weighs by the texts of its leaves. It does nothing when it runs.
pub fn meant_weighs()
    ensures { MeantWeighs }
{}

/// A grammar weighs the same by tests that agree on its leaves. It does nothing when it runs.
pub fn alike_weighs()
    ensures { (has : Raw → Bool) → AlikeWeighs Raw (λ leaf. IsTrue (has leaf)) }
{}
