//! Parts of terms.
ghost use Rattle.std.specs.Prelude.{◌≡◌, ◌↔◌, IsTrue};
ghost use Rattle.pm_term.specs.TermTrees.{tree_of};
ghost use Rattle.pm_term.specs.Trees.{type_of};

use pm_term::Term;
use pm_wide::IntType;

/// The type of a term.
pub(crate) fn type_of(term: &Term) -> IntType
    ensures { result ≡ type_of (tree_of term.now) }
{
    match term {
        Term::Name(_, ty) | Term::Node(_, ty, _) => *ty,
        Term::Const(word) => word.ty(),
    }
}

/// Whether the two are one type.
pub(crate) fn is_one_type(a: IntType, b: IntType) -> bool
    ensures { IsTrue result ↔ (a ≡ b) }
{
    a == b
}
