//! How many operations a term has.
ghost use Rattle.std.specs.Prelude.{◌≡◌, ◌^◌, ◌-◌, min};
ghost use Rattle.pm_term.specs.TermTrees.{tree_of, trees_of};
ghost use Rattle.pm_term.specs.Trees.{operations, operations_of};

use crate::term::Term;

#[cycle(operators)]
pub(crate) fn operators_of(term: &Term) -> usize
    ensures { result ≡ min (operations (tree_of term.now)) (2 ^ 64 - 1) }
{
    match term {
        Term::Name(..) | Term::Const(_) => 0,
        Term::Node(_, _, args) => operators_in(args.as_slice()).saturating_add(1),
    }
}

#[cycle(operators)]
fn operators_in(terms: &[Term]) -> usize
    ensures { result ≡ min (operations_of (trees_of terms.now)) (2 ^ 64 - 1) }
{
    let mut count: usize = 0;
    for term in terms {
        count = count.saturating_add(operators_of(term));
    }
    count
}
