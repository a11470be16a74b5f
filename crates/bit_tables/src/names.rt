//! The names of terms, each once.
ghost use Rattle.std.specs.Prelude.{◌≡◌, ◌<◌, ◌≤◌, ◌++◌, [], length, MatchOption};
ghost use Rattle.std.specs.Bool.{MatchBool};
ghost use Rattle.std.specs.Set.{is_member};
ghost use Rattle.pm_term.specs.TermTrees.{tree_of, trees_of};
ghost use Rattle.pm_term.specs.Trees.{names_in, names_of};
ghost use Rattle.bit_tables.specs.TableClass.{same_name};
ghost use Rattle.bit_tables.specs.Spots.{with_name, with_names};

use arrayvec::ArrayVec;
use pm_term::Term;
use pm_wide::IntType;

/// At most so many names have their words tried.
const MOST: usize = 6;

/// Names of the terms of a table.
pub(crate) type Names = ArrayVec<(u32, IntType), MOST>;

/// The names of two terms, each once, or nothing where they are too many.
#[tactic(auto, using(crate::proofs::NameLemmas::with_names_append, crate::proofs::NameLemmas::with_names_longer))]
pub(crate) fn names_of(left: &Term, right: &Term) -> Option<Names>
    ensures { MatchOption result
        (6 < length (with_names [] (names_in (tree_of left.now) ++ names_in (tree_of right.now))))
        (λ names. (names.items ≡ with_names [] (names_in (tree_of left.now) ++ names_in (tree_of right.now))) × (length names.items ≤ 6)) }
{
    let mut names = Names::new();
    if gather(left, &mut names) && gather(right, &mut names) {
        let _few = names.as_slice();
        Some(names)
    } else {
        None
    }
}

/// Adds the names of a term that are missing, or answers that they are too many.
#[cycle(gather)]
fn gather(term: &Term, names: &mut Names) -> bool
    ensures { MatchBool result
        (names.new.items ≡ with_names names.old.items (names_in (tree_of term.now)))
        (6 < length (with_names names.old.items (names_in (tree_of term.now)))) }
{
    match term {
        Term::Name(version, ty) => add(*version, *ty, names),
        Term::Const(_) => true,
        Term::Node(_, _, args) => gather_all(args.as_slice(), names),
    }
}

/// Adds the names of these terms.
#[cycle(gather)]
#[tactic(auto, using(crate::proofs::NameLemmas::with_names_append, crate::proofs::NameLemmas::with_names_longer))]
fn gather_all(terms: &[Term], names: &mut Names) -> bool
    ensures { MatchBool result
        (names.new.items ≡ with_names names.old.items (names_of (trees_of terms.now)))
        (6 < length (with_names names.old.items (names_of (trees_of terms.now)))) }
{
    for term in terms {
        if !gather(term, names) {
            return false;
        }
    }
    true
}

/// Adds a name where it is missing.
fn add(version: u32, ty: IntType, names: &mut Names) -> bool
    ensures { MatchBool result
        (names.new.items ≡ with_name names.old.items (version, ty))
        (6 < length (with_name names.old.items (version, ty))) }
{
    if has(names.as_slice(), version, ty) {
        return true;
    }
    names.try_push((version, ty)).is_ok()
}

/// Whether a name is one of these.
fn has(names: &[(u32, IntType)], version: u32, ty: IntType) -> bool
    ensures { result ≡ is_member same_name names.now (version, ty) }
{
    names.iter().any(|name| version == name.0 && ty == name.1)
}
