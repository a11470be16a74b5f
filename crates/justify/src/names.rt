//! The names of two terms, each once.
ghost use Rattle.std.specs.Prelude.{◌≡◌, ◌^◌, ◌-◌, min, IfOk, OnOk};
ghost use Rattle.std.specs.Set.{is_member};
ghost use Rattle.pm_term.specs.TermTrees.{tree_of, trees_of};
ghost use Rattle.pm_term.specs.Trees.{names_in, names_of};
ghost use Rattle.bit_tables.specs.TableClass.{same_name};
ghost use Rattle.bit_tables.specs.Spots.{with_name, with_names};
ghost use Rattle.justify.specs.Enumeration.{names_of_both, bits_of};

use pm_items::Items;
use pm_ops::OutOfMemory;
use pm_term::{Term, Typed};
use pm_wide::IntType;
use std::alloc::Global;

/// Versions with their types.
pub(crate) type Names = Items<(u32, IntType)>;

/// The names of two terms, each once.
#[tactic(auto, using(bit_tables::proofs::NameLemmas::with_names_append))]
pub(crate) fn names_of_both(
    alloc: Global,
    left: &Typed,
    right: &Typed,
) -> Result<Names, OutOfMemory>
    ensures { IfOk result (λ names. names ≡ names_of_both left.now right.now) }
{
    let mut names = Items::new(alloc);
    gather(left.term(), &mut names)?;
    gather(right.term(), &mut names)?;
    Ok(names)
}

/// Adds the names of a term that are missing.
#[cycle(gather)]
fn gather(term: &Term, names: &mut Names) -> Result<(), OutOfMemory>
    ensures { OnOk result (names.new ≡ with_names names.old (names_in (tree_of term.now))) }
{
    match term {
        Term::Name(version, ty) => add(*version, *ty, names),
        Term::Const(_) => Ok(()),
        Term::Node(_, _, args) => gather_all(args.as_slice(), names),
    }
}

/// Adds the names of these terms.
#[cycle(gather)]
#[tactic(auto, using(bit_tables::proofs::NameLemmas::with_names_append))]
fn gather_all(terms: &[Term], names: &mut Names) -> Result<(), OutOfMemory>
    ensures { OnOk result (names.new ≡ with_names names.old (names_of (trees_of terms.now))) }
{
    for term in terms {
        gather(term, names)?;
    }
    Ok(())
}

/// Adds a name where it is missing.
fn add(version: u32, ty: IntType, names: &mut Names) -> Result<(), OutOfMemory>
    ensures { OnOk result (names.new ≡ with_name names.old (version, ty)) }
{
    if !has(names.as_slice(), version, ty) {
        names.push((version, ty))?;
    }
    Ok(())
}

/// Whether a name is one of these.
fn has(names: &[(u32, IntType)], version: u32, ty: IntType) -> bool
    ensures { result ≡ is_member same_name names.now (version, ty) }
{
    names.iter().any(|name| version == name.0 && ty == name.1)
}

/// How many bits these names have together. 2 to the 64 less 1 stands for all that are more.
pub(crate) fn bits_of(names: &[(u32, IntType)]) -> usize
    ensures { result ≡ min (bits_of names.now) (2 ^ 64 - 1) }
{
    let mut bits: usize = 0;
    for (_, ty) in names {
        bits = bits.saturating_add(usize::from(ty.bits()));
    }
    bits
}
