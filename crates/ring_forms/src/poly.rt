//! Polynomials over atoms, with whole coefficients, in one order.
ghost use Rattle.std.specs.Prelude.{◌≡◌, ◌≤◌, ◌++◌, ◌∷◌, [], min, slice_get, IfOk, OnOk, length};
ghost use Rattle.ring_forms.specs.Polynomials.{with_stopped, with_factor, stopped_runs, stopped_rank, ranked_place, ranked_in, in_rank_order, whole, factors_of_runs, term_of_part, terms_of};

use crate::form::{Form, Part, copied_part};
use pm_items::Items;
use pm_ops::OutOfMemory;
use pm_term::Typed;
use std::alloc::Global;
use std::cmp::Ordering;

/// A name or an operation that no exact form goes into, by its first node. Two nodes may be one atom: there is no `==` here,
/// since a comparison has to go by operands' types and forms.
#[derive(Debug, Drop)]
pub struct Atom {
    pub node: Typed,
}

/// A product of different atoms, each with its power.
#[derive(Debug, Drop)]
pub struct Monomial {
    pub factors: Items<(Atom, u8)>,
}

/// A sum of monomials with coefficients other than 0. Monomials rise by degree, and at one degree by
/// their pairs of an atom's number and its power; atoms are numbered as they are met.
#[derive(Debug, Drop)]
pub struct Poly {
    pub terms: Items<(Monomial, i64)>,
}

/// An atom's number with its power.
#[derive(Clone, Copy)]
pub(crate) struct Run {
    pub atom: usize,
    pub power: usize,
}

/// The polynomial of a form over these atoms.
pub(crate) fn polynomial(alloc: Global, form: &[Part], nodes: &[Typed]) -> Result<Poly, OutOfMemory>
    ensures { IfOk result (λ p. p.terms ≡ terms_of nodes.now (in_rank_order form.now)) }
{
    let ordered = in_order(alloc, form)?;
    let mut terms = Items::new(alloc);
    for part in ordered.as_slice() {
        terms.push(term_of(alloc, part, nodes)?)?;
    }
    Ok(Poly { terms })
}

/// The term of a part.
fn term_of(alloc: Global, part: &Part, nodes: &[Typed]) -> Result<(Monomial, i64), OutOfMemory>
    ensures { IfOk result (λ t. t ≡ term_of_part nodes.now part.now) }
{
    let factors = factors_of(alloc, part.atoms.as_slice(), nodes)?;
    Ok((Monomial { factors }, whole(part.coefficient)))
}

/// The parts of a form in the order of monomials.
fn in_order(alloc: Global, form: &[Part]) -> Result<Form, OutOfMemory>
    ensures { IfOk result (λ made. made ≡ in_rank_order form.now) }
{
    let mut made = Items::new(alloc);
    for i in 0..form.len() {
        let part = &form[form.len() - 1 - i];
        put_in(alloc, copied_part(alloc, part)?, &mut made)?;
    }
    Ok(made)
}

/// Puts a part in its place among parts in order.
#[tactic(auto, using(crate::proofs::RankOrder::ranked_in_at))]
fn put_in(alloc: Global, part: Part, made: &mut Form) -> Result<(), OutOfMemory>
    ensures { OnOk result (made.new ≡ ranked_in part made.old) }
{
    let rank = rank(alloc, part.atoms.as_slice())?;
    let place = place_of(alloc, rank.as_slice(), made.as_slice())?;
    made.insert(place, part)?;
    Ok(())
}

/// How many parts come before that rank.
fn place_of(alloc: Global, own: &[usize], made: &[Part]) -> Result<usize, OutOfMemory>
    ensures value { IfOk result (λ place. place ≡ ranked_place own.now made.now) }
    ensures within { IfOk result (λ place. place ≤ length made.now) }
{
    for i in 0..made.len() {
        let other = rank(alloc, made[i].atoms.as_slice())?;
        if own.cmp(other.as_slice()) != Ordering::Greater {
            return Ok(i);
        }
    }
    Ok(made.len())
}

/// What a product goes by in the order: its degree, and then its atoms and powers.
#[tactic(auto, using(crate::proofs::RankOrder::flat_first))]
fn rank(alloc: Global, atoms: &[usize]) -> Result<Items<usize>, OutOfMemory>
    ensures { IfOk result (λ r. r ≡ stopped_rank atoms.now) }
{
    let runs = runs(alloc, atoms)?;
    let mut made = Items::new(alloc);
    made.push(atoms.len())?;
    for run in runs.as_slice() {
        push_run(*run, &mut made)?;
    }
    Ok(made)
}

/// Adds an atom and its power.
fn push_run(run: Run, made: &mut Items<usize>) -> Result<(), OutOfMemory>
    ensures { OnOk result (made.new ≡ made.old ++ run.atom ∷ run.power ∷ []) }
{
    made.push(run.atom)?;
    made.push(run.power)?;
    Ok(())
}

/// The different atoms of a product with their powers.
fn runs(alloc: Global, atoms: &[usize]) -> Result<Items<Run>, OutOfMemory>
    ensures { IfOk result (λ r. r ≡ stopped_runs atoms.now) }
{
    let mut made = Items::new(alloc);
    for i in 0..atoms.len() {
        more_power(atoms[atoms.len() - 1 - i], &mut made)?;
    }
    Ok(made)
}

/// One factor more in front.
fn more_power(atom: usize, made: &mut Items<Run>) -> Result<(), OutOfMemory>
    ensures { OnOk result (made.new ≡ with_stopped atom made.old) }
{
    if let Some(first) = made.get(0) {
        if first.atom == atom {
            let power = first.power.saturating_add(1);
            made.set(0, Run { atom, power });
            return Ok(());
        }
    }
    made.insert(0, Run { atom, power: 1 })?;
    Ok(())
}

/// The factors of a product, by the nodes of its atoms.
#[tactic(auto, using(crate::proofs::RankOrder::factor_first))]
fn factors_of(
    alloc: Global,
    atoms: &[usize],
    nodes: &[Typed],
) -> Result<Items<(Atom, u8)>, OutOfMemory>
    ensures { IfOk result (λ made. made ≡ factors_of_runs nodes.now (stopped_runs atoms.now)) }
{
    let runs = runs(alloc, atoms)?;
    let mut made = Items::new(alloc);
    for run in runs.as_slice() {
        push_factor(alloc, *run, nodes, &mut made)?;
    }
    Ok(made)
}

/// Adds an atom by its node, with its power.
fn push_factor(
    alloc: Global,
    run: Run,
    nodes: &[Typed],
    made: &mut Items<(Atom, u8)>,
) -> Result<(), OutOfMemory>
    ensures { OnOk result (made.new ≡ made.old ++ with_factor (slice_get nodes.now run.atom) run.power []) }
{
    if let Some(node) = nodes.get(run.atom) {
        let node = node.copy(alloc)?;
        made.push((Atom { node }, byte(run.power)))?;
    }
    Ok(())
}

/// A power as a byte, which each power within the limits is.
fn byte(power: usize) -> u8
    ensures { result ≡ min power 255 }
{
    u8::try_from(power).unwrap_or(255)
}

/// The whole number that a residue modulo 2 to the 128th stands for, where its size is small.
fn whole(coefficient: u128) -> i64
    ensures { result ≡ whole coefficient }
{
    if let Ok(number) = i64::try_from(coefficient) {
        return number;
    }
    match i64::try_from(0_u128.wrapping_sub(coefficient)) {
        Ok(number) => 0_i64.wrapping_sub(number),
        Err(_) => 0,
    }
}
