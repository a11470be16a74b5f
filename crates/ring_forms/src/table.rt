//! The table that numbers atoms, and finds the number of one by its digest.
ghost use Rattle.std.specs.Prelude.{◌≡◌, ◌+◌, ◌≤◌, List, [], length, drop, IfOk, OnOk};
ghost use Rattle.ring_forms.specs.Atoms.{atom_number, with_new_atom};
ghost use Rattle.ring_forms.specs.Digests.{mixed, atoms_digest, part_digest, form_digest, operands_digest, digest, start_in, HasStart, AreFound};
ghost use Rattle.ring_forms.specs.declared.atom.Atom.{Atom};

use crate::atom::{Atom, AtomOperand, is_same};
use crate::form::Part;
use pm_items::Items;
use pm_ops::OutOfMemory;
use std::alloc::Global;
use std::collections::HashMap;
use std::marker::Model;

/// Atoms by their numbers, and for each digest where to look first. Contracts see the atoms.
#[derive(Drop)]
pub(crate) struct AtomTable {
    atoms: Items<Atom>,
    starts: HashMap<u64, usize>,
}

impl Model for AtomTable {
    ghost use Rattle.std.specs.Prelude.{List};
    ghost use Rattle.ring_forms.specs.declared.atom.Atom.{Atom};

    ghost Value = { List Atom };

    ghost use Rattle.ring_forms.specs.Digests.{atoms_of, Tells};

    ghost view = { atoms_of };

    ghost invariant = { Tells };
}

impl AtomTable {
    /// No atoms. Takes no memory.
    pub(crate) fn new(alloc: Global) -> AtomTable
        ensures { result ≡ [] }
    {
        AtomTable {
            atoms: Items::new(alloc),
            starts: HashMap::new(alloc),
        }
    }

    /// The number of an atom, which is added if it is new.
    #[tactic(auto, using(crate::proofs::AtomLemmas::new_atom, crate::proofs::AtomLemmas::old_atom))]
    pub(crate) fn numbered(&mut self, atom: Atom) -> Result<usize, OutOfMemory>
        ensures number { IfOk result (λ number. number ≡ atom_number self.old atom) }
        ensures table { OnOk result (self.new ≡ with_new_atom self.old atom) }
    {
        let key = digest(&atom);
        let count = self.atoms.len();
        let start = start_of(&self.starts, key, count);
        let number = number_from(self.atoms.as_slice(), &atom, start);
        if number == count {
            begin(&mut self.starts, key, start, count)?;
            self.atoms.push(atom)?;
        }
        Ok(number)
    }
}

/// Where to look first for an atom of that digest, or the count where there is none.
fn start_of(starts: &HashMap<u64, usize>, key: u64, count: usize) -> usize
    ensures { result ≡ start_in starts.now count key }
{
    match starts.get(&key) {
        Some(at) => *at,
        None => count,
    }
}

/// Lets a digest that has no atom begin at the next one.
#[tactic(auto, using(crate::proofs::DigestLemmas::one_start, crate::proofs::DigestLemmas::has_start))]
fn begin(
    starts: &mut HashMap<u64, usize>,
    key: u64,
    start: usize,
    count: usize,
) -> Result<(), OutOfMemory>
    requires { start ≡ start_in starts.old count key }
    ensures found { (atoms : List Atom) → length atoms ≡ count → AreFound atoms starts.old → AreFound atoms starts.new }
    ensures begun { OnOk result (HasStart starts.new key) }
{
    if start == count {
        starts.insert(key, count)?;
    }
    Ok(())
}

/// The place of an atom in the table, or the next one, where it doesn't stand before that start.
fn number_from(atoms: &[Atom], atom: &Atom, start: usize) -> usize
    requires { start + atom_number (drop start atoms.now) atom.now ≡ atom_number atoms.now atom.now }
    ensures value { result ≡ atom_number atoms.now atom.now }
    ensures within { result ≤ length atoms.now }
{
    for i in start..atoms.len() {
        if is_same(&atoms[i], atom) {
            return i;
        }
    }
    atoms.len()
}

/// A digest with one number more.
fn mixed(digest: u64, number: u64) -> u64
    ensures { result ≡ mixed digest number }
{
    digest % 4294967296 * 1000003 + number % 4294967296
}

/// A digest with the numbers of atoms.
fn atoms_digest(from: u64, atoms: &[usize]) -> u64
    ensures { result ≡ atoms_digest from atoms.now }
{
    let mut digest = from;
    for atom in atoms {
        digest = mixed(digest, *atom as u64);
    }
    digest
}

/// A digest with a part.
fn part_digest(from: u64, part: &Part) -> u64
    ensures { result ≡ part_digest from part.now }
{
    let digest = mixed(from, (part.coefficient % 4294967296) as u64);
    atoms_digest(digest, part.atoms.as_slice())
}

/// A digest with a form.
fn form_digest(from: u64, form: &[Part]) -> u64
    ensures { result ≡ form_digest from form.now }
{
    let mut digest = from;
    for part in form {
        digest = part_digest(digest, part);
    }
    digest
}

/// A digest with operands.
fn operands_digest(from: u64, operands: &[AtomOperand]) -> u64
    ensures { result ≡ operands_digest from operands.now }
{
    let mut digest = from;
    for operand in operands {
        digest = form_digest(digest, operand.form.as_slice());
    }
    digest
}

/// The digest of an atom.
fn digest(atom: &Atom) -> u64
    ensures { result ≡ digest atom.now }
{
    match atom {
        Atom::Name(version, _) => u64::from(*version),
        Atom::Operation(_, _, operands) => operands_digest(1, operands.as_slice()),
    }
}
