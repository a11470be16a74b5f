//! What a function has as a whole: its parameters, its locals and the names that it assigns.

ghost use Rattle.std.specs.Prelude.{◌≡◌, ℕ, List, [], ◌∷◌, IfOk, OnOk};
ghost use Rattle.gim_names.specs.Tables.{Describes};

use crate::occurrence_texts::{assigned_text, local_text, param_text};
use crate::tables::put;
use gim_text::Occurrence;
use pm_ops::OutOfMemory;
use std::alloc::Global;
use std::collections::HashSet;

/// The identifiers of a function, by whole identifiers.
#[derive(Drop)]
pub(crate) struct Scope<'a> {
    pub params: HashSet<&'a [u8]>,
    pub locals: HashSet<&'a [u8]>,
    pub assigned: HashSet<&'a [u8]>,
}

impl<'a> Scope<'a> {
    /// Nothing.
    fn new(alloc: Global) -> Scope<'a>
        ensures { (source : List ℕ) → Describes source [] result }
    {
        Scope {
            params: HashSet::new(alloc),
            locals: HashSet::new(alloc),
            assigned: HashSet::new(alloc),
        }
    }

    /// Notes what an occurrence declares or assigns.
    fn note(&mut self, source: &'a [u8], occurrence: &Occurrence) -> Result<(), OutOfMemory>
        ensures { (all : List Occurrence) → Describes source.now all self.old →
            OnOk result (Describes source.now (occurrence.now ∷ all) self.new) }
    {
        put(&mut self.params, param_text(source, occurrence))?;
        put(&mut self.locals, local_text(source, occurrence))?;
        put(&mut self.assigned, assigned_text(source, occurrence))
    }

    /// What these occurrences declare and assign.
    pub fn of(
        alloc: Global,
        source: &'a [u8],
        occurrences: &[Occurrence],
    ) -> Result<Scope<'a>, OutOfMemory>
        ensures { IfOk result (λ scope. Describes source.now occurrences.now scope) }
    {
        let mut scope = Scope::new(alloc);
        let mut at = occurrences.len();
        while at > 0 {
            at -= 1;
            scope.note(source, &occurrences[at])?;
        }
        Ok(scope)
    }
}
