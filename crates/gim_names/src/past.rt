//! What stood before an occurrence.

ghost use Rattle.std.specs.Prelude.{◌≡◌, ℕ, List, [], ◌∷◌, IfOk, OnOk};
ghost use Rattle.gim_names.specs.Tables.{Remembers};

use crate::occurrence_texts::{
    assigned_version, base_default, block_number, declared_text, default_version, plain_version,
    version_base,
};
use crate::tables::{put, put_pair};
use gim_text::Occurrence;
use pm_ops::OutOfMemory;
use std::alloc::Global;
use std::collections::{HashMap, HashSet};

/// The occurrences before, by what the rules compare.
#[derive(Drop)]
pub(crate) struct Past<'a> {
    /// Parameters and locals.
    pub declared: HashSet<&'a [u8]>,
    /// Numbers of blocks.
    pub blocks: HashSet<&'a [u8]>,
    /// Versions of names that are assigned.
    pub assigned: HashSet<&'a [u8]>,
    /// Versions of names without `(D)`.
    pub plain: HashSet<&'a [u8]>,
    /// Versions of names with `(D)`.
    pub initial: HashSet<&'a [u8]>,
    /// The base of a version.
    pub bases: HashMap<&'a [u8], &'a [u8]>,
    /// The version of the default definition of a base.
    pub defaults: HashMap<&'a [u8], &'a [u8]>,
}

impl<'a> Past<'a> {
    /// Nothing.
    pub fn new(alloc: Global) -> Past<'a>
        ensures { (source : List ℕ) → Remembers source [] result }
    {
        Past {
            declared: HashSet::new(alloc),
            blocks: HashSet::new(alloc),
            assigned: HashSet::new(alloc),
            plain: HashSet::new(alloc),
            initial: HashSet::new(alloc),
            bases: HashMap::new(alloc),
            defaults: HashMap::new(alloc),
        }
    }

    /// Notes one more occurrence.
    pub fn note(&mut self, source: &'a [u8], occurrence: &Occurrence) -> Result<(), OutOfMemory>
        ensures { (before : List Occurrence) → Remembers source.now before self.old →
            OnOk result (Remembers source.now (occurrence.now ∷ before) self.new) }
    {
        put(&mut self.declared, declared_text(source, occurrence))?;
        put(&mut self.blocks, block_number(source, occurrence))?;
        put(&mut self.assigned, assigned_version(source, occurrence))?;
        put(&mut self.plain, plain_version(source, occurrence))?;
        put(&mut self.initial, default_version(source, occurrence))?;
        put_pair(&mut self.bases, version_base(source, occurrence))?;
        put_pair(&mut self.defaults, base_default(source, occurrence))
    }
}
