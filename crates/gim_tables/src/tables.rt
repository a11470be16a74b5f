//! A function with the tables of its names.
ghost use Rattle.std.specs.Prelude.{◌≡◌, IsTrue, IfOk};
ghost use Rattle.std.specs.Option.{option_copied};
ghost use Rattle.gim_ast.specs.Functions.{right_of, uses_of};
ghost use Rattle.gim_ast.specs.WellFormed.{is_well_formed};
ghost use Rattle.gim_terms.specs.Targets.{type_of_name};

use crate::counts::count_of;
use crate::places::{rights_in, types_in};
use crate::removal::uses_in;
use gim_ast::{Function, Rhs};
use pm_ops::OutOfMemory;
use pm_wide::IntType;
use std::alloc::Global;
use std::collections::HashMap;
use std::marker::Model;

/// A well-formed function, with tables in which its names are looked up.
///
/// Contracts see the function.
#[derive(Drop)]
pub struct Tables<'f> {
    function: &'f Function,
    rights: HashMap<u32, &'f Rhs>,
    types: HashMap<u32, IntType>,
    uses: HashMap<u32, u32>,
}

impl<'f> Model for Tables<'f> {
    ghost use Rattle.std.specs.Prelude.{◌≡◌, ℕ, nat_eq, IsTrue};
    ghost use Rattle.std.specs.HashMap.{get};
    ghost use Rattle.std.specs.Option.{option_copied};
    ghost use Rattle.gim_ast.specs.declared.function.Function.{Function as TheFunction};
    ghost use Rattle.gim_ast.specs.WellFormed.{is_well_formed};
    ghost use Rattle.gim_ast.specs.Functions.{right_of};
    ghost use Rattle.gim_tables.specs.Told.{TellsTypes, TellsUses};

    ghost Value = { TheFunction };

    ghost view = { λ s. s.function.now };

    ghost invariant = { λ s. IsTrue (is_well_formed s.function.now) ×
        ((q : ℕ) → option_copied (get nat_eq s.rights q) ≡ right_of s.function.now q) ×
        TellsTypes s.types s.function.now × TellsUses s.uses s.function.now };
}

impl<'f> Tables<'f> {
    /// The tables of a function.
    #[tactic(auto, unfolding(gim_ast::specs::Functions::right_of, gim_ast::specs::Functions::row_of))]
    pub fn new(alloc: Global, function: &'f Function) -> Result<Tables<'f>, OutOfMemory>
        requires { IsTrue (is_well_formed function.now) }
        ensures { IfOk result (λ tables. tables ≡ function.now) }
    {
        let rights = rights_in(alloc, function.blocks.as_slice())?;
        let types = types_in(alloc, function.names.as_slice())?;
        let uses = uses_in(alloc, function)?;
        Ok(Tables {
            function,
            rights,
            types,
            uses,
        })
    }

    /// The function itself.
    pub fn function(&self) -> &'f Function
        ensures same { result.now ≡ self.now }
        ensures well_formed { IsTrue (is_well_formed self.now) }
    {
        self.function
    }

    /// The right side of the statement that assigns a name.
    pub fn right_side(&self, version: u32) -> Option<&'f Rhs>
        ensures { option_copied result ≡ right_of self.now version }
    {
        self.rights.get(&version).copied()
    }

    /// The type of a name.
    pub fn ty(&self, version: u32) -> Option<IntType>
        ensures { result ≡ type_of_name self.now version }
    {
        self.types.get(&version).copied()
    }

    /// In how many operand places a name stands.
    pub fn uses(&self, version: u32) -> u32
        ensures { result ≡ uses_of self.now version }
    {
        count_of(&self.uses, version)
    }
}
