//! The fault of names is the first one, and what holds of a file without one.

ghost use Rattle.std.specs.Prelude.{◌≡◌, ℕ, List, Some, None, Contains, map, true};
ghost use Rattle.gim_ast.specs.WellFormed.{same_text, all_distinct};
ghost use Rattle.gim_text.specs.declared.fault.GimpleFault.{GimpleFault};
ghost use Rattle.gim_text.specs.declared.tree.BlockText.{BlockText};
ghost use Rattle.gim_text.specs.declared.tree.FunctionText.{FunctionText};
ghost use Rattle.gim_text.specs.declared.occurrence.Occurrence.{Occurrence};
ghost use Rattle.pm_places.specs.FirstFaults.{IsFirstPlace};
ghost use Rattle.gim_names.specs.KeepsNames.{KeepsNames, BlockKeepsNames};
ghost use Rattle.gim_names.specs.KeepsNames.{AreOne, OccurrencesDeclare};
ghost use Rattle.gim_text.specs.Occurrences.{occurrences_of};
ghost use Rattle.gim_names.specs.NamesFault.{occurrence_fault, occurrences_fault};
ghost use Rattle.gim_names.specs.NamesFault.{function_text, function_fault, names_fault};

/// A fault of names is that of the first function that has one.
pub fn first_function()
    ensures { (source : List ℕ) (functions : List FunctionText) (fault : GimpleFault) →
        names_fault source functions ≡ Some fault →
        IsFirstPlace (function_fault source) functions fault }
{}

/// A fault in the occurrences of a function is that of the first occurrence that has one.
pub fn first_occurrence()
    ensures { (source : List ℕ) (all : List Occurrence) (fault : GimpleFault) →
        occurrences_fault source all ≡ Some fault →
        IsFirstPlace (occurrence_fault source all) all fault }
{}

/// The functions of a file without a fault of names have distinct names.
pub fn functions_are_distinct()
    ensures { (source : List ℕ) (functions : List FunctionText) →
        names_fault source functions ≡ None →
        all_distinct same_text (map (function_text source) functions) ≡ true }
{}

/// Each function of a file without a fault of names keeps the rules on names.
pub fn functions_keep_names()
    ensures { (source : List ℕ) (functions : List FunctionText) →
        names_fault source functions ≡ None → (f : FunctionText) → Contains functions f →
        KeepsNames source f }
{}

/// So does each item and each end of its blocks.
pub fn blocks_keep_names()
    ensures { (source : List ℕ) (f : FunctionText) → KeepsNames source f → (block : BlockText) →
        Contains f.blocks block → BlockKeepsNames source f block }
{}

/// Any two of its occurrences of one version have one base, and default definitions of one
/// parameter are one.
pub fn occurrences_are_one()
    ensures { (source : List ℕ) (f : FunctionText) → KeepsNames source f → (m n : Occurrence) →
        Contains (occurrences_of f) m → Contains (occurrences_of f) n → AreOne source m n }
{}

/// What the occurrences of a function declare is what the function declares.
pub fn occurrences_declare()
    ensures { (source : List ℕ) (f : FunctionText) → OccurrencesDeclare source f }
{}
