//! The law of the functions that are made.

ghost use Rattle.std.specs.Prelude.{ℕ, List};
ghost use Rattle.std.specs.List.{AllByRecursion, AllZip};
ghost use Rattle.gim_ast.specs.declared.function.Function.{Function};
ghost use Rattle.gim_ast.specs.WellFormed.{IsWellFormed};
ghost use Rattle.gim_text.specs.declared.tree.FunctionText.{FunctionText};
ghost use Rattle.gim_making.specs.SoundFiles.{IsSound};
ghost use Rattle.gim_making.specs.Standing.{StandsFor};

/// The functions that stand for the trees of a file in which every rule is kept are well formed.
pub fn sound_files_stand_for_well_formed_functions()
    ensures { (source : List ℕ) (trees : List FunctionText) (functions : List Function) →
        IsSound source trees → AllZip (StandsFor source) trees functions →
        AllByRecursion IsWellFormed functions }
{}
