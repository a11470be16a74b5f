//! What holds of all files.

ghost use Rattle.std.specs.Prelude.{◌≡◌, ◌+◌, ◌≤◌, ℕ, List, length};
ghost use Rattle.gim_ast.specs.declared.function.Function.{Function};
ghost use Rattle.gim_text.specs.declared.fault.GimpleFault.{GimpleFault};
ghost use Rattle.gim_reader.specs.Files.{IsFile, IsFileFault};

/// A file stands for one list of functions at most.
pub fn one_list()
    ensures { (source : List ℕ) (fs gs : List Function) → IsFile source fs → IsFile source gs →
        fs ≡ gs }
{}

/// A file has one first fault at most.
pub fn one_fault()
    ensures { (source : List ℕ) (a b : GimpleFault) → IsFileFault source a →
        IsFileFault source b → a ≡ b }
{}

/// A file that stands for functions has no fault.
pub fn no_fault()
    ensures { (source : List ℕ) (fs : List Function) (fault : GimpleFault) → IsFile source fs →
        IsFileFault source fault → ⊥ }
{}

/// The fault of a file has its place in the file.
pub fn within()
    ensures { (source : List ℕ) (fault : GimpleFault) → IsFileFault source fault →
        fault.at + fault.len ≤ length source }
{}
