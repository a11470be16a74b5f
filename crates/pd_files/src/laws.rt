//! What holds of all files: each comes to one list of forms or to one first fault of syntax.

ghost use Rattle.std.specs.Prelude.{◌≡◌, ℕ, List, Result};
ghost use Rattle.pm_ops.specs.declared.fault.PatternFault.{PatternFault};
ghost use Rattle.pd_text.specs.declared.symbol.Symbol.{Symbol};
ghost use Rattle.pd_files.specs.Forms.{Form};
ghost use Rattle.pd_files.specs.Files.{Outcome};

/// A file comes to something.
pub fn some_file()
    ensures { (source_len : ℕ) (symbols : List Symbol) → (a : Result (List Form) PatternFault) × Outcome source_len symbols a }
{}

/// A file comes to one thing at most: a list of forms, or a first fault.
pub fn one_file()
    ensures { (source_len : ℕ) (symbols : List Symbol) (a b : Result (List Form) PatternFault) → Outcome source_len symbols a → Outcome source_len symbols b → a ≡ b }
{}
