//! What holds of all C parts: each comes to one typed tree or to one first fault.

ghost use Rattle.std.specs.Prelude.{◌≡◌, ℕ, List, Result};
ghost use Rattle.pm_ops.specs.declared.fault.PatternFault.{PatternFault};
ghost use Rattle.pd_ast.specs.declared.c_text.CDecl.{CDecl};
ghost use Rattle.pd_ast.specs.declared.c_text.CExpr.{CExpr};
ghost use Rattle.pd_text.specs.declared.symbol.Symbol.{Symbol};
ghost use Rattle.cond_subset.specs.declared.scope.Scope.{Scope};
ghost use Rattle.cond_subset.specs.Declarations.{SpellsBlock};
ghost use Rattle.cond_subset.specs.Grammar.{Spells};
ghost use Rattle.cond_subset.specs.Syntax.{SpellsBrace};
ghost use Rattle.cond_subset.specs.Outcomes.{cond_meaning, brace_meaning, block_meaning, Outcome};

/// A condition comes to something.
pub fn some_cond()
    ensures { (source : List ℕ) (scope : Scope) (symbols : List Symbol) → (a : Result CExpr PatternFault) × Outcome Spells (cond_meaning source scope) symbols a }
{}

/// A condition comes to one thing at most: a typed tree, or a first fault.
pub fn one_cond()
    ensures { (source : List ℕ) (scope : Scope) (symbols : List Symbol) (a b : Result CExpr PatternFault) → Outcome Spells (cond_meaning source scope) symbols a → Outcome Spells (cond_meaning source scope) symbols b → a ≡ b }
{}

/// An operand in braces comes to something.
pub fn some_brace()
    ensures { (source : List ℕ) (scope : Scope) (symbols : List Symbol) → (a : Result CExpr PatternFault) × Outcome SpellsBrace (brace_meaning source scope) symbols a }
{}

/// An operand in braces comes to one thing at most: a typed tree, or a first fault.
pub fn one_brace()
    ensures { (source : List ℕ) (scope : Scope) (symbols : List Symbol) (a b : Result CExpr PatternFault) → Outcome SpellsBrace (brace_meaning source scope) symbols a → Outcome SpellsBrace (brace_meaning source scope) symbols b → a ≡ b }
{}

/// A block comes to something.
pub fn some_block()
    ensures { (source : List ℕ) (scope : Scope) (symbols : List Symbol) → (a : Result (List CDecl) PatternFault) × Outcome SpellsBlock (block_meaning source scope) symbols a }
{}

/// A block comes to one thing at most: typed declarations, or a first fault.
pub fn one_block()
    ensures { (source : List ℕ) (scope : Scope) (symbols : List Symbol) (a b : Result (List CDecl) PatternFault) → Outcome SpellsBlock (block_meaning source scope) symbols a → Outcome SpellsBlock (block_meaning source scope) symbols b → a ≡ b }
{}
