//! What holds of the tokens and the first fault of every source.

ghost use Rattle.std.specs.Prelude.{◌≡◌, ℕ, List, ◌++◌, length};
ghost use Rattle.pm_ops.specs.declared.fault.PatternFault.{PatternFault};
ghost use Rattle.pd_lexer.specs.declared.token.Token.{Token};
ghost use Rattle.pd_lexer.specs.Cuts.{AreTokens, IsLexFault, HasOutcome};
ghost use Rattle.pd_lexer.specs.Faults.{FaultStands};
ghost use Rattle.pd_lexer.specs.Longest.{IsLongestMatch};
ghost use Rattle.pd_lexer.specs.Spelled.{AreTokensOf};

/// A source has tokens or a first fault.
pub fn an_outcome()
    ensures { (source : List ℕ) → HasOutcome source }
{}

/// A source has one list of tokens at most.
pub fn one_list()
    ensures { (source : List ℕ) (ts us : List Token) →
        AreTokens source ts → AreTokens source us → ts ≡ us }
{}

/// A source has one first fault at most.
pub fn one_fault()
    ensures { (source : List ℕ) (a b : PatternFault) →
        IsLexFault source a → IsLexFault source b → a ≡ b }
{}

/// A source with a fault has no tokens.
pub fn no_tokens()
    ensures { (source : List ℕ) (fault : PatternFault) (ts : List Token) →
        IsLexFault source fault → AreTokens source ts → ⊥ }
{}

/// The first fault has its place in the source and is of a kind of lexing.
pub fn fault_stands()
    ensures { (source : List ℕ) (fault : PatternFault) →
        IsLexFault source fault → FaultStands 0 (length source) fault }
{}

/// The tokens stand in the source one behind the other, and the bytes of each spell its kind.
pub fn tokens_stand()
    ensures { (source : List ℕ) (ts : List Token) →
        AreTokens source ts → AreTokensOf source ts }
{}

/// What readers ask of tokens holds of each part of them.
pub fn parts_stand()
    ensures { (source : List ℕ) (front back : List Token) →
        AreTokensOf source (front ++ back) → AreTokensOf source front × AreTokensOf source back }
{}

/// No bytes at the front of a text spell a longer token than the one that begins it.
pub fn longest()
    ensures { (text : List ℕ) → IsLongestMatch text }
{}
