//! What holds of the tokens of every source.

ghost use Rattle.std.specs.Prelude.{◌≡◌, ℕ, List, length};
ghost use Rattle.gim_text.specs.declared.token.Token.{Token};
ghost use Rattle.gim_lexer.specs.Cuts.{AreTokens, IsLexFault, HasOutcome};
ghost use Rattle.gim_lexer.specs.Longest.{IsLongestMatch};
ghost use Rattle.gim_lexer.specs.Meant.{AllMeanTheirTexts};
ghost use Rattle.gim_lexer.specs.Spelled.{AllStandIn, InOrder};

/// A source has tokens or a fault.
pub fn an_outcome()
    ensures { (source : List ℕ) → HasOutcome source }
{}

/// A source has one list of tokens at most.
pub fn one_list()
    ensures { (source : List ℕ) (ts us : List Token) → AreTokens source ts → AreTokens source us → ts ≡ us }
{}

/// A source has one fault at most.
pub fn one_fault()
    ensures { (source : List ℕ) (a b : ℕ) → IsLexFault source a → IsLexFault source b → a ≡ b }
{}

/// A source with a fault has no tokens.
pub fn no_tokens()
    ensures { (source : List ℕ) (at : ℕ) (ts : List Token) → IsLexFault source at → AreTokens source ts → ⊥ }
{}

/// Each token has bytes in the source, and these spell it.
pub fn all_stand_in()
    ensures { (source : List ℕ) (ts : List Token) → AreTokens source ts → AllStandIn source ts }
{}

/// The text of an identifier is an identifier, that of a block's name is one, and that of a number is its digits and a suffix.
pub fn all_mean_their_texts()
    ensures { (source : List ℕ) (ts : List Token) → AreTokens source ts → AllMeanTheirTexts source ts }
{}

/// The tokens stand one behind the other.
pub fn in_order()
    ensures { (source : List ℕ) (ts : List Token) → AreTokens source ts → InOrder 0 ts (length source) }
{}

/// No bytes spell a longer token than the one that begins with them.
pub fn longest()
    ensures { (source : List ℕ) → IsLongestMatch source }
{}
