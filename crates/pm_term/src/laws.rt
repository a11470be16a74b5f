//! What the definitions imply, for every term. The functions do nothing: their contracts are the
//! laws.
ghost use Rattle.std.specs.Prelude.{◌≡◌, ℕ, List, All, IsSome, Some};
ghost use Rattle.pm_wide.specs.Types.{Ty, Word, IsWord};
ghost use Rattle.pm_term.specs.Environments.{GivesWords, word_of_name, HasNames};
ghost use Rattle.pm_term.specs.Refines.{HasValues, Refines};
ghost use Rattle.pm_term.specs.Terms.{term_value};
ghost use Rattle.pm_term.specs.Trees.{Tree, type_of, names_in, IsWellTyped};

/// The value of a well-typed term is a word of its type, where each name has a word of its own
/// type.
pub fn values_are_words()
    ensures { (words : ℕ → Ty → Word) (t : Tree) (r : Word) → GivesWords words →
        IsWellTyped t → term_value words t ≡ Some r → (r.ty ≡ type_of t) × IsWord r }
{}

/// The value of a term rests on the words of its own names alone, each a version with a type.
pub fn names_decide()
    ensures { (a b : ℕ → Ty → Word) (t : Tree) →
        All (λ (n : ℕ × Ty). a n.0 n.1 ≡ b n.0 n.1) (names_in t) → term_value a t ≡ term_value b t }
{}

/// An environment has the names of a term exactly where it has a word for each of them.
pub fn names_are_listed()
    ensures listed { (words : List (ℕ × Word)) (t : Tree) →
        HasNames words t → All (λ (n : ℕ × Ty). IsSome (word_of_name words n.0 n.1)) (names_in t) }
    ensures all { (words : List (ℕ × Word)) (t : Tree) →
        All (λ (n : ℕ × Ty). IsSome (word_of_name words n.0 n.1)) (names_in t) → HasNames words t }
{}

/// Where a term has a value, each of its nodes has one.
pub fn a_value_is_one_of_each_node()
    ensures { (words : ℕ → Ty → Word) (t : Tree) (r : Word) →
        term_value words t ≡ Some r → HasValues words t }
{}

/// Each term refines itself, and refining goes on from term to term.
pub fn refining_is_an_order()
    ensures itself { (t : Tree) → Refines t t }
    ensures goes_on { (a b c : Tree) → Refines a b → Refines b c → Refines a c }
{}
