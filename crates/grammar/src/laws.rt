//! The two main laws of exact reading, over every pair of nonterminals.
//!
//! A clause cannot range over relations, so a nonterminal stands here as a type whose ghost members are its
//! relation and the tokens that can go on it.

ghost use Rattle.std.specs.Prelude.{List};
ghost use Rattle.grammar.specs.Reading.{Answer};
ghost use Rattle.grammar.specs.Exact.{IsExact};
ghost use Rattle.grammar.specs.Whole.{IsReading, whole_of};
ghost use Rattle.grammar.specs.Laws.{IsKeptApart, CanGoOn, ReadsInSequence};

/// A nonterminal over tokens `T` with values `A`.
pub trait Nonterminal<T, A> {
    ghost use Rattle.std.specs.Prelude.{List};

    // which tokens spell which value
    ghost spells: { A → List T → Type 0 };

    // which tokens can go on a complete spelling
    ghost goes_on: { T → Type 0 };
}

/// A nonterminal that depends on the value of the part before it.
pub trait Following<T, A, B> {
    ghost use Rattle.std.specs.Prelude.{List};

    // which tokens spell which value, after this one
    ghost spells: { A → B → List T → Type 0 };

    // which tokens can go on a complete spelling
    ghost goes_on: { T → Type 0 };
}

/// An exact answer at a whole input: what is read is spelled so, what is spelled so is read, and a fault is
/// the first.
pub fn exact_answers_read<T, E, A, N: Nonterminal<T, A>>()
    ensures { (kind : E) (tokens : List T) (answer : Answer T E A)
        → IsExact N.spells N.goes_on tokens answer → IsReading N.spells tokens (whole_of kind answer) }
{}

/// A part and then the part that its value asks for: where each is read exactly, so is the whole, if what the
/// second takes does not go on the first, and each first part has a second.
pub fn sequences_are_exact<T, E, A, B, N: Nonterminal<T, A>, M: Following<T, A, B>>()
    ensures { IsKeptApart N.goes_on M.spells M.goes_on → CanGoOn N.spells M.spells
        → (tokens : List T) (first : Answer T E A) (next : A × List T → Answer T E B)
        → ReadsInSequence N.spells N.goes_on M.spells M.goes_on tokens first next }
{}
