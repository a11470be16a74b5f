ghost use Rattle.std.specs.Prelude.{◌≡◌, find};
ghost use Rattle.std.specs.Str.{bytes_eq};
ghost use Rattle.pm_ops.specs.Predicates.{pred_name, pred_named};

/// The predicates on an operand, after those of GCC's `tree.h`. They go by the word: in a `_Bool`
/// the constant 1 is one, true, all ones and a power of two at once.
#[derive(Clone, Copy, Debug, PartialEq, Eq)]
pub enum Pred {
    /// The constant 0.
    Zero,
    /// The constant 1.
    One,
    /// A constant whose bits are all 1.
    AllOnes,
    /// A constant whose bits are all 1, by its second name.
    MinusOne,
    /// A constant with exactly one bit set.
    Pow2,
    /// The constant 1, by its second name.
    True,
    /// Any constant.
    Cst,
    /// Any name.
    Ssa,
}

impl Pred {
    /// Every predicate, once.
    const ALL: [Pred; 8] = [
        Pred::Zero,
        Pred::One,
        Pred::AllOnes,
        Pred::MinusOne,
        Pred::Pow2,
        Pred::True,
        Pred::Cst,
        Pred::Ssa,
    ];

    /// The predicate of this name, as `integer_zerop`. `None` exactly where no predicate has the
    /// name.
    #[tactic(auto, unfolding(crate::specs::Predicates::pred_named))]
    pub fn from_name(name: &[u8]) -> Option<Pred>
        ensures { result ≡ pred_named name.now }
    {
        first_named(&Pred::ALL, name)
    }

    /// The name in patterns and in C text.
    pub fn name(self) -> &'static str
        ensures { result.now ≡ pred_name self }
    {
        match self {
            Pred::Zero => "integer_zerop",
            Pred::One => "integer_onep",
            Pred::AllOnes => "integer_all_onesp",
            Pred::MinusOne => "integer_minus_onep",
            Pred::Pow2 => "integer_pow2p",
            Pred::True => "integer_truep",
            Pred::Cst => "INTEGER_CST",
            Pred::Ssa => "SSA_NAME",
        }
    }
}

/// The first of these predicates that has the name.
fn first_named(preds: &[Pred], name: &[u8]) -> Option<Pred>
    ensures { result ≡ find (λ pred. bytes_eq (pred_name pred) name.now) preds.now }
{
    preds
        .iter()
        .copied()
        .find(|pred| pred.name().as_bytes() == name)
}
