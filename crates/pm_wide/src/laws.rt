//! What the operation table implies, for every type and word. The functions do nothing: their
//! contracts are the laws.
ghost use Rattle.std.specs.Prelude.{◌≡◌, ◌<◌, ◌≤◌, ◌^◌, IsTrue, false, not, ◌&&◌, ℕ, ℤ, pos, negsuc, neg_ℤ, ◌+ℤ◌, ◌-ℤ◌, ◌*ℤ◌, List, [], ◌∷◌, map, Some};
ghost use Rattle.std.specs.Int.{int_div_euclid, int_min, int_max};
ghost use Rattle.std.specs.Int.RustNames.{int_div, int_rem, unsigned_abs};
ghost use Rattle.std.specs.List.{All};
ghost use Rattle.pm_ops.specs.declared.code.Code.{Code};
ghost use Rattle.pm_ops.specs.declared.code.Code.TheVariants.{Convert, TruncDiv, TruncMod, Absu, BitNot, Lshift, Rshift, Min, Max};
ghost use Rattle.pm_wide.specs.Congruence.{Congruent};
ghost use Rattle.pm_wide.specs.Types.{Ty, Word, IsType, IsWord, in_range, least, value, word};
ghost use Rattle.pm_wide.specs.Typing.{well_typed_operation};
ghost use Rattle.pm_wide.specs.Operations.{divides, exact, int_same, least_by_minus_one, operation_value};

/// A type has at least one bit and at most 128.
pub fn types_have_bits()
    ensures least { (t : Ty) → IsType t → 0 < t.width }
    ensures greatest { (t : Ty) → IsType t → t.width ≤ 128 }
{}

/// A value has the word from which it comes, and a word has the value from which it comes.
pub fn words_and_values_correspond()
    ensures word { (w : Word) → IsWord w → word w.ty (value w) ≡ w }
    ensures value { (t : Ty) (z : ℤ) → IsType t → IsTrue (in_range t z) → value (word t z) ≡ z }
    ensures in_range { (w : Word) → IsWord w → IsTrue (in_range w.ty (value w)) }
{}

/// Congruent whole numbers have one word, and a whole number is congruent to the value of its word.
pub fn words_are_congruence_classes()
    ensures one_word { (t : Ty) (a b : ℤ) → Congruent t.width a b → word t a ≡ word t b }
    ensures congruent { (t : Ty) (z : ℤ) → Congruent t.width (value (word t z)) z }
    ensures one_class { (t : Ty) (a b : ℤ) → word t a ≡ word t b → Congruent t.width a b }
    ensures one_value { (t : Ty) (a b : ℤ) → IsType t → IsTrue (in_range t a) → IsTrue (in_range t b) → Congruent t.width a b → a ≡ b }
{}

/// Congruence modulo a power of two is an equivalence that sums, differences, products and
/// negatives keep.
pub fn congruence_is_kept()
    ensures same { (m : ℕ) (a : ℤ) → Congruent m a a }
    ensures turned { (m : ℕ) (a b : ℤ) → Congruent m a b → Congruent m b a }
    ensures joined { (m : ℕ) (a b c : ℤ) → Congruent m a b → Congruent m b c → Congruent m a c }
    ensures sums { (m : ℕ) (a b c d : ℤ) → Congruent m a b → Congruent m c d → Congruent m (a +ℤ c) (b +ℤ d) }
    ensures differences { (m : ℕ) (a b c d : ℤ) → Congruent m a b → Congruent m c d → Congruent m (a -ℤ c) (b -ℤ d) }
    ensures products { (m : ℕ) (a b c d : ℤ) → Congruent m a b → Congruent m c d → Congruent m (a *ℤ c) (b *ℤ d) }
    ensures fewer_places { (m n : ℕ) (a b : ℤ) → m ≤ n → Congruent n a b → Congruent m a b }
    ensures negatives { (m : ℕ) (a b : ℤ) → Congruent m a b → Congruent m (neg_ℤ a) (neg_ℤ b) }
{}

/// Products go through sums, differences and negatives from both sides, and group and turn at will.
pub fn whole_numbers_are_a_ring()
    ensures turned { (a b : ℤ) → a *ℤ b ≡ b *ℤ a }
    ensures grouped { (a b c : ℤ) → (a *ℤ b) *ℤ c ≡ a *ℤ (b *ℤ c) }
    ensures sums { (a b c : ℤ) → a *ℤ (b +ℤ c) ≡ a *ℤ b +ℤ a *ℤ c }
    ensures differences { (a b c : ℤ) → a *ℤ (b -ℤ c) ≡ a *ℤ b -ℤ a *ℤ c }
    ensures negatives { (a b : ℤ) → neg_ℤ a *ℤ b ≡ neg_ℤ (a *ℤ b) }
    ensures one { (a : ℤ) → pos 1 *ℤ a ≡ a }
{}

/// The value of a well-typed operation on words is a word of the operation's type.
pub fn values_are_words()
    ensures { (code : Code) (t : Ty) (args : List Word) (r : Word) →
        IsType t → All IsWord args → IsTrue (well_typed_operation code t (map (λ w. w.ty) args)) →
        operation_value code t args ≡ Some r → (r.ty ≡ t) × IsWord r }
{}

/// Sums, differences, products, negatives and sizes: congruent to the exact result, and equal to
/// it where the type has a sign, so that it then was in range.
pub fn exact_results()
    ensures congruent { (t : Ty) (z : ℤ) (r : Word) → exact t z ≡ Some r → Congruent t.width (value r) z }
    ensures equal { (t : Ty) (z : ℤ) (r : Word) → IsType t → t.unsigned ≡ false → exact t z ≡ Some r → IsTrue (in_range t z) × (value r ≡ z) }
    ensures defined { (t : Ty) (z : ℤ) → IsTrue (in_range t z) → exact t z ≡ Some (word t z) }
{}

/// Where a signed type has no result: the least value has no negative, no size and no quotient by
/// -1. By 0 there is none in any type.
pub fn missing_results()
    ensures negative { (t : Ty) (x : ℤ) → IsType t → IsTrue (in_range t x) → t.unsigned ≡ false →
        in_range t (neg_ℤ x) ≡ not (int_same x (least t)) }
    ensures size { (t : Ty) (x : ℤ) → IsType t → IsTrue (in_range t x) → t.unsigned ≡ false →
        in_range t (pos (unsigned_abs x)) ≡ not (int_same x (least t)) }
    ensures quotient { (t : Ty) (x y : ℤ) → IsType t → IsTrue (in_range t x) → IsTrue (in_range t y) →
        divides t x y ≡ (not (int_same y (pos 0)) && not (least_by_minus_one t x y)) }
{}

/// Quotients and what they leave are exact.
pub fn exact_quotients()
    ensures quotient { (t : Ty) (a b r : Word) → IsType t →
        operation_value TruncDiv t (a ∷ b ∷ []) ≡ Some r → value r ≡ int_div (value a) (value b) }
    ensures remainder { (t : Ty) (a b r : Word) → IsWord a → a.ty ≡ t →
        operation_value TruncMod t (a ∷ b ∷ []) ≡ Some r → value r ≡ int_rem (value a) (value b) }
{}

/// A shift to the left is congruent to a product with a power of two, and one to the right is an
/// exact quotient, rounded down.
pub fn shifts_are_powers()
    ensures left { (t : Ty) (a b r : Word) →
        operation_value Lshift t (a ∷ b ∷ []) ≡ Some r → Congruent t.width (value r) (value a *ℤ pos (2 ^ unsigned_abs (value b))) }
    ensures right { (t : Ty) (a b r : Word) → IsWord a → a.ty ≡ t →
        operation_value Rshift t (a ∷ b ∷ []) ≡ Some r → value r ≡ int_div_euclid (value a) (pos (2 ^ unsigned_abs (value b))) }
{}

/// The lesser and the greater of two values of a type are exact.
pub fn exact_choices()
    ensures least { (t : Ty) (a b r : Word) → IsWord a → IsWord b → a.ty ≡ t → b.ty ≡ t →
        operation_value Min t (a ∷ b ∷ []) ≡ Some r → value r ≡ int_min (value a) (value b) }
    ensures greatest { (t : Ty) (a b r : Word) → IsWord a → IsWord b → a.ty ≡ t → b.ty ≡ t →
        operation_value Max t (a ∷ b ∷ []) ≡ Some r → value r ≡ int_max (value a) (value b) }
{}

/// A conversion is congruent to its operand, and equal to it where that is in range; `absu` is
/// exact; a complement is congruent to -1 less its operand.
pub fn single_operands()
    ensures converted { (t : Ty) (a r : Word) → operation_value Convert t (a ∷ []) ≡ Some r → Congruent t.width (value r) (value a) }
    ensures kept { (t : Ty) (a r : Word) → IsType t → IsTrue (in_range t (value a)) →
        operation_value Convert t (a ∷ []) ≡ Some r → value r ≡ value a }
    ensures size { (t : Ty) (a r : Word) → IsType t → IsWord a → IsTrue (well_typed_operation Absu t (a.ty ∷ [])) →
        operation_value Absu t (a ∷ []) ≡ Some r → value r ≡ pos (unsigned_abs (value a)) }
    ensures complement { (t : Ty) (a r : Word) → IsWord a → a.ty ≡ t →
        operation_value BitNot t (a ∷ []) ≡ Some r → Congruent t.width (value r) (negsuc 0 -ℤ value a) }
{}
