//! What ring forms and exact forms imply, for every term. The functions do nothing: their contracts
//! are the laws.
ghost use Rattle.std.specs.Prelude.{◌≡◌, ◌<◌, ◌-ℤ◌, ℕ, ℤ, pos, List, Some, true};
ghost use Rattle.pm_wide.specs.Congruence.{Congruent};
ghost use Rattle.pm_wide.specs.Types.{Ty, Word, value};
ghost use Rattle.pm_term.specs.Environments.{GivesWords};
ghost use Rattle.pm_term.specs.Terms.{term_value, term_values};
ghost use Rattle.pm_term.specs.Trees.{Tree, Trees, nil, cons, type_of, operations, IsWellTyped, AreWellTyped};
ghost use Rattle.ring_forms.specs.declared.poly.Monomial.{Monomial};
ghost use Rattle.ring_forms.specs.Differences.{AreOneExactly, exact_number, AreOneModulo, ring_number};
ghost use Rattle.ring_forms.specs.DifferenceValues.{values_difference};
ghost use Rattle.ring_forms.specs.ExactForms.{has_exact_form, IsExactForm};
ghost use Rattle.ring_forms.specs.PolynomialValues.{terms_value};
ghost use Rattle.ring_forms.specs.RingForms.{same_atom, AreRingEqual};

/// Terms of one ring form have one word wherever both have a value.
pub fn equal_forms_give_equal_words()
    ensures { (words : ℕ → Ty → Word) (left right : Tree) (r s : Word) →
        GivesWords words → IsWellTyped left → IsWellTyped right → AreRingEqual left right →
        term_value words left ≡ Some r → term_value words right ≡ Some s → r ≡ s }
{}

/// Where a term of a signed type has an exact form and a value, the value of the form is its value.
pub fn the_exact_form_has_the_value()
    ensures { (words : ℕ → Ty → Word) (t : Tree) (terms : List (Monomial × ℤ)) (r : Word) →
        GivesWords words → IsWellTyped t → has_exact_form t ≡ true → IsExactForm t terms →
        term_value words t ≡ Some r → terms_value words terms ≡ value r }
{}

/// Which atoms are the same doesn't rest on the depth to which they are looked at, where that is
/// above their operations.
pub fn depth_decides_nothing()
    ensures { (d e : ℕ) (a b : Tree) → operations a < d → operations b < d →
        operations a < e → operations b < e → same_atom d a b ≡ same_atom e a b }
{}

/// Differences that are one over whole numbers have one value, where their terms have values: of one
/// term this is its value, of two that of the first less that of the second.
pub fn equal_exact_differences_have_one_value()
    ensures { (words : ℕ → Ty → Word) (ts us : Trees) (rs ss : List Word) →
        GivesWords words → AreWellTyped ts → AreWellTyped us → AreOneExactly ts us →
        term_values words ts ≡ Some rs → term_values words us ≡ Some ss →
        values_difference rs ≡ values_difference ss }
{}

/// A difference that is a number over whole numbers has that value, where its terms have values.
pub fn an_exact_number_is_the_value()
    ensures { (words : ℕ → Ty → Word) (ts : Trees) (rs : List Word) (z : ℤ) →
        GivesWords words → AreWellTyped ts → exact_number ts ≡ Some z →
        term_values words ts ≡ Some rs → values_difference rs ≡ z }
{}

/// Differences of terms of one type that are one modulo 2 to its width are congruent in value, where
/// their terms have values.
pub fn equal_ring_differences_are_congruent()
    ensures { (words : ℕ → Ty → Word) (a b c d : Tree) (x y z w : Word) →
        GivesWords words → IsWellTyped a → IsWellTyped b → IsWellTyped c → IsWellTyped d →
        type_of b ≡ type_of a → type_of c ≡ type_of a → type_of d ≡ type_of a →
        AreOneModulo (type_of a).width (cons a (cons b nil)) (cons c (cons d nil)) →
        term_value words a ≡ Some x → term_value words b ≡ Some y →
        term_value words c ≡ Some z → term_value words d ≡ Some w →
        Congruent (type_of a).width (value x -ℤ value y) (value z -ℤ value w) }
{}

/// A difference of terms of one type that is a number modulo 2 to its width is congruent to it in
/// value, where its terms have values.
pub fn a_ring_number_is_congruent_to_the_value()
    ensures { (words : ℕ → Ty → Word) (a b : Tree) (x y : Word) (n : ℕ) →
        GivesWords words → IsWellTyped a → IsWellTyped b → type_of b ≡ type_of a →
        ring_number (type_of a).width (cons a (cons b nil)) ≡ Some n →
        term_value words a ≡ Some x → term_value words b ≡ Some y →
        Congruent (type_of a).width (value x -ℤ value y) (pos n) }
{}
