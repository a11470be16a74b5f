//! What holds of readability. Each call here does nothing: its contract is a law, which its check
//! proves.
ghost use Rattle.std.specs.Prelude.{◌≡◌, ◌++◌, ◌↔◌, ℕ, Bool, false, Some, List};
ghost use Rattle.gim_ast.specs.declared.function.Function.{Function};
ghost use Rattle.gim_ast.specs.Paths.{Stretch, flow_of, stretch_at, Path};
ghost use Rattle.gim_ast.specs.Readable.{read_for, is_initial, Supports, IsReadable, IsValid, IsFirstUnreadable};
ghost use Rattle.gim_ssa.specs.Marks.{AreMarks, TellsSupport, AllLeadToFresh};

/// At a point that no path reaches, each name outside its own support is readable.
pub fn unreached_points_read_all()
    ensures { (f : Function) (x n : ℕ) (left : List ℕ) →
        ((past : List ℕ) → Path (flow_of f) n left past → ⊥) →
        (Supports (read_for f) x x → ⊥) → IsReadable f x n left }
{}

/// A function has at most one first unreadable use.
pub fn first_unreadable_is_one()
    ensures { (f : Function) (n k x m j y : ℕ) → IsFirstUnreadable f n k x →
        IsFirstUnreadable f m j y →
        (n ≡ m) × (k ≡ j) × (x ≡ y) }
{}

/// A valid function has no first unreadable use.
pub fn valid_has_no_first_unreadable()
    ensures { (f : Function) (n k x : ℕ) → IsValid f → IsFirstUnreadable f n k x → ⊥ }
{}

/// Marks at the heads of blocks decide where a name is readable: it isn't in its own support, and
/// each mark at the head of the block leads to fresh behind the names that the block has assigned.
pub fn marks_decide_readability()
    ensures { (f : Function) (x : ℕ) (in_support : ℕ → Bool) (marked : ℕ → Bool → Bool) →
        TellsSupport x in_support (read_for f) → AreMarks x in_support (flow_of f) (is_initial f x) marked →
        (n : ℕ) (home : Stretch) (front left : List ℕ) → stretch_at (flow_of f) n ≡ Some home → home.assigns ≡ front ++ left →
        IsReadable f x n left ↔ ((in_support x ≡ false) × AllLeadToFresh x in_support marked n front) }
{}
