ghost use Rattle.std.specs.Prelude.{◌≡◌};

use crate::ty::IntType;
use crate::wide::Wide;

/// What an operation takes: a name by its version, with its type, or a constant.
#[derive(Clone, Copy, Debug, PartialEq, Eq)]
pub enum Operand {
    Name(u32, IntType),
    Const(Wide),
}

impl Operand {
    ghost use Rattle.pm_wide.specs.Operands.{type_of_operand};

    /// The type of its values.
    pub fn ty(self) -> IntType
        ensures { result ≡ type_of_operand self }
    {
        match self {
            Operand::Name(_, ty) => ty,
            Operand::Const(word) => word.ty(),
        }
    }
}

/// The `_Bool` 0, for containers that fill free places.
impl Default for Operand {
    ghost use Rattle.std.specs.Prelude.{◌≡◌};
    ghost use Rattle.pm_wide.specs.Types.{bool_type};
    ghost use Rattle.pm_wide.specs.declared.operand.Operand.TheVariants.{Const};

    ghost is_default = { λ x. x ≡ Const (record { bits = 0; ty = bool_type }) };

    fn default() -> Operand {
        Operand::Const(Wide::default())
    }
}
