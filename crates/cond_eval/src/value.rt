//! The values that C text can have.
ghost use Rattle.std.specs.Prelude.{◌≡◌, ◌==◌, IsTrue};
ghost use Rattle.cond_eval.specs.Values.{of_static_type, type_number, type_of_value, IsValue};

use pd_ast::CType;
use pm_ops::Code;
use pm_wide::{IntType, Operand};

/// A value of C text, one variant for each static type.
#[derive(Clone, Copy, Debug, PartialEq, Eq)]
pub enum CValue {
    Truth(bool),
    Int(i64),
    TypeRef(IntType),
    Oper(Operand),
    /// A precision and a word.
    WideRef(u8, u128),
    /// True for unsigned.
    Sign(bool),
    CodeRef(Code),
}

impl CValue {
    /// Its static type.
    pub fn ty(&self) -> CType
        ensures { result ≡ type_of_value self.now }
    {
        match self {
            CValue::Truth(_) => CType::Truth,
            CValue::Int(_) => CType::Int,
            CValue::TypeRef(_) => CType::TypeRef,
            CValue::Oper(_) => CType::Oper,
            CValue::WideRef(..) => CType::WideRef,
            CValue::Sign(_) => CType::Sign,
            CValue::CodeRef(_) => CType::CodeRef,
        }
    }

    /// The value, where it has that static type.
    pub(crate) fn of_type(self, ty: CType) -> Option<CValue>
        ensures { result ≡ of_static_type ty self }
    {
        let is_of_type = self.ty() == ty;
        if is_of_type { Some(self) } else { None }
    }
}
