ghost use Rattle.std.specs.Prelude.{◌≡◌, ◌↔◌, IsTrue, find};
ghost use Rattle.std.specs.List.{list_any};
ghost use Rattle.std.specs.Str.{bytes_eq};
ghost use Rattle.pm_ops.specs.Codes.{arity_of, same_code, swapped_code};
ghost use Rattle.pm_ops.specs.Codes.{is_commutative_code, is_comparison_code};
ghost use Rattle.pm_ops.specs.Names.{code_name, code_named};
ghost use Rattle.pm_ops.specs.Names.{code_c_name, code_c_names, code_c_named};

/// The operations of patterns and of GIMPLE right sides, after GCC's tree codes (`tree.def`).
#[derive(Clone, Copy, Debug, PartialEq, Eq)]
pub enum Code {
    /// The operand in another type, modulo 2 to the width of that type.
    Convert,
    /// The sum.
    Plus,
    /// The difference.
    Minus,
    /// The product.
    Mult,
    /// The quotient, rounded toward zero.
    TruncDiv,
    /// The rest of that quotient.
    TruncMod,
    /// 0 minus the operand.
    Negate,
    /// The absolute value, in the same signed type.
    Abs,
    /// The absolute value, in the unsigned type of that width.
    Absu,
    /// The bits that both have.
    BitAnd,
    /// The bits that either has.
    BitIor,
    /// The bits that one has and the other has not.
    BitXor,
    /// Each bit turned.
    BitNot,
    /// The first operand shifted left by the second.
    Lshift,
    /// The first operand shifted right by the second, with its sign in a signed type.
    Rshift,
    /// The lesser.
    Min,
    /// The greater.
    Max,
    /// Equal.
    Eq,
    /// Not equal.
    Ne,
    /// Less.
    Lt,
    /// Less or equal.
    Le,
    /// Greater.
    Gt,
    /// Greater or equal.
    Ge,
    /// The second operand where the first is 1, else the third.
    Cond,
}

impl Code {
    /// Every operation, once.
    const ALL: [Code; 24] = [
        Code::Convert,
        Code::Plus,
        Code::Minus,
        Code::Mult,
        Code::TruncDiv,
        Code::TruncMod,
        Code::Negate,
        Code::Abs,
        Code::Absu,
        Code::BitAnd,
        Code::BitIor,
        Code::BitXor,
        Code::BitNot,
        Code::Lshift,
        Code::Rshift,
        Code::Min,
        Code::Max,
        Code::Eq,
        Code::Ne,
        Code::Lt,
        Code::Le,
        Code::Gt,
        Code::Ge,
        Code::Cond,
    ];

    /// The operation of this name in patterns, as `plus`. `None` exactly where no operation has the
    /// name.
    #[tactic(auto, unfolding(crate::specs::Names::code_named))]
    pub fn from_name(name: &[u8]) -> Option<Code>
        ensures { result ≡ code_named name.now }
    {
        first_named(&Code::ALL, name)
    }

    /// The name in patterns.
    pub fn name(self) -> &'static str
        ensures { result.now ≡ code_name self }
    {
        match self {
            Code::Convert => "convert",
            Code::Plus => "plus",
            Code::Minus => "minus",
            Code::Mult => "mult",
            Code::TruncDiv => "trunc_div",
            Code::TruncMod => "trunc_mod",
            Code::Negate => "negate",
            Code::Abs => "abs",
            Code::Absu => "absu",
            Code::BitAnd => "bit_and",
            Code::BitIor => "bit_ior",
            Code::BitXor => "bit_xor",
            Code::BitNot => "bit_not",
            Code::Lshift => "lshift",
            Code::Rshift => "rshift",
            Code::Min => "min",
            Code::Max => "max",
            Code::Eq => "eq",
            Code::Ne => "ne",
            Code::Lt => "lt",
            Code::Le => "le",
            Code::Gt => "gt",
            Code::Ge => "ge",
            Code::Cond => "cond",
        }
    }

    /// The operation that C text writes so, as `PLUS_EXPR`. A conversion is written `CONVERT_EXPR`
    /// or `NOP_EXPR`. `None` exactly where no operation has the name.
    #[tactic(auto, unfolding(crate::specs::Names::code_c_named))]
    pub fn from_c_name(name: &[u8]) -> Option<Code>
        ensures { result ≡ code_c_named name.now }
    {
        first_c_named(&Code::ALL, name)
    }

    /// The name in C text: the first, where there are two.
    pub fn c_name(self) -> &'static str
        ensures { result.now ≡ code_c_name self }
    {
        match self {
            Code::Convert => "CONVERT_EXPR",
            Code::Plus => "PLUS_EXPR",
            Code::Minus => "MINUS_EXPR",
            Code::Mult => "MULT_EXPR",
            Code::TruncDiv => "TRUNC_DIV_EXPR",
            Code::TruncMod => "TRUNC_MOD_EXPR",
            Code::Negate => "NEGATE_EXPR",
            Code::Abs => "ABS_EXPR",
            Code::Absu => "ABSU_EXPR",
            Code::BitAnd => "BIT_AND_EXPR",
            Code::BitIor => "BIT_IOR_EXPR",
            Code::BitXor => "BIT_XOR_EXPR",
            Code::BitNot => "BIT_NOT_EXPR",
            Code::Lshift => "LSHIFT_EXPR",
            Code::Rshift => "RSHIFT_EXPR",
            Code::Min => "MIN_EXPR",
            Code::Max => "MAX_EXPR",
            Code::Eq => "EQ_EXPR",
            Code::Ne => "NE_EXPR",
            Code::Lt => "LT_EXPR",
            Code::Le => "LE_EXPR",
            Code::Gt => "GT_EXPR",
            Code::Ge => "GE_EXPR",
            Code::Cond => "COND_EXPR",
        }
    }

    /// Whether C text may write the operation so.
    #[tactic(auto, using(crate::proofs::NameLemmas::has_one_c_name))]
    fn has_c_name(self, name: &[u8]) -> bool
        ensures { result ≡ list_any (λ one. bytes_eq one name.now) (code_c_names self) }
    {
        match self {
            Code::Convert => b"CONVERT_EXPR".as_slice() == name || b"NOP_EXPR".as_slice() == name,
            _ => self.c_name().as_bytes() == name,
        }
    }

    /// How many operands the operation has: 1, 2 or 3.
    pub fn arity(self) -> u8
        ensures { result ≡ arity_of self }
    {
        match self {
            Code::Convert | Code::Negate | Code::Abs | Code::Absu | Code::BitNot => 1,
            Code::Cond => 3,
            _ => 2,
        }
    }

    /// Whether the operands may be exchanged.
    pub fn is_commutative(self) -> bool
        ensures { result ≡ is_commutative_code self }
    {
        match self {
            Code::Plus | Code::Mult | Code::BitAnd | Code::BitIor | Code::BitXor => true,
            Code::Min | Code::Max | Code::Eq | Code::Ne => true,
            _ => false,
        }
    }

    /// Whether it compares two operands, with a `_Bool` as its value.
    pub fn is_comparison(self) -> bool
        ensures { result ≡ is_comparison_code self }
    {
        match self {
            Code::Eq | Code::Ne | Code::Lt | Code::Le | Code::Gt | Code::Ge => true,
            _ => false,
        }
    }

    /// The code that has the same value on exchanged operands, for a commutative code and a
    /// comparison. Any other code stays.
    pub fn swapped(self) -> Code
        ensures { result ≡ swapped_code self }
    {
        match self {
            Code::Lt => Code::Gt,
            Code::Gt => Code::Lt,
            Code::Le => Code::Ge,
            Code::Ge => Code::Le,
            other => other,
        }
    }

    /// Whether the two are one code.
    pub fn same(self, other: Code) -> bool
        ensures value { result ≡ same_code self other }
        ensures equal { IsTrue result ↔ (self ≡ other) }
    {
        self == other
    }
}

/// The first of these operations that has the name in patterns.
fn first_named(codes: &[Code], name: &[u8]) -> Option<Code>
    ensures { result ≡ find (λ code. bytes_eq (code_name code) name.now) codes.now }
{
    codes
        .iter()
        .copied()
        .find(|code| code.name().as_bytes() == name)
}

/// The first of these operations that has the name in C text.
fn first_c_named(codes: &[Code], name: &[u8]) -> Option<Code>
    ensures { result ≡ find (λ code. list_any (λ one. bytes_eq one name.now) (code_c_names code)) codes.now }
{
    codes.iter().copied().find(|code| code.has_c_name(name))
}
