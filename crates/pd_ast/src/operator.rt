//! The operators of C text, with their spellings.
ghost use Rattle.std.specs.Prelude.{◌≡◌, find};
ghost use Rattle.std.specs.Str.{bytes_eq};
ghost use Rattle.pd_ast.specs.Operators.{unary_name, unary_named, binary_name, binary_named};

/// An operator before one operand.
#[derive(Clone, Copy, Debug, PartialEq, Eq)]
pub enum UnaryOperator {
    /// `!`.
    Not,
    /// `~`.
    Complement,
    /// `-`.
    Negate,
}

impl UnaryOperator {
    /// Every one, once.
    const ALL: [UnaryOperator; 3] = [
        UnaryOperator::Not,
        UnaryOperator::Complement,
        UnaryOperator::Negate,
    ];

    /// The operator of this spelling. `None` exactly where none has it.
    #[tactic(auto, unfolding(crate::specs::Operators::unary_named))]
    pub fn from_name(name: &[u8]) -> Option<UnaryOperator>
        ensures { result ≡ unary_named name.now }
    {
        first_unary(&UnaryOperator::ALL, name)
    }

    /// Its spelling.
    pub fn name(self) -> &'static str
        ensures { result.now ≡ unary_name self }
    {
        match self {
            UnaryOperator::Not => "!",
            UnaryOperator::Complement => "~",
            UnaryOperator::Negate => "-",
        }
    }
}

/// The first of these operators that has the spelling.
fn first_unary(operators: &[UnaryOperator], name: &[u8]) -> Option<UnaryOperator>
    ensures { result ≡ find (λ one. bytes_eq (unary_name one) name.now) operators.now }
{
    operators
        .iter()
        .copied()
        .find(|one| one.name().as_bytes() == name)
}

/// An operator between two operands.
#[derive(Clone, Copy, Debug, PartialEq, Eq)]
pub enum BinaryOperator {
    /// `||`.
    Or,
    /// `&&`.
    And,
    /// `|`.
    BitOr,
    /// `^`.
    BitXor,
    /// `&`.
    BitAnd,
    /// `==`.
    Eq,
    /// `!=`.
    Ne,
    /// `<`.
    Lt,
    /// `<=`.
    Le,
    /// `>`.
    Gt,
    /// `>=`.
    Ge,
    /// `+`.
    Plus,
    /// `-`.
    Minus,
    /// `*`.
    Times,
}

impl BinaryOperator {
    /// Every one, once.
    const ALL: [BinaryOperator; 14] = [
        BinaryOperator::Or,
        BinaryOperator::And,
        BinaryOperator::BitOr,
        BinaryOperator::BitXor,
        BinaryOperator::BitAnd,
        BinaryOperator::Eq,
        BinaryOperator::Ne,
        BinaryOperator::Lt,
        BinaryOperator::Le,
        BinaryOperator::Gt,
        BinaryOperator::Ge,
        BinaryOperator::Plus,
        BinaryOperator::Minus,
        BinaryOperator::Times,
    ];

    /// The operator of this spelling. `None` exactly where none has it.
    #[tactic(auto, unfolding(crate::specs::Operators::binary_named))]
    pub fn from_name(name: &[u8]) -> Option<BinaryOperator>
        ensures { result ≡ binary_named name.now }
    {
        first_binary(&BinaryOperator::ALL, name)
    }

    /// Its spelling.
    pub fn name(self) -> &'static str
        ensures { result.now ≡ binary_name self }
    {
        match self {
            BinaryOperator::Or => "||",
            BinaryOperator::And => "&&",
            BinaryOperator::BitOr => "|",
            BinaryOperator::BitXor => "^",
            BinaryOperator::BitAnd => "&",
            BinaryOperator::Eq => "==",
            BinaryOperator::Ne => "!=",
            BinaryOperator::Lt => "<",
            BinaryOperator::Le => "<=",
            BinaryOperator::Gt => ">",
            BinaryOperator::Ge => ">=",
            BinaryOperator::Plus => "+",
            BinaryOperator::Minus => "-",
            BinaryOperator::Times => "*",
        }
    }
}

/// The first of these operators that has the spelling.
fn first_binary(operators: &[BinaryOperator], name: &[u8]) -> Option<BinaryOperator>
    ensures { result ≡ find (λ one. bytes_eq (binary_name one) name.now) operators.now }
{
    operators
        .iter()
        .copied()
        .find(|one| one.name().as_bytes() == name)
}
