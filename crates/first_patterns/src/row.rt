use pm_ops::Code;

/// Which of two operands.
#[derive(Clone, Copy, Debug, PartialEq, Eq)]
pub enum Side {
    Left,
    Right,
}

/// A pattern `(simplify (op X Y) Z)`, where X, Y and Z are captures and Z is X or Y.
#[derive(Clone, Copy, Debug, PartialEq, Eq)]
pub struct Row {
    /// The byte of the file at which its outer parenthesis opens.
    pub at: usize,
    pub code: Code,
    /// Whether X and Y are one capture, so that both operands must be the same.
    pub same: bool,
    /// The capture that Z is. It is the left one where the two are one.
    pub result: Side,
}
