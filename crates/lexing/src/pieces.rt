//! What begins at a place of a source, whatever its language.

/// What begins at a place.
#[derive(Clone, Copy)]
pub enum Piece<T> {
    /// A separator, with the place where it ends.
    Separator(usize),
    Token(T),
}
