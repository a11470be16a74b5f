//! `Boxed`, a `Box` that contracts see as its value.
ghost use Rattle.std.specs.Prelude.{◌≡◌, IfOk};
ghost use Rattle.std.specs.Borrow.{sem};

use std::alloc::{AllocError, Global};
use std::fmt;
use std::hash::{Hash, Hasher};
use std::marker::Model;

/// A `Box` that contracts see as its value.
#[derive(Drop)]
pub struct Boxed<T> {
    inner: Box<T>,
}

impl<T> Model for Boxed<T> {
    ghost Value = { T };

    ghost coded = { T.code };

    ghost view = { λ b. b.inner.value };
}

impl<T> Boxed<T> {
    ghost use Rattle.pm_items.specs.Lends.{LendsBoxed};

    /// The boxed value, by reference.
    pub fn get(&self) -> &T
        ensures { result.now ≡ self.now }
    {
        &self.inner
    }

    /// The boxed value, to change it where it stands.
    pub fn get_mut(&mut self) -> &mut T
        ensures* writes_back { sem 𝓛 (LendsBoxed T.row self.entry result) }
        ensures value { result.now ≡ self.old }
    {
        self.inner.as_mut()
    }

    /// The boxed value, out of its box.
    pub fn into_inner(self) -> T
        ensures { result ≡ self }
    {
        let Boxed { inner } = self;
        Box::into_inner(inner)
    }

    /// The plain box. Takes no memory.
    pub fn into_box(self) -> Box<T>
        ensures { result.value ≡ self }
    {
        let Boxed { inner } = self;
        inner
    }

    /// This box. Takes no memory.
    pub fn from_box(inner: Box<T>) -> Boxed<T>
        ensures { result ≡ inner.value }
    {
        Boxed { inner }
    }
}

impl<T: Drop> Boxed<T> {
    /// Boxes a value. After an `Err` the value is dropped.
    pub fn new(alloc: Global, value: T) -> Result<Boxed<T>, AllocError>
        ensures { IfOk result (λ b. b ≡ value) }
    {
        Ok(Boxed {
            inner: Box::new(alloc, value)?,
        })
    }
}

/// Equal where the values are.
impl<T: PartialEq> PartialEq for Boxed<T> {
    ghost eq = { T.eq };

    ghost laws = { T.laws };

    fn eq(&self, other: &Boxed<T>) -> bool {
        *self.inner == *other.inner
    }
}

impl<T: Eq> Eq for Boxed<T> {
    ghost laws = { T.Eq.laws };
}

/// Hashed as the value.
impl<T: Hash> Hash for Boxed<T> {
    ghost hash_input = { T.hash_input };

    ghost respects_eq = { T.respects_eq };

    fn hash<H: Hasher>(&self, state: &mut H) {
        (*self.inner).hash(state);
    }
}

/// Shown as the value.
impl<T: fmt::Debug> fmt::Debug for Boxed<T> {
    fn fmt<W: fmt::Write>(&self, f: &mut fmt::Formatter<W>) -> fmt::Result {
        (*self.inner).fmt(f)
    }
}
