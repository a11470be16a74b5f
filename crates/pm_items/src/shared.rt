//! `Shared`, an `Rc` that contracts see as its value.
ghost use Rattle.std.specs.Prelude.{◌≡◌, IfOk};

use std::alloc::{AllocError, Global};
use std::fmt;
use std::hash::{Hash, Hasher};
use std::marker::Model;
use std::rc::Rc;

/// An `Rc` that contracts see as its value, however often it is shared.
#[derive(Drop)]
pub struct Shared<T> {
    inner: Rc<T>,
}

impl<T> Model for Shared<T> {
    ghost Value = { T };

    ghost coded = { T.code };

    ghost view = { λ s. s.inner.value };
}

impl<T> Shared<T> {
    /// The shared value, by reference.
    pub fn get(&self) -> &T
        ensures { result.now ≡ self.now }
    {
        &self.inner
    }

    /// This `Rc`. Takes no memory.
    pub fn from_rc(inner: Rc<T>) -> Shared<T>
        ensures { result ≡ inner.value }
    {
        Shared { inner }
    }

    /// The plain `Rc`. Takes no memory.
    pub fn into_rc(self) -> Rc<T>
        ensures { result.value ≡ self }
    {
        let Shared { inner } = self;
        inner
    }
}

impl<T: Drop> Shared<T> {
    /// A value with its first owner. After an `Err` the value is dropped.
    pub fn new(alloc: Global, value: T) -> Result<Shared<T>, AllocError>
        ensures { IfOk result (λ s. s ≡ value) }
    {
        Ok(Shared {
            inner: Rc::new(alloc, value)?,
        })
    }

    /// One more owner of the same value. Takes no memory. `Err` is std's answer to a full count of owners, 2^64 - 1;
    /// no clause of std speaks of that count, so a caller takes it as want of memory.
    pub fn share(&self) -> Result<Shared<T>, AllocError>
        ensures { IfOk result (λ s. s ≡ self.now) }
    {
        Ok(Shared {
            inner: self.inner.clone()?,
        })
    }
}

/// Equal where the values are, shared or not.
impl<T: PartialEq> PartialEq for Shared<T> {
    ghost eq = { T.eq };

    ghost laws = { T.laws };

    fn eq(&self, other: &Shared<T>) -> bool {
        *self.inner == *other.inner
    }
}

impl<T: Eq> Eq for Shared<T> {
    ghost laws = { T.Eq.laws };
}

/// Hashed as the value.
impl<T: Hash> Hash for Shared<T> {
    ghost hash_input = { T.hash_input };

    ghost respects_eq = { T.respects_eq };

    fn hash<H: Hasher>(&self, state: &mut H) {
        (*self.inner).hash(state);
    }
}

/// Shown as the value.
impl<T: fmt::Debug> fmt::Debug for Shared<T> {
    fn fmt<W: fmt::Write>(&self, f: &mut fmt::Formatter<W>) -> fmt::Result {
        (*self.inner).fmt(f)
    }
}
