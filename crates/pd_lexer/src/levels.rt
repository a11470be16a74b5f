//! Levels of `#if`: which part of the source a place lies in.

ghost use Rattle.std.specs.Prelude.{◌≡◌, ◌==◌, not, length, OnOk, OnErr};
ghost use Rattle.pd_lexer.specs.Levels.{ground, opened, turned, closed, levels_of};

use std::alloc::{AllocError, Global};

/// What an `#if` opens, or the source itself.
#[derive(Clone, Copy)]
pub(crate) struct Level {
    /// Whether the part of it that is read now is taken.
    pub taken: bool,
    /// Whether the part behind its `#else` is taken, where it may have one yet.
    pub other: Option<bool>,
}

/// The level that a place lies in, and those round it.
#[derive(Drop)]
pub(crate) struct Nest {
    pub inner: Level,
    /// From the source itself up to the level round the inner one.
    pub outer: Vec<Level>,
}

impl Nest {
    /// The source itself. Takes no memory.
    pub(crate) fn ground(alloc: Global) -> Nest
        ensures { levels_of result ≡ ground }
    {
        Nest {
            inner: Level {
                taken: true,
                other: None,
            },
            outer: Vec::new(alloc),
        }
    }

    /// Whether each `#if` is ended.
    pub(crate) fn is_ground(&self) -> bool
        ensures { result ≡ (length (levels_of self.now).outer == 0) }
    {
        self.outer.is_empty()
    }

    /// Passes an `#if` whose condition holds or doesn't.
    pub(crate) fn open(&mut self, holds: bool) -> Result<(), AllocError>
        ensures { OnOk result (levels_of self.new ≡ opened holds (levels_of self.old)) }
    {
        self.outer.push(self.inner)?;
        let taken = self.inner.taken;
        self.inner = Level {
            taken: taken && holds,
            other: Some(taken && !holds),
        };
        Ok(())
    }

    /// Passes the `#else` of the inner level.
    pub(crate) fn turn(&mut self)
        ensures { levels_of self.new ≡ turned (levels_of self.old) }
    {
        if let Some(taken) = self.inner.other {
            self.inner = Level { taken, other: None };
        }
    }

    /// Passes the `#endif` of the inner level.
    pub(crate) fn close(&mut self)
        ensures { levels_of self.new ≡ closed (levels_of self.old) }
    {
        if let Some(level) = self.outer.pop() {
            self.inner = level;
        }
    }
}
