ghost use Rattle.std.specs.Prelude.{◌≡◌, IfOk, IfErr};

use crate::memory::NoMemory;
use std::alloc::Global;
use std::marker::Model;
use std::rc::Rc;

/// A counted reference that contracts see as the value behind it, for a value with several owners.
pub struct Shared<T> {
    inner: Rc<T>,
}

impl<T: Drop> Drop for Shared<T> {
    fn drop(self) {
        let Self { inner: _ } = self;
    }
}

impl<T> Model for Shared<T> {
    ghost Value = { T };

    ghost coded = { T.code };

    ghost view = { λ shared. shared.inner.value };
}

impl<T: Drop> Shared<T> {
    /// The first owner of this value.
    pub fn new(alloc: Global, value: T) -> Result<Shared<T>, NoMemory>
        ensures { IfOk result (λ shared. shared ≡ value) }
    {
        Ok(Shared {
            inner: Rc::new(alloc, value)?,
        })
    }

    /// The value.
    pub fn get(&self) -> &T
        ensures { result.now ≡ self.now }
    {
        &self.inner
    }

    /// One more owner of the same value.
    pub fn share(&self) -> Result<Shared<T>, NoMemory>
        ensures { IfOk result (λ shared. shared ≡ self.now) }
    {
        Ok(Shared {
            inner: self.inner.clone()?,
        })
    }

    /// The value, or this owner again. It is the value where there is no other owner, which no clause says: how many owners
    /// there are is no part of what contracts see.
    pub fn try_unwrap(self) -> Result<T, Shared<T>>
        ensures ok { IfOk result (λ value. value ≡ self) }
        ensures err { IfErr result (λ shared. shared ≡ self) }
    {
        let Shared { inner } = self;
        match Rc::try_unwrap(inner) {
            Ok(value) => Ok(value),
            Err(inner) => Err(Shared { inner }),
        }
    }
}
