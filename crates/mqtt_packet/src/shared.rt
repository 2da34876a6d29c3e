//! Values with several owners.

ghost use Rattle.std.specs.Prelude.{◌≡◌, IfOk};

use std::alloc::{AllocError, AllocFailed, Global};
use std::marker::Model;
use std::ops::Deref;
use std::sync::Arc;

/// A value on the heap that several own, and that goes with the last of them. Contracts see it as the value.
#[derive(Debug, Drop)]
pub(crate) struct Shared<T> {
    value: Arc<T>,
}

impl<T> Model for Shared<T> {
    ghost Value = { T };

    ghost view = { λ s. s.value.value };
}

impl<T> Shared<T> {
    /// Puts a value on the heap, with one owner. At an `Err` it is handed back.
    pub fn new(alloc: Global, value: T) -> Result<Shared<T>, AllocFailed<T>>
        ensures { IfOk result (λ shared. shared ≡ value) }
    {
        match Arc::new(alloc, value) {
            Ok(value) => Ok(Shared { value }),
            Err(failed) => Err(failed),
        }
    }

    /// The same value, for one owner more. It takes no memory: an `Err` says that the value has as many owners as can be counted, 2^63.
    pub fn share(&self) -> Result<Shared<T>, AllocError>
        ensures { IfOk result (λ shared. shared ≡ self.now) }
    {
        Ok(Shared {
            value: Arc::try_clone(&self.value)?,
        })
    }
}

impl<T> Deref for Shared<T> {
    type Target = T;

    ghost deref_gives = { λ shared value. value ≡ shared };

    fn deref(&self) -> &T
        ensures { result.now ≡ self.now }
    {
        &self.value
    }
}
