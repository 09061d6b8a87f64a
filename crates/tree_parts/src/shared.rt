//! Values that several threads may hold.

ghost use Rattle.std.specs.Prelude.{◌≡◌, IfOk};

use std::alloc::{AllocError, Global};
use std::marker::Model;
use std::sync::Arc;

/// An `Arc` that contracts see as its value.
#[derive(Drop)]
pub struct Shared<T> {
    inner: Arc<T>,
}

impl<T> Model for Shared<T> {
    ghost use Rattle.std.specs.Arc.{arc_value};

    ghost Value = { T };

    ghost view = { λ s. arc_value s.inner };
}

impl<T> Shared<T> {
    /// The value.
    pub fn get(&self) -> &T
        ensures { result.now ≡ self.now }
    {
        &*self.inner
    }

    /// One more holder of the same value. The only error is that there are too many.
    pub fn share(&self) -> Result<Shared<T>, AllocError>
        ensures { IfOk result (λ s. s ≡ self.now) }
    {
        let inner = Arc::try_clone(&self.inner)?;
        Ok(Shared { inner })
    }
}

impl<T: Drop> Shared<T> {
    /// A value that may be held several times. The only error is that memory ran out.
    pub fn new(alloc: Global, value: T) -> Result<Shared<T>, AllocError>
        ensures { IfOk result (λ s. s ≡ value) }
    {
        let inner = Arc::new(alloc, value)?;
        Ok(Shared { inner })
    }
}
