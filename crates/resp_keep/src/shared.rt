ghost use Rattle.std.specs.Prelude.{◌≡◌, IfOk};

use crate::kept::Kept;
use scalar_val::NoMemory;
use std::alloc::Global;
use std::marker::Model;
use std::sync::Arc;

/// A kept text that several owners share. Contracts see its bytes.
#[derive(Drop)]
pub struct SharedKept {
    kept: Arc<Kept, Global>,
}

impl Model for SharedKept {
    ghost use Rattle.std.specs.Prelude.{List, ℕ};

    ghost Value = { List ℕ };

    ghost view = { λ s. s.kept.value };
}

impl SharedKept {
    /// The first owner of a kept text, which is moved and not copied.
    pub fn of(alloc: Global, kept: Kept) -> Result<SharedKept, NoMemory>
        ensures { IfOk result (λ shared. shared ≡ kept) }
    {
        let kept = Arc::new(alloc, kept)?;
        Ok(SharedKept { kept })
    }

    /// One more owner of the same text. It copies no byte.
    pub fn share(&self) -> Result<SharedKept, NoMemory>
        ensures { IfOk result (λ shared. shared ≡ self.now) }
    {
        let kept = Arc::try_clone(&self.kept)?;
        Ok(SharedKept { kept })
    }

    pub fn kept(&self) -> &Kept
        ensures { result.now ≡ self.now }
    {
        &self.kept
    }
}
