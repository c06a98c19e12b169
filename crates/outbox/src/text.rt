ghost use Rattle.std.specs.Prelude.{◌≡◌, IfOk};

use scalar_val::NoMemory;
use std::alloc::Global;
use std::marker::Model;
use std::sync::Arc;

/// A text on its way out, which several owners share. Contracts see its bytes.
#[derive(Drop)]
pub struct OutText {
    bytes: Arc<Vec<u8>, Global>,
}

impl Model for OutText {
    ghost use Rattle.std.specs.Prelude.{List, ℕ};

    ghost Value = { List ℕ };

    ghost view = { λ t. t.bytes.value.items };
}

impl OutText {
    /// A copy of the bytes.
    pub fn of(alloc: Global, bytes: &[u8]) -> Result<OutText, NoMemory>
        ensures { IfOk result (λ t. t ≡ bytes.now) }
    {
        OutText::from_vec(alloc, Vec::from_slice(alloc, bytes)?)
    }

    /// The bytes of a `Vec`, which is moved and not copied.
    pub fn from_vec(alloc: Global, bytes: Vec<u8>) -> Result<OutText, NoMemory>
        ensures { IfOk result (λ t. t ≡ bytes.items) }
    {
        let bytes = Arc::new(alloc, bytes)?;
        Ok(OutText { bytes })
    }

    /// The bytes of the text.
    pub fn as_bytes(&self) -> &[u8]
        ensures { result.now ≡ self.now }
    {
        self.bytes.as_slice()
    }

    /// One more owner of the same text. It copies no byte.
    pub fn share(&self) -> Result<OutText, NoMemory>
        ensures { IfOk result (λ t. t ≡ self.now) }
    {
        let bytes = Arc::try_clone(&self.bytes)?;
        Ok(OutText { bytes })
    }
}
