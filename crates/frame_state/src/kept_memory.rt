ghost use Rattle.std.specs.Prelude.{◌≡◌, IfOk};

use bt_tick::Memory;
use std::alloc::{AllocError, Global};
use std::marker::Model;
use std::sync::Arc;

/// An agent's memory after a frame. The thought that left it, the turn and the parameters of the next frame share it.
#[derive(Drop)]
pub struct KeptMemory {
    memory: Arc<Memory>,
}

impl Model for KeptMemory {
    ghost use Rattle.std.specs.Prelude.{List, ℕ};
    ghost use Rattle.std.specs.Arc.{arc_value};

    ghost Value = { List ℕ };

    ghost view = { λ m. arc_value m.memory };
}

impl KeptMemory {
    /// A memory that can be shared from now on. Takes memory once.
    pub fn new(alloc: Global, memory: Memory) -> Result<KeptMemory, AllocError>
        ensures { IfOk result (λ m. m ≡ memory) }
    {
        Ok(KeptMemory {
            memory: Arc::new(alloc, memory)?,
        })
    }

    /// The same memory once more; nothing is copied.
    pub fn share(&self) -> Result<KeptMemory, AllocError>
        ensures { IfOk result (λ m. m ≡ self.now) }
    {
        Ok(KeptMemory {
            memory: Arc::try_clone(&self.memory)?,
        })
    }

    // What is shared.
    pub(crate) fn memory(&self) -> &Memory
        ensures { result.now ≡ self.now }
    {
        &self.memory
    }
}
