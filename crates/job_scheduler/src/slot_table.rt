ghost use Rattle.std.specs.Prelude.{◌≡◌, ◌<◌, ◌≤◌, ◌%◌, length, replicate, None};
ghost use Rattle.board_model.specs.Lists.{write};

use std::marker::Model;

/// The frame that lies in each slot, in a fixed table with room for the 16 that settings allow at most. Its front is used.
#[derive(Drop)]
pub(crate) struct SlotTable {
    slots: u32,
    all: [Option<u32>; 16],
}

impl Model for SlotTable {
    ghost use Rattle.std.specs.Prelude.{◌≡◌, ◌≤◌, ℕ, List, Option, length, take};

    ghost Value = { List (Option ℕ) };

    ghost view = { λ t. take t.slots t.all };

    ghost invariant = { λ t. (t.slots ≤ 16) × (length t.all ≡ 16) };
}

impl SlotTable {
    /// So many slots, all of which are free.
    pub(crate) fn new(slots: u32) -> SlotTable
        requires { slots ≤ 16 }
        ensures { result ≡ replicate slots None }
    {
        SlotTable {
            slots,
            all: [None; 16],
        }
    }

    /// How many slots there are.
    pub(crate) fn len(&self) -> u32
        ensures { result ≡ length self.now }
    {
        self.slots
    }

    /// What lies in the slot of a frame from now on.
    #[inline(always)]
    pub(crate) fn set(&mut self, frame: u32, content: Option<u32>)
        requires { 0 < length self.old }
        ensures { self.new ≡ write self.old (frame % length self.old) content }
    {
        self.all[(frame % self.slots) as usize] = content;
    }
}
