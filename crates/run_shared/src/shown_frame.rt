use task_board::{Retired, Shown};

/// A frame that is shown, and what follows.
#[derive(Drop)]
pub struct ShownFrame<'t> {
    pub shown: Shown<'t>,
    /// Whether a task can be taken then.
    pub is_more: bool,
    /// What the board's last events have left over, to be let go with the lock free.
    pub retired: Retired<'t>,
}
