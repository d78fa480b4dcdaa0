use task_board::Retired;

/// What follows where a worker handed in what its work came to.
#[derive(Drop)]
pub struct HandedIn<'t> {
    /// Whether it ended a Draw and the next frame can be shown: nothing else makes one ready.
    pub shows: bool,
    /// What the board's last events have left over, to be let go with the lock free.
    pub retired: Retired<'t>,
}
