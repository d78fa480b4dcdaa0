/// Whether the board was told what a worker's work came to.
#[derive(Clone, Copy, PartialEq, Eq, Drop)]
pub(crate) enum Delivered {
    Told,
    /// The board is stopped, so nothing is wanted any more.
    Stopped,
}
