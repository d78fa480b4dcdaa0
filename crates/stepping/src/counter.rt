/// What a decorator counts of its child's ticks.
#[derive(Clone, Copy)]
pub(crate) enum Counter {
    Failures,
    Ticks,
}
