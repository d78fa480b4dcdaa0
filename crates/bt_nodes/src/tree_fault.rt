/// The limit that a tree breaks. Where it breaks several, the first of these, looked for in the whole tree.
#[derive(Clone, Copy, Debug, PartialEq, Eq, Drop)]
pub enum TreeFault {
    /// More than 255 nodes.
    TooManyNodes,
    /// A depth of more than 32, where the root alone has the depth 1.
    TooDeep,
    /// A `Seq`, `Fallback`, `SeqStar`, `FallbackStar` or `Par` with no child.
    NoChild,
    /// A threshold of `Par` that is not from 1 to the number of its children.
    Threshold,
    /// A number of `Tries`, `Ticks` or `Wait` that is not from 1 to 1000, or of `Near` that is not from 1 to 16.
    Count,
}
