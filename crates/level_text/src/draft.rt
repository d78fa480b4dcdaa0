use bt_nodes::Node;
use std::alloc::Global;

/// A node as it was read, with its tree's name.
#[derive(Drop)]
pub(crate) struct NamedNode {
    pub(crate) name: String,
    pub(crate) node: Node<Global>,
}

/// A level as it was read, before any fault but its shape is looked for.
#[derive(Drop)]
pub(crate) struct Draft {
    pub(crate) rows: Vec<String>,
    pub(crate) names: Vec<String>,
    pub(crate) trees: Vec<NamedNode>,
}
