use bt_nodes::Tree;
use std::alloc::Global;

/// A tree and its name.
#[derive(Debug, Drop)]
pub struct NamedTree {
    pub name: String,
    pub tree: Tree<Global>,
}
