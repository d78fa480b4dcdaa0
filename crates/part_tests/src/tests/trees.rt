use bt_nodes::{Node, Tree, TreeFault};
use bumpalo::Bump;
use grid_world::{Letter, Place, Signal};
use std::alloc::{Allocator, Global};
use std::fmt::Debug;

fn list(alloc: Global, length: u64) -> Option<Vec<Node<Global>>> {
    let mut nodes = Vec::new(alloc);
    for _ in 0..length {
        nodes.push(Node::Carrying).ok()?;
    }
    Some(nodes)
}

fn seq_of(alloc: Global, length: u64) -> Option<Node<Global>> {
    Some(Node::Seq(list(alloc, length)?))
}

/// A condition inside so many `Not`s.
fn nested(alloc: Global, inversions: u64) -> Option<Node<Global>> {
    let mut node = Node::Carrying;
    for _ in 0..inversions {
        node = Node::Not(Box::new(alloc, node).ok()?);
    }
    Some(node)
}

fn pair(alloc: Global, first: Node<Global>, second: Node<Global>) -> Option<Node<Global>> {
    Some(Node::Seq(vec![in alloc; first, second].ok()?))
}

// Whether a node is printed so.
fn prints<N: Debug>(alloc: Global, node: &N, text: &str) -> Option<bool> {
    let printed = format!(in alloc; "{node:?}").ok()?;
    Some(printed.as_str() == text)
}

// The size and the depth of a tree's copy, where it is the same tree and is printed so.
fn copied<A: Allocator + Clone + Debug>(
    alloc: Global,
    to: A,
    tree: &Tree<Global>,
    text: &str,
) -> Option<(u64, u64)> {
    let copy = tree.copy_in(to).ok()?;
    if tree.is_same(&copy) && prints(alloc, copy.root(), text)? {
        Some((copy.size(), copy.depth()))
    } else {
        None
    }
}

fn copied_into_an_arena(alloc: Global) -> Option<(u64, u64)> {
    let tree = Tree::new(nested(alloc, 1)?).ok()?;
    let arena = Bump::new(alloc);
    copied(alloc, &arena, &tree, "Not(Carrying)")
}

#[test]
fn an_inverted_condition_is_copied_into_an_arena(rt: HostRuntime) {
    assert!(rt; copied_into_an_arena(rt.alloc()) == Some((2, 2)));
}

// Why a `Seq` of nothing is no tree, and whether it comes back.
fn refused(alloc: Global) -> Option<(TreeFault, bool)> {
    let (fault, root) = Tree::new(Node::Seq(Vec::<Node<Global>>::new(alloc))).err()?;
    Some((fault, prints(alloc, &root, "Seq([])")?))
}

#[test]
fn a_refused_root_comes_back(rt: HostRuntime) {
    assert!(rt; refused(rt.alloc()) == Some((TreeFault::NoChild, true)));
}

// Why so many `Not`s over a condition are no tree. They are taken apart one by one, since to drop them would nest a call
// for each.
fn fault_of_nested(alloc: Global, inversions: u64) -> Option<TreeFault> {
    let (fault, mut root) = Tree::new(nested(alloc, inversions)?).err()?;
    for _ in 0..inversions {
        root = match root {
            Node::Not(child) => Box::into_inner(child),
            other => other,
        };
    }
    Some(fault)
}

#[test]
fn a_node_a_million_deep_has_too_many_nodes(rt: HostRuntime) {
    assert!(rt; fault_of_nested(rt.alloc(), 1_000_000) == Some(TreeFault::TooManyNodes));
    assert!(rt; fault_of_nested(rt.alloc(), 255) == Some(TreeFault::TooManyNodes));
    assert!(rt; fault_of_nested(rt.alloc(), 254) == Some(TreeFault::TooDeep));
    assert!(rt; fault_of_nested(rt.alloc(), 32) == Some(TreeFault::TooDeep));
}

fn boxed(alloc: Global, node: Node<Global>) -> Option<Box<Node<Global>>> {
    Box::new(alloc, node).ok()
}

fn alone(alloc: Global, node: Node<Global>) -> Option<Vec<Node<Global>>> {
    vec![in alloc; node].ok()
}

fn leaf_of_every_kind(alloc: Global) -> Option<Vec<Node<Global>>> {
    let (place, signal, letter) = (Place::new(4)?, Signal::new(25)?, Letter::new(25)?);
    vec![in alloc;
        Node::Wait(7),
        Node::Move(place),
        Node::Take,
        Node::Drop,
        Node::At(place),
        Node::Carrying,
        Node::Item,
        Node::Signal(signal),
        Node::Near(16),
        Node::Give(letter),
    ]
    .ok()
}

// A tree with a node of each kind.
fn of_every_kind(alloc: Global) -> Option<Node<Global>> {
    let node = Node::SeqStar(leaf_of_every_kind(alloc)?);
    let node = Node::Tries(2, boxed(alloc, node)?);
    let node = Node::FallbackStar(alone(alloc, node)?);
    let node = Node::Ticks(3, boxed(alloc, node)?);
    let node = Node::Par(1, alone(alloc, node)?);
    let node = Node::Not(boxed(alloc, node)?);
    let node = Node::Fallback(alone(alloc, node)?);
    pair(alloc, node, Node::Take)
}

const OF_EVERY_KIND: &str =
    "Seq([Fallback([Not(Par(1, [Ticks(3, FallbackStar([Tries(2, SeqStar([Wait(7), \
    Move(Place { digit: 4 }), Take, Drop, At(Place { digit: 4 }), Carrying, Item, \
    Signal(Signal { letter: 25 }), Near(16), Give(Letter { number: 25 })]))]))]))]), Take])";

fn copied_of_every_kind(alloc: Global) -> Option<(u64, u64)> {
    let tree = Tree::new(of_every_kind(alloc)?).ok()?;
    copied(alloc, alloc, &tree, OF_EVERY_KIND)
}

#[test]
fn a_copy_has_every_kind_of_node(rt: HostRuntime) {
    assert!(rt; copied_of_every_kind(rt.alloc()) == Some((19, 9)));
}

// The size and the depth of a tree with this root.
fn measures(root: Option<Node<Global>>) -> Option<(u64, u64)> {
    let tree = Tree::new(root?).ok()?;
    Some((tree.size(), tree.depth()))
}

// Whether a list of three nodes is copied.
fn is_copied(alloc: Global) -> Option<bool> {
    let three = seq_of(alloc, 3)?;
    let copy = three.copy_in(&alloc).ok()?;
    prints(alloc, &copy, "Seq([Carrying, Carrying, Carrying])")
}

#[test]
fn sizes_and_depths_of_nodes(rt: HostRuntime) {
    assert!(rt; measures(seq_of(rt.alloc(), 3)) == Some((4, 2)));
    assert!(rt; measures(nested(rt.alloc(), 4)) == Some((5, 5)));
    assert!(rt; is_copied(rt.alloc()) == Some(true));
}

fn are_same(one: Option<Node<Global>>, other: Option<Node<Global>>) -> Option<bool> {
    match (&one, &other) {
        (Some(one), Some(other)) => Some(one.is_same(other)),
        _ => None,
    }
}

// Whether a node is a `seq` of a wait and a take.
fn is_wait_and_take(alloc: Global, node: Option<Node<Global>>) -> Option<bool> {
    are_same(pair(alloc, Node::Wait(1), Node::Take), node)
}

#[test]
fn trees_differ_in_kind_number_and_order(rt: HostRuntime) {
    let alloc = rt.alloc();
    assert!(rt; is_wait_and_take(alloc, pair(alloc, Node::Wait(1), Node::Take)) == Some(true));
    assert!(rt; is_wait_and_take(alloc, pair(alloc, Node::Take, Node::Wait(1))) == Some(false));
    assert!(rt; is_wait_and_take(alloc, pair(alloc, Node::Wait(2), Node::Take)) == Some(false));
    assert!(rt; is_wait_and_take(alloc, pair(alloc, Node::Wait(1), Node::Drop)) == Some(false));
    assert!(rt; is_wait_and_take(alloc, seq_of(alloc, 1)) == Some(false));
    assert!(rt; are_same(nested(alloc, 2), nested(alloc, 3)) == Some(false));
}

// Whether the subtrees of a tree, in preorder, have these sizes.
fn has_sizes<A: Allocator>(tree: &Tree<A>, sizes: &[u64]) -> bool {
    for node in 0..tree.size() {
        if sizes.get(node as usize) != Some(&tree.size_at(node)) {
            return false;
        }
    }
    sizes.len() as u64 == tree.size()
}

// Whether a tree and its copy have subtrees of these sizes.
fn both_have_sizes(alloc: Global, sizes: &[u64]) -> Option<[bool; 2]> {
    let par = Node::Par(1, list(alloc, 2)?);
    let tree = Tree::new(pair(alloc, nested(alloc, 2)?, par)?).ok()?;
    let copy = tree.copy_in(alloc).ok()?;
    Some([has_sizes(&tree, sizes), has_sizes(&copy, sizes)])
}

#[test]
fn subtrees_have_their_sizes_in_preorder(rt: HostRuntime) {
    let sizes = [7, 3, 2, 1, 3, 1, 1];
    assert!(rt; both_have_sizes(rt.alloc(), &sizes) == Some([true, true]));
}
