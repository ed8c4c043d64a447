//! Doubly linked lists by index over one vector of nodes.
ghost use Rattle.std.specs.Prelude.{◌≡◌, ◌<◌, ◌++◌, [], ◌∷◌, length, remove, slice_index, IsSome, IsNone};
ghost use Rattle.degree_queue.specs.Links.{no_ends, path_of, item_at, IsList, IsApart, HasNode, CanMove, Joins, ChangesLinks, SetsItem, Moves};

/// A node of a list. An end's link outwards means nothing.
#[derive(Drop)]
pub struct Node<T> {
    pub item: Option<T>,
    pub prev: usize,
    pub next: usize,
}

/// The indexes of the first and the last node of a list, and its length. The ends of an empty list mean nothing.
#[derive(Clone, Copy)]
pub struct Ends {
    pub first: usize,
    pub last: usize,
    pub len: usize,
}

impl Ends {
    /// The ends of an empty list.
    pub fn empty() -> Ends
        ensures { result ≡ no_ends }
    {
        Ends {
            first: 0,
            last: 0,
            len: 0,
        }
    }
}

/// Makes b the node after a.
fn join<T>(nodes: &mut [Node<T>], a: usize, b: usize)
    requires a { a < length nodes.old }
    requires b { b < length nodes.old }
    ensures { Joins nodes.old nodes.new a b }
{
    nodes[a].next = b;
    nodes[b].prev = a;
}

/// Takes the node at index `at`, which is number k on its list, off the list.
fn unlink<T>(nodes: &mut [Node<T>], ends: &mut Ends, k: usize, at: usize)
    requires node { HasNode nodes.old ends.old k }
    requires at { at ≡ slice_index (path_of nodes.old ends.old) k }
    requires within { at < length nodes.old }
    ensures list { IsList nodes.new ends.new (remove (path_of nodes.old ends.old) k) }
    ensures others { ChangesLinks (path_of nodes.old ends.old) nodes.old nodes.new }
{
    let &Node { prev, next, .. } = &nodes[at];
    ends.len -= 1;
    if k == 0 {
        ends.first = next;
    } else if k == ends.len {
        ends.last = prev;
    } else {
        join(nodes, prev, next);
    }
}

/// Puts the node at index `at`, which is on no list, behind the last node of the list.
fn link_last<T>(nodes: &mut [Node<T>], ends: &mut Ends, at: usize)
    requires list { IsList nodes.old ends.old (path_of nodes.old ends.old) }
    requires apart { IsApart (length nodes.old) (path_of nodes.old ends.old ++ at ∷ []) }
    ensures list { IsList nodes.new ends.new (path_of nodes.old ends.old ++ at ∷ []) }
    ensures others { ChangesLinks (path_of nodes.old ends.old ++ at ∷ []) nodes.old nodes.new }
{
    let last = ends.last;
    ends.last = at;
    ends.len += 1;
    if ends.len == 1 {
        ends.first = at;
    } else {
        join(nodes, last, at);
    }
}

/// Moves the node at index `at`, which is number k of one list, behind the last node of another.
fn move_last<T>(nodes: &mut [Node<T>], from: &mut Ends, k: usize, to: &mut Ends, at: usize)
    requires { CanMove nodes.old from.old to.old k at }
    ensures from { IsList nodes.new from.new (remove (path_of nodes.old from.old) k) }
    ensures to { IsList nodes.new to.new (path_of nodes.old to.old ++ at ∷ []) }
    ensures others { ChangesLinks (path_of nodes.old from.old ++ path_of nodes.old to.old) nodes.old nodes.new }
{
    unlink(nodes, from, k, at);
    link_last(nodes, to, at);
}

/// The index of node number k, by the links forwards.
fn index_from_first<T>(nodes: &[Node<T>], ends: Ends, k: usize) -> usize
    requires { HasNode nodes.now ends k }
    ensures at { result ≡ slice_index (path_of nodes.now ends) k }
    ensures within { result < length nodes.now }
{
    let mut at = ends.first;
    'steps: for _step in 0..k {
        at = nodes[at].next;
    }
    at
}

/// The index of node number k, by the links backwards.
fn index_from_last<T>(nodes: &[Node<T>], ends: Ends, k: usize) -> usize
    requires { HasNode nodes.now ends k }
    ensures at { result ≡ slice_index (path_of nodes.now ends) k }
    ensures within { result < length nodes.now }
{
    let mut at = ends.last;
    'steps: for _step in k + 1..ends.len {
        at = nodes[at].prev;
    }
    at
}

/// The index of node number k, from the nearer end.
pub fn index_at<T>(nodes: &[Node<T>], ends: Ends, k: usize) -> usize
    requires { HasNode nodes.now ends k }
    ensures at { result ≡ slice_index (path_of nodes.now ends) k }
    ensures within { result < length nodes.now }
{
    if k < ends.len / 2 {
        index_from_first(nodes, ends, k)
    } else {
        index_from_last(nodes, ends, k)
    }
}

/// Puts an item into a node that has none.
fn put_item<T>(nodes: &mut [Node<T>], at: usize, item: T)
    requires within { at < length nodes.old }
    requires empty { IsNone (item_at nodes.old at) }
    ensures { SetsItem at (Some item) nodes.old nodes.new }
{
    match nodes[at].item.replace(item) {
        None => {}
        Some(_) => unreachable!(),
    }
}

/// Takes the item out of a node that has one.
fn take_item<T>(nodes: &mut [Node<T>], at: usize) -> T
    requires within { at < length nodes.old }
    requires full { IsSome (item_at nodes.old at) }
    ensures item { item_at nodes.old at ≡ Some result }
    ensures others { SetsItem at None nodes.old nodes.new }
{
    match nodes[at].item.take() {
        Some(item) => item,
        None => unreachable!(),
    }
}

/// Moves a node without item from one list behind the last node of another, and puts an item into it.
pub fn move_and_put<T>(
    nodes: &mut [Node<T>],
    from: &mut Ends,
    k: usize,
    to: &mut Ends,
    at: usize,
    item: T,
)
    requires can { CanMove nodes.old from.old to.old k at }
    requires empty { IsNone (item_at nodes.old at) }
    ensures { Moves (path_of nodes.old from.old) (path_of nodes.old to.old) k at (Some item)
        nodes.old nodes.new from.new to.new }
{
    move_last(nodes, from, k, to, at);
    put_item(nodes, at, item);
}

/// Moves a node from one list behind the last node of another, and takes its item.
pub fn move_and_take<T>(
    nodes: &mut [Node<T>],
    from: &mut Ends,
    k: usize,
    to: &mut Ends,
    at: usize,
) -> T
    requires can { CanMove nodes.old from.old to.old k at }
    requires full { IsSome (item_at nodes.old at) }
    ensures item { item_at nodes.old at ≡ Some result }
    ensures moves { Moves (path_of nodes.old from.old) (path_of nodes.old to.old) k at None
        nodes.old nodes.new from.new to.new }
{
    move_last(nodes, from, k, to, at);
    take_item(nodes, at)
}
