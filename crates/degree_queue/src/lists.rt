//! One doubly linked list for each degree and a list of free nodes, over one vector of nodes.
ghost use Rattle.std.specs.Prelude.{◌≡◌, ◌+◌, ◌<◌, ◌^◌, ◌++◌, [], ◌∷◌, length, remove, slice_get, OnOk, OnErr};
ghost use Rattle.degree_queue.specs.DegreeQueue.{list_of, SameElsewhere, SameLists};
ghost use Rattle.degree_queue.specs.Lists.{lists_of, IsSound, HasRoom};

use crate::links::{Ends, Node, index_at, move_and_put, move_and_take};
use std::alloc::{AllocError, Global};

/// The nodes, the ends of the list of each degree, and those of the list of free nodes.
#[derive(Drop)]
pub struct Lists<T> {
    pub nodes: Vec<Node<T>>,
    pub heads: Vec<Ends>,
    pub free: Ends,
}

impl<T> Lists<T> {
    pub fn new(alloc: Global) -> Self
        ensures sound { IsSound result }
        ensures empty { lists_of result ≡ [] }
    {
        Lists {
            nodes: Vec::new(alloc),
            heads: Vec::new(alloc),
            free: Ends::empty(),
        }
    }

    pub fn len(&self, degree: usize) -> usize
        requires { IsSound self.now }
        ensures { result ≡ length (list_of (lists_of self.now) degree) }
    {
        match self.heads.get(degree) {
            Some(ends) => ends.len,
            None => 0,
        }
    }

    pub fn get(&self, degree: usize, k: usize) -> &T
        requires sound { IsSound self.now }
        requires inside { k < length (list_of (lists_of self.now) degree) }
        ensures { slice_get (list_of (lists_of self.now) degree) k ≡ Some result.now }
    {
        let at = index_at(self.nodes.as_slice(), self.heads[degree], k);
        match &self.nodes[at].item {
            Some(item) => item,
            None => unreachable!(),
        }
    }

    /// Makes sure of a free node.
    fn reserve_node(&mut self) -> Result<(), AllocError>
        requires { IsSound self.old }
        ensures sound { IsSound self.new }
        ensures same { lists_of self.new ≡ lists_of self.old }
        ensures ok { OnOk result (0 < self.new.free.len) }
    {
        if self.free.len > 0 {
            return Ok(());
        }
        let at = self.nodes.len();
        self.nodes.reserve(1)?;
        self.nodes.push_reserved(Node {
            item: None,
            prev: 0,
            next: 0,
        });
        self.free = Ends {
            first: at,
            last: at,
            len: 1,
        };
        Ok(())
    }

    /// Makes sure of the ends of a degree.
    fn reserve_degree(&mut self, degree: usize) -> Result<(), AllocError>
        requires sound { IsSound self.old }
        requires degree { degree + 1 < 2 ^ 64 }
        ensures sound { IsSound self.new }
        ensures same { SameLists (lists_of self.old) (lists_of self.new) }
        ensures free { self.new.free ≡ self.old.free }
        ensures ok { OnOk result (degree < length self.new.heads.items) }
        ensures err { OnErr result (lists_of self.new ≡ lists_of self.old) }
    {
        if self.heads.len() <= degree {
            self.heads.resize(degree + 1, Ends::empty())?;
        }
        Ok(())
    }

    /// Makes room for one more item of a degree.
    pub fn reserve(&mut self, degree: usize) -> Result<(), AllocError>
        requires sound { IsSound self.old }
        requires degree { degree + 1 < 2 ^ 64 }
        ensures sound { IsSound self.new }
        ensures same { SameLists (lists_of self.old) (lists_of self.new) }
        ensures ok { OnOk result (HasRoom degree self.new) }
        ensures err { OnErr result (lists_of self.new ≡ lists_of self.old) }
    {
        self.reserve_node()?;
        self.reserve_degree(degree)
    }

    /// Puts an item behind the last of its degree.
    pub fn put(&mut self, degree: usize, item: T)
        requires sound { IsSound self.old }
        requires room { HasRoom degree self.old }
        ensures sound { IsSound self.new }
        ensures last { list_of (lists_of self.new) degree ≡ list_of (lists_of self.old) degree ++ item ∷ [] }
        ensures others { SameElsewhere degree (lists_of self.old) (lists_of self.new) }
    {
        let mut ends = self.heads[degree];
        let k = self.free.len - 1;
        let at = self.free.last;
        move_and_put(
            self.nodes.as_mut_slice(),
            &mut self.free,
            k,
            &mut ends,
            at,
            item,
        );
        self.heads[degree] = ends;
    }

    /// Takes out the item at index k of a degree.
    pub fn take(&mut self, degree: usize, k: usize) -> T
        requires sound { IsSound self.old }
        requires inside { k < length (list_of (lists_of self.old) degree) }
        ensures sound { IsSound self.new }
        ensures item { slice_get (list_of (lists_of self.old) degree) k ≡ Some result }
        ensures rest { list_of (lists_of self.new) degree ≡ remove (list_of (lists_of self.old) degree) k }
        ensures others { SameElsewhere degree (lists_of self.old) (lists_of self.new) }
    {
        let mut ends = self.heads[degree];
        let at = index_at(self.nodes.as_slice(), ends, k);
        let item = move_and_take(self.nodes.as_mut_slice(), &mut ends, k, &mut self.free, at);
        self.heads[degree] = ends;
        item
    }
}
