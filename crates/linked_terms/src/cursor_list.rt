//! A list with a cursor, whose nodes are linked by index.
ghost use Rattle.std.specs.Prelude.{◌≡◌, ◌≢◌, ◌+◌, ◌-◌, ◌<◌, ◌≤◌, List, [], ◌∷◌, ◌++◌, length, IsOk, MatchOption, OnOk, OnErr};

use monomial_order::Memory;
use std::alloc::Global;
use std::marker::Model;
use std::mem;

/// A node of the list has an item and the index of the next node. A spare node has no item.
#[derive(Drop)]
struct Node<T> {
    item: Option<T>,
    next: usize,
}

/// A list with a cursor between two of its items, and spare nodes.
///
/// The nodes of the list are linked from its first node on, and the spare ones from the first spare one on. The
/// counts say where the links end: the index in the last node of either is not used.
#[derive(Drop)]
pub(crate) struct CursorList<T> {
    nodes: Vec<Node<T>>,
    /// The first node of the list.
    head: usize,
    /// The last node before the cursor.
    left: usize,
    /// The first node after the cursor.
    right: usize,
    /// The first spare node.
    free: usize,
    before: usize,
    after: usize,
    spare: usize,
}

impl<T> Model for CursorList<T> {
    ghost use Rattle.linked_terms.specs.Cursor.{Cursor};

    ghost Value = { Cursor T };

    ghost use Rattle.linked_terms.specs.Links.{items, IsSound};

    ghost view = { λ l. record {
      before = items l.nodes.items l.before l.head;
      after = items l.nodes.items l.after l.right;
      spare = l.spare;
    } };

    ghost invariant = { λ l. IsSound l.nodes.items l.head l.left l.right l.free l.before l.after l.spare };
}

impl<T: Drop> CursorList<T> {
    /// The empty list without a spare node. It takes no memory.
    pub(crate) fn new(alloc: Global) -> CursorList<T>
        ensures before { result.before ≡ [] }
        ensures after { result.after ≡ [] }
        ensures spare { result.spare ≡ 0 }
    {
        CursorList {
            nodes: Vec::new(alloc),
            head: 0,
            left: 0,
            right: 0,
            free: 0,
            before: 0,
            after: 0,
            spare: 0,
        }
    }

    pub(crate) fn len(&self) -> usize
        ensures { result ≡ length self.now.before + length self.now.after }
    {
        self.before + self.after
    }

    pub(crate) fn spare(&self) -> usize
        ensures { result ≡ self.now.spare }
    {
        self.spare
    }

    /// The item after the cursor.
    pub(crate) fn peek(&self) -> Option<&T>
        ensures { MatchOption result (self.now.after ≡ []) (λ x. (rest : List T) × (self.now.after ≡ x.now ∷ rest)) }
    {
        if self.after == 0 {
            return None;
        }
        self.nodes[self.right].item.as_ref()
    }

    /// Moves the cursor behind the next item.
    pub(crate) fn advance(&mut self)
        requires { self.old.after ≢ [] }
        ensures { (x : T) (rest : List T) → self.old.after ≡ x ∷ rest →
            self.new ≡ record { before = self.old.before ++ x ∷ []; after = rest; spare = self.old.spare } }
    {
        self.left = self.right;
        self.right = self.nodes[self.left].next;
        self.before += 1;
        self.after -= 1;
    }

    /// Moves the cursor before the first item.
    pub(crate) fn rewind(&mut self)
        ensures { self.new ≡ record { before = []; after = self.old.before ++ self.old.after; spare = self.old.spare } }
    {
        self.right = self.head;
        self.after += self.before;
        self.before = 0;
    }

    /// Puts an item before the cursor.
    pub(crate) fn insert(&mut self, item: T)
        requires { 0 < self.old.spare }
        ensures { self.new ≡
            record { before = self.old.before ++ item ∷ []; after = self.old.after; spare = self.old.spare - 1 } }
    {
        let at = self.free;
        let filled = Node {
            item: Some(item),
            next: self.right,
        };
        let vacant = mem::replace(&mut self.nodes[at], filled);
        self.free = vacant.next;
        if self.before == 0 {
            self.head = at;
        } else {
            let node = &mut self.nodes[self.left];
            node.next = at;
        }
        self.left = at;
        self.before += 1;
        self.spare -= 1;
    }

    /// Takes the item after the cursor out of the list. Its node becomes spare.
    pub(crate) fn remove(&mut self) -> Option<T>
        ensures { MatchOption result ((self.old.after ≡ []) × (self.new ≡ self.old)) (λ x. (rest : List T) ×
            (self.old.after ≡ x ∷ rest) ×
            (self.new ≡ record { before = self.old.before; after = rest; spare = self.old.spare + 1 })) }
    {
        if self.after == 0 {
            return None;
        }
        let at = self.right;
        let vacant = Node {
            item: None,
            next: self.free,
        };
        let taken = mem::replace(&mut self.nodes[at], vacant);
        self.right = taken.next;
        if self.before == 0 {
            self.head = taken.next;
        } else {
            let node = &mut self.nodes[self.left];
            node.next = taken.next;
        }
        self.free = at;
        self.after -= 1;
        self.spare += 1;
        taken.item
    }

    /// Makes n nodes spare, if there are fewer.
    pub(crate) fn reserve(&mut self, n: usize) -> Result<(), Memory>
        ensures before { self.new.before ≡ self.old.before }
        ensures after { self.new.after ≡ self.old.after }
        ensures enough { OnOk result (n ≤ self.new.spare) }
        ensures room { n ≤ self.old.spare → IsOk result }
        ensures unchanged { n ≤ self.old.spare → self.new ≡ self.old }
        ensures refused { OnErr result (self.new ≡ self.old) }
    {
        if n <= self.spare {
            return Ok(());
        }
        self.nodes.reserve(n - self.spare)?;
        while self.spare < n {
            self.nodes.push_reserved(Node {
                item: None,
                next: self.free,
            });
            self.free = self.nodes.len() - 1;
            self.spare += 1;
        }
        Ok(())
    }
}
