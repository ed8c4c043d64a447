//! Chains of terms.
ghost use Rattle.std.specs.Prelude.{◌≡◌, ◌+◌, ◌≤◌, ◌++◌, ◌∷◌, [], length, IsOk, OnOk, OnErr, MatchOption};
ghost use Rattle.word_field.specs.Field.{IsValue};
ghost use Rattle.monomial_order.specs.Monomial.{IsMonomial};
ghost use Rattle.polynomials.specs.Polynomial.{Polynomial, term_of, scaled, Same, AllAt, IsSmall, IsCanonical};

use crate::cursor_list::CursorList;
use crate::merging::merge_scaled;
use monomial_order::{Memory, Monomial, Order, Term};
use std::alloc::Global;
use std::marker::Model;
use word_field::Field;

/// A list of terms, decreasing in the order at hand, with spare nodes for more.
#[derive(Drop)]
pub struct TermChain<F: Field> {
    list: CursorList<Term<F::Elem>>,
    alloc: Global,
}

impl<F: Field> Model for TermChain<F> {
    ghost use Rattle.std.specs.Prelude.{◌≡◌, []};
    ghost use Rattle.linked_terms.specs.Chain.{Chain};

    ghost Value = { Chain F.Elem };

    ghost view = { λ c. record { terms = c.list.after; spare = c.list.spare } };

    ghost invariant = { λ c. c.list.before ≡ [] };
}

impl<F: Field> TermChain<F> {
    /// The empty chain. It takes no memory.
    pub fn new(alloc: Global) -> TermChain<F>
        ensures empty { result.terms ≡ [] }
        ensures spare { result.spare ≡ 0 }
    {
        TermChain {
            list: CursorList::new(alloc),
            alloc,
        }
    }

    /// How many terms there are.
    pub fn len(&self) -> usize
        ensures { result ≡ length self.now.terms }
    {
        self.list.len()
    }

    /// How many more terms there is memory for.
    pub fn spare(&self) -> usize
        ensures { result ≡ self.now.spare }
    {
        self.list.spare()
    }

    /// Makes room for n more terms.
    pub fn reserve(&mut self, n: usize) -> Result<(), Memory>
        ensures terms { self.new.terms ≡ self.old.terms }
        ensures enough { OnOk result (n ≤ self.new.spare) }
        ensures room { n ≤ self.old.spare → IsOk result }
        ensures unchanged { n ≤ self.old.spare → self.new ≡ self.old }
        ensures refused { OnErr result (self.new ≡ self.old) }
    {
        self.list.reserve(n)
    }

    /// Adds c times m times the terms, in one walk. The terms before the first that changes stay where they are.
    pub fn add_scaled<O: Order>(
        &mut self,
        f: &F,
        o: &O,
        terms: &[Term<F::Elem>],
        c: F::Elem,
        m: &Monomial,
    ) -> Result<(), Memory>
        requires list { IsCanonical (F.ops f.now) (O.order o.now) self.old.terms }
        requires terms { IsCanonical (F.ops f.now) (O.order o.now) terms.now }
        requires factor { IsValue (F.ops f.now) c }
        requires monomial { IsMonomial (O.order o.now).places m.now }
        requires small { IsSmall (O.order o.now) (scaled (F.ops f.now) (term_of m.now c) terms.now) }
        requires short { length m.now ≤ 32 }
        requires short_terms { AllAt (λ k. length k ≤ 32) terms.now }
        ensures canonical { OnOk result (IsCanonical (F.ops f.now) (O.order o.now) self.new.terms) }
        ensures sum { OnOk result (Same (F.ops f.now) self.new.terms
            (self.old.terms ++ scaled (F.ops f.now) (term_of m.now c) terms.now)) }
        ensures room { length terms.now ≤ self.old.spare → IsOk result }
        ensures count { length terms.now ≤ self.old.spare →
            length self.new.terms + self.new.spare ≡ length self.old.terms + self.old.spare }
        ensures refused { OnErr result (self.new ≡ self.old) }
    {
        if c == f.zero() {
            return Ok(());
        }
        self.list.reserve(terms.len())?;
        merge_scaled(&mut self.list, self.alloc, f, o, terms, c, m);
        Ok(())
    }

    /// Takes the first term out. Its node becomes spare.
    pub fn pop_lead(&mut self) -> Option<Term<F::Elem>>
        ensures { MatchOption result ((self.old.terms ≡ []) × (self.new ≡ self.old)) (λ t. (rest : Polynomial F.Elem) ×
            (self.old.terms ≡ t ∷ rest) × (self.new ≡ record { terms = rest; spare = self.old.spare + 1 })) }
    {
        self.list.remove()
    }

    /// Takes all terms out. Their nodes become spare.
    pub fn clear(&mut self)
        ensures empty { self.new.terms ≡ [] }
        ensures count { self.new.spare ≡ length self.old.terms + self.old.spare }
    {
        while let Some(_removed) = self.list.remove() {}
    }
}
