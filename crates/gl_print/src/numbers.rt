// The numbers of nodes.
ghost use Rattle.std.specs.Prelude.{◌≡◌, ◌≢◌, ◌↔◌, ◌+◌, [], Some, None, IfOk, OnOk, OnErr, IfSome, IfNone, MatchOption};
ghost use Rattle.gl_arena.specs.Id.{Id};
ghost use Rattle.gl_print.specs.Numbers as n;

use crate::NodePairs;
use gl_nodes::NodeId;
use std::alloc::{AllocError, Global};
use std::collections::BTreeMap;
use std::marker::Model;

/// The numbers that nodes have, and the next one that is given. Contracts see the numbers as pairs.
#[derive(Drop)]
pub struct Numbers {
    /// The next number that is given.
    pub next: u128,
    pairs: BTreeMap<NodeId, u128>,
}

impl Model for Numbers {
    ghost use Rattle.gl_print.specs.Numbers.{Numbers, numbers_code};

    ghost Value = { Numbers };

    ghost coded = { numbers_code };

    ghost view = { λ m. record { of = m.pairs.entries; next = m.next } };
}

impl Numbers {
    /// No node has a number, and the first that is given is 1.
    pub fn new(alloc: Global) -> Numbers
        ensures of { result.of ≡ [] }
        ensures next { result.next ≡ 1 }
        ensures numbering { n.IsNumbering result }
    {
        Numbers {
            next: 1,
            pairs: BTreeMap::new(alloc),
        }
    }

    // The same next number, and no node with a number.
    pub(crate) fn emptied(&self, alloc: Global) -> Numbers
        ensures of { result.of ≡ [] }
        ensures next { result.next ≡ self.now.next }
    {
        Numbers {
            next: self.next,
            pairs: BTreeMap::new(alloc),
        }
    }

    /// The number of a node.
    pub fn number(&self, node: NodeId) -> Option<u128>
        ensures { result ≡ n.at node self.now.of }
    {
        self.pairs.get(&node).copied()
    }

    /// The node of a number: where no two nodes have one number, it is exactly the one that has this. Else it is the
    /// first of them.
    pub fn node(&self, number: u128) -> Option<NodeId>
        ensures first { result ≡ n.node_of number self.now.of }
        ensures number { IfSome result (λ i. n.at i self.now.of ≡ Some number) }
        ensures tied { n.IsNumbering self.now → (i : Id) → (result ≡ Some i) ↔ (n.at i self.now.of ≡ Some number) }
    {
        self.keys_once();
        self.find_node(number)
    }

    // The keys of a map ascend.
    fn keys_once(&self)
        ensures { n.AreKeysOnce self.now.of }
    {
        let _ = self.pairs.iter();
    }

    // The first node that has a number.
    fn find_node(&self, number: u128) -> Option<NodeId>
        ensures { result ≡ n.node_of number self.now.of }
    {
        for (node, given) in self.pairs.iter() {
            if number == *given {
                return Some(*node);
            }
        }
        None
    }

    /// Gives each new node the number of its old one, where that has a number, and leaves all other numbers. Where
    /// memory is wanting, some of the first pairs were carried. The nodes of a tree in which no old node stands keep
    /// numbers of their own.
    pub fn carry(&mut self, pairs: &NodePairs) -> Result<(), AllocError>
        ensures of { OnOk result ((λ i. n.at i self.new.of) ≡ n.carried (λ i. n.at i self.old.of) pairs.now) }
        ensures next { self.new.next ≡ self.old.next }
        ensures err { OnErr result (n.CarriesFront (λ i. n.at i self.old.of) (λ i. n.at i self.new.of) pairs.now) }
        ensures numbering { n.KeepsNumbering self.old self.new pairs.now }
    {
        self.carry_all(pairs)
    }

    // The pairs in turn.
    fn carry_all(&mut self, pairs: &NodePairs) -> Result<(), AllocError>
        ensures of { OnOk result ((λ i. n.at i self.new.of) ≡ n.carried (λ i. n.at i self.old.of) pairs.now) }
        ensures next { self.new.next ≡ self.old.next }
        ensures err { OnErr result (n.CarriesFront (λ i. n.at i self.old.of) (λ i. n.at i self.new.of) pairs.now) }
    {
        for pair in pairs.as_slice() {
            self.carry_one(pair)?;
        }
        Ok(())
    }

    // One pair.
    fn carry_one(&mut self, pair: &(NodeId, NodeId)) -> Result<(), AllocError>
        ensures of { OnOk result ((λ i. n.at i self.new.of) ≡ n.given_on (λ i. n.at i self.old.of) pair.now) }
        ensures next { self.new.next ≡ self.old.next }
        ensures err { OnErr result (self.new ≡ self.old) }
    {
        match self.number(pair.0) {
            Some(number) => self.put(pair.1, number),
            None => Ok(()),
        }
    }

    // Gives a node a number.
    pub(crate) fn put(&mut self, node: NodeId, number: u128) -> Result<(), AllocError>
        ensures put { OnOk result (n.at node self.new.of ≡ Some number) }
        ensures others { OnOk result ((i : Id) → i ≢ node → n.at i self.new.of ≡ n.at i self.old.of) }
        ensures next { self.new.next ≡ self.old.next }
        ensures err { OnErr result (self.new ≡ self.old) }
    {
        self.pairs.insert(node, number)?;
        Ok(())
    }
}
