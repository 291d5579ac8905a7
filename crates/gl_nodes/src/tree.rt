// The tree, and what is read of it.
ghost use Rattle.std.specs.Prelude.{◌≡◌, ◌+◌, ◌<◌, ◌^◌, ◌↔◌, Some, None, IfOk, OnErr, IsSome, IsTrue, [], option_map};
ghost use Rattle.std.specs.Str.{chars};
ghost use Rattle.gl_nodes.specs.Forest as f;
ghost use Rattle.gl_nodes.specs.Node as n;
ghost use Rattle.gl_nodes.specs.Tree.{node_at, first_in, IsIn, IsSound, Makes};
ghost use Rattle.gl_nodes.specs.View.{seen_node, AddsEntry};
ghost use Rattle.gl_nodes.specs.Flat.{IsFlat, MakesFlat, IsNextOf, children, node_by, stamp_of, head_of, IsRead, walked, order};
ghost use Rattle.gl_arena.specs.Arena.{IsOwn};

use crate::links::{Entries, Entry, first_at, links_below, next_at, next_below, packed};
use crate::{Attrs, Node, NodeId};
use gl_arena::Arena;
use gl_value::Text;
use std::alloc::{AllocError, Global};
use std::marker::Model;

/// A tree of nodes. Contracts see the forest of its ids, the nodes of the ids in it and of the made ones that are not
/// in it yet, and how many nodes were made, how many ranges moved and how many nodes put in.
#[derive(Drop)]
pub struct NodeTree {
    pub(crate) alloc: Global,
    pub(crate) entries: Entries,
    // An entry without a node that is never given out. The trees of the forest are its children.
    pub(crate) root: NodeId,
    made: u128,
    pub(crate) moves: u128,
    pub(crate) inserts: u128,
}

impl Model for NodeTree {
    ghost use Rattle.gl_nodes.specs.Tree.{Tree, tree_code};
    ghost use Rattle.gl_nodes.specs.Links.{forest_in};
    ghost use Rattle.gl_nodes.specs.View.{links_of, nodes_of, IsTree};

    ghost Value = { Tree };

    ghost coded = { tree_code };

    ghost view = { λ t. record {
      forest = forest_in (links_of t.entries) t.root t.inserts;
      nodes = nodes_of t.entries;
      made = t.made;
      moves = t.moves;
      inserts = t.inserts;
    } };

    ghost invariant = { λ t. IsTree t.entries t.root t.inserts (forest_in (links_of t.entries) t.root t.inserts) };
}

impl NodeTree {
    /// The tree without nodes.
    pub fn new(alloc: Global) -> Result<NodeTree, AllocError>
        ensures forest { IfOk result (λ t. t.forest ≡ f.end) }
        ensures nodes { IfOk result (λ t. (i : _) → node_at t i ≡ None) }
        ensures made { IfOk result (λ t. t.made ≡ 0) }
        ensures moves { IfOk result (λ t. t.moves ≡ 0) }
        ensures inserts { IfOk result (λ t. t.inserts ≡ 0) }
        ensures stamps { IfOk result (λ t. t.nodes.made ≡ 1) }
    {
        let mut entries = Arena::new(alloc)?;
        let root = add(&mut entries, None)?;
        Ok(NodeTree {
            alloc,
            entries,
            root,
            made: 0,
            moves: 0,
            inserts: 0,
        })
    }

    /// Makes an element without attributes, which is not in the tree yet.
    pub fn element(&mut self, tag: &str) -> Result<NodeId, AllocError>
        ensures ok { IfOk result (λ i. Makes self.old self.new i (n.element (chars tag.now) [])) }
        ensures flat { IfOk result (λ i. MakesFlat self.old self.new i (n.element (chars tag.now) [])) }
        ensures sound { IsFlat self.new }
        ensures err { OnErr result (self.new ≡ self.old) }
    {
        self.flat();
        let tag = Text::from_str(self.alloc, tag)?;
        let attrs = Attrs::new(self.alloc);
        self.make(Node::Element { tag, attrs })
    }

    /// Makes an element with these attributes, which is not in the tree yet.
    pub fn element_with(&mut self, tag: Text, attrs: Attrs) -> Result<NodeId, AllocError>
        ensures ok { IfOk result (λ i. Makes self.old self.new i (n.element tag attrs)) }
        ensures flat { IfOk result (λ i. MakesFlat self.old self.new i (n.element tag attrs)) }
        ensures sound { IsFlat self.new }
        ensures err { OnErr result (self.new ≡ self.old) }
    {
        self.flat();
        self.make(Node::Element { tag, attrs })
    }

    /// Makes a text, which is not in the tree yet.
    pub fn text(&mut self, text: &str) -> Result<NodeId, AllocError>
        ensures ok { IfOk result (λ i. Makes self.old self.new i (n.text (chars text.now))) }
        ensures flat { IfOk result (λ i. MakesFlat self.old self.new i (n.text (chars text.now))) }
        ensures sound { IsFlat self.new }
        ensures err { OnErr result (self.new ≡ self.old) }
    {
        self.flat();
        let text = Text::from_str(self.alloc, text)?;
        self.make(Node::Text(text))
    }

    /// Makes a comment, which is not in the tree yet.
    pub fn comment(&mut self, text: &str) -> Result<NodeId, AllocError>
        ensures ok { IfOk result (λ i. Makes self.old self.new i (n.comment (chars text.now))) }
        ensures flat { IfOk result (λ i. MakesFlat self.old self.new i (n.comment (chars text.now))) }
        ensures sound { IsFlat self.new }
        ensures err { OnErr result (self.new ≡ self.old) }
    {
        self.flat();
        let text = Text::from_str(self.alloc, text)?;
        self.make(Node::Comment(text))
    }

    // Makes a node that is not in the tree yet.
    fn make(&mut self, node: Node) -> Result<NodeId, AllocError>
        ensures ok { IfOk result (λ i. Makes self.old self.new i (seen_node node)) }
        ensures flat { IfOk result (λ i. MakesFlat self.old self.new i (seen_node node)) }
        ensures sound { IsFlat self.new }
        ensures err { OnErr result (self.new ≡ self.old) }
    {
        self.flat();
        let made = self.make_entry(node);
        self.flat();
        made
    }

    // The same, without what it does by stamps.
    fn make_entry(&mut self, node: Node) -> Result<NodeId, AllocError>
        ensures ok { IfOk result (λ i. Makes self.old self.new i (seen_node node)) }
        ensures err { OnErr result (self.new ≡ self.old) }
    {
        let made = match self.made.checked_add(1) {
            Some(made) => made,
            None => return Err(AllocError),
        };
        let id = add(&mut self.entries, Some(node))?;
        self.made = made;
        Ok(id)
    }

    /// The node of an id that is in the tree, or made and not in it yet.
    pub fn get(&self, node: NodeId) -> &Node
        requires { IsSome (node_at self.now node) }
        ensures { node_at self.now node ≡ Some (seen_node result.now) }
    {
        match &self.entries.get(node).node {
            Some(node) => node,
            None => unreachable!(),
        }
    }

    /// The node of an id that is in the tree, or made and not in it yet, and else none. For an id that this tree
    /// gave it is the node of the id's stamp.
    pub fn find(&self, node: NodeId) -> Option<&Node>
        ensures id { option_map (λ v. seen_node v.now) result ≡ node_at self.now node }
        ensures stamp { IsOwn self.now.nodes node → option_map (λ v. seen_node v.now) result ≡ node_by self.now node.1 }
    {
        match self.entries.find(node) {
            Some(entry) => entry.node.as_ref(),
            None => None,
        }
    }

    /// The first child of a node of the tree, or the first node of the forest.
    pub fn first(&self, parent: Option<NodeId>) -> Option<NodeId>
        requires { IsSome (f.below parent self.now.forest) }
        ensures child { result ≡ first_in (f.below parent self.now.forest) }
        ensures flat { stamp_of result ≡ head_of (children self.now (stamp_of parent)) }
        ensures sound { IsSound self.now }
    {
        self.flat();
        first_at(&self.entries, parent.unwrap_or(self.root))
    }

    /// The next sibling of a node of the tree.
    pub fn next(&self, node: NodeId) -> Option<NodeId>
        requires { IsIn node self.now }
        ensures sibling { result ≡ first_in (f.after_node node self.now.forest) }
        ensures flat { IsNextOf self.now node.1 (stamp_of result) }
        ensures sound { IsSound self.now }
    {
        self.flat();
        next_at(&self.entries, node)
    }

    /// The next sibling of a node where it stands in the tree, and else none.
    pub fn after(&self, node: NodeId) -> Option<NodeId>
        ensures { result ≡ first_in (f.after_node node self.now.forest) }
    {
        next_below(&self.entries, node)
    }

    /// How many nodes were put into the tree's store before a node.
    pub fn stamp(&self, node: NodeId) -> u128
        requires { IsSome (node_at self.now node) }
        ensures { result ≡ node.1 }
    {
        self.entries.stamp(node)
    }

    /// The law that each id and each stamp stands once in the forest and names a node, and that no two live ids have
    /// one stamp.
    pub fn flat(&self)
        ensures { IsFlat self.now }
    {
        self.sound();
        self.entries.stamps();
    }

    /// The law that the recursion over children gives the forest, in document order.
    pub fn in_order(&self)
        ensures read { IsRead (λ s. children self.now (Some s)) self.now.forest }
        ensures order { walked (λ s. children self.now (Some s)) (f.size self.now.forest) (children self.now None) ≡ order self.now.forest }
    {
        self.flat();
    }

    // The law that each id stands once and names a node.
    fn sound(&self)
        ensures { IsSound self.now }
    {
        let _ = &self.root;
    }

    /// How many nodes were made.
    pub fn made(&self) -> u128
        ensures { result ≡ self.now.made }
    {
        self.made
    }

    /// The number of the next node.
    pub fn upcoming(&self) -> u128
        ensures { result ≡ self.now.nodes.made }
    {
        self.entries.made()
    }

    /// How many times a range was moved.
    pub fn moves(&self) -> u128
        ensures { result ≡ self.now.moves }
    {
        self.moves
    }

    /// Whether each of the counts can rise by one.
    pub fn room(&self) -> bool
        ensures { IsTrue result ↔ ((self.now.made + 1 < 2 ^ 128) × (self.now.moves + 1 < 2 ^ 128) × (self.now.inserts + 1 < 2 ^ 128)) }
    {
        self.made < u128::MAX && self.moves < u128::MAX && self.inserts < u128::MAX
    }
}

// Puts an entry with no links in.
fn add(entries: &mut Entries, node: Option<Node>) -> Result<NodeId, AllocError>
    ensures ok { IfOk result (λ i. AddsEntry entries.old entries.new i (option_map seen_node node)) }
    ensures err { OnErr result (entries.new ≡ entries.old) }
{
    let entry = Entry {
        node,
        links: packed(&links_below(None)),
    };
    match entries.insert(entry) {
        Ok(id) => Ok(id),
        Err((_, error)) => Err(error),
    }
}
