// What changes the tree.
ghost use Rattle.std.specs.Prelude.{◌≡◌, ◌≢◌, ◌+◌, ◌<◌, ◌^◌, Some, None, OnOk, OnErr, IsSome, option_map, IfSome, unwrap_or};
ghost use Rattle.std.specs.Str.{chars};
ghost use Rattle.gl_arena.specs.Id.{Id};
ghost use Rattle.gl_arena.specs.Arena.{named};
ghost use Rattle.gl_nodes.specs.Forest as f;
ghost use Rattle.gl_nodes.specs.Node as n;
ghost use Rattle.gl_nodes.specs.Tree.{node_at, IsMade, IsPlace, ParentIsElement, CanMove, Moves, CanRemove, Removes, Changes};
ghost use Rattle.gl_nodes.specs.View.{seen_range, seen_node, nodes_of, links_of};
ghost use Rattle.gl_nodes.specs.Links as l;
ghost use Rattle.gl_nodes.specs.Flat.{IsFlat, PutsFlat, MovesRange, RemovesRange, ChangesFlat, stamp_of};
ghost use Rattle.gl_nodes.specs.Freeing.{RemovesRun};

use crate::freeing::free_run;
use crate::links::{Entries, attach, detach, parent_at, set_below, set_next};
use crate::{Node, NodeId, NodeTree, Range};
use gl_value::Text;
use std::alloc::AllocError;

impl NodeTree {
    /// Puts a made node that is not in the tree before a child of a parent, or at the end of its children. With no
    /// parent these are the trees of the forest.
    pub fn insert_before(
        &mut self,
        parent: Option<NodeId>,
        node: NodeId,
        next: Option<NodeId>,
    ) -> Result<(), AllocError>
        requires node { IsMade node self.old }
        requires parent { ParentIsElement self.old parent }
        requires place { IsPlace self.old parent next }
        ensures ok { OnOk result (self.new ≡ record self.old { forest = f.edit parent (f.put_before next (f.leaf node)) self.old.forest; inserts = self.old.inserts + 1 }) }
        ensures flat { OnOk result (PutsFlat self.old self.new (stamp_of parent) (stamp_of next) node.1) }
        ensures sound { IsFlat self.new }
        ensures err { OnErr result (self.new ≡ self.old) }
    {
        self.flat();
        let done = self.put_below(parent, node, next);
        self.flat();
        done
    }

    // The same, without what it does by stamps.
    fn put_below(
        &mut self,
        parent: Option<NodeId>,
        node: NodeId,
        next: Option<NodeId>,
    ) -> Result<(), AllocError>
        requires node { IsMade node self.old }
        requires parent { ParentIsElement self.old parent }
        requires place { IsPlace self.old parent next }
        ensures ok { OnOk result (self.new ≡ record self.old { forest = f.edit parent (f.put_before next (f.leaf node)) self.old.forest; inserts = self.old.inserts + 1 }) }
        ensures err { OnErr result (self.new ≡ self.old) }
    {
        let inserts = match self.inserts.checked_add(1) {
            Some(inserts) => inserts,
            None => return Err(AllocError),
        };
        put(&mut self.entries, parent.unwrap_or(self.root), node, next);
        self.inserts = inserts;
        Ok(())
    }

    /// Moves a run of children of one parent before another child of it, or to the end. It takes no memory.
    pub fn move_range(&mut self, range: Range, next: Option<NodeId>)
        requires room { self.old.moves + 1 < 2 ^ 128 }
        requires range { CanMove self.old.forest (seen_range range) next }
        ensures forest { Moves (seen_range range) next self.old.forest self.new.forest }
        ensures rest { self.new ≡ record self.old { forest = self.new.forest; moves = self.old.moves + 1 } }
        ensures flat { MovesRange (seen_range range) next self.old self.new }
        ensures sound { IsFlat self.new }
    {
        self.flat();
        self.move_nodes(range, next);
        self.flat();
    }

    // The same, without what it does by stamps.
    fn move_nodes(&mut self, range: Range, next: Option<NodeId>)
        requires room { self.old.moves + 1 < 2 ^ 128 }
        requires range { CanMove self.old.forest (seen_range range) next }
        ensures forest { Moves (seen_range range) next self.old.forest self.new.forest }
        ensures rest { self.new ≡ record self.old { forest = self.new.forest; moves = self.old.moves + 1 } }
    {
        match &range {
            Range::Empty => {}
            Range::Nodes { first, last } => {
                move_run(&mut self.entries, self.root, *first, *last, next);
            }
        }
        self.moves += 1;
    }

    /// Takes a run of children of one parent, and all below them, out of the tree, and ends their ids. It takes no
    /// memory.
    pub fn remove_range(&mut self, range: Range)
        requires { CanRemove self.old.forest (seen_range range) }
        ensures removes { Removes (seen_range range) self.old self.new }
        ensures made { self.new.made ≡ self.old.made }
        ensures moves { self.new.moves ≡ self.old.moves }
        ensures inserts { self.new.inserts ≡ self.old.inserts }
        ensures flat { RemovesRange (seen_range range) self.old self.new }
        ensures sound { IsFlat self.new }
    {
        self.flat();
        self.remove_nodes(range);
        self.flat();
    }

    // The same, without what it does by stamps.
    fn remove_nodes(&mut self, range: Range)
        requires { CanRemove self.old.forest (seen_range range) }
        ensures removes { Removes (seen_range range) self.old self.new }
        ensures made { self.new.made ≡ self.old.made }
        ensures moves { self.new.moves ≡ self.old.moves }
        ensures inserts { self.new.inserts ≡ self.old.inserts }
    {
        match &range {
            Range::Empty => {}
            Range::Nodes { first, last } => {
                remove_run(&mut self.entries, self.root, *first, *last);
            }
        }
    }

    /// Gives a text or a comment another text.
    pub fn set_text(&mut self, node: NodeId, text: &str) -> Result<(), AllocError>
        requires { IfSome (node_at self.old node) n.IsTold × IsSome (node_at self.old node) }
        ensures ok { OnOk result (Changes self.old self.new node (option_map (n.retold (chars text.now)) (node_at self.old node))) }
        ensures flat { OnOk result (ChangesFlat self.old self.new node.1 (option_map (n.retold (chars text.now)) (node_at self.old node))) }
        ensures sound { IsFlat self.new }
        ensures err { OnErr result (self.new ≡ self.old) }
    {
        self.flat();
        let done = self.retell(node, text);
        self.flat();
        done
    }

    // The same, without what it does by stamps.
    fn retell(&mut self, node: NodeId, text: &str) -> Result<(), AllocError>
        requires { IfSome (node_at self.old node) n.IsTold × IsSome (node_at self.old node) }
        ensures ok { OnOk result (Changes self.old self.new node (option_map (n.retold (chars text.now)) (node_at self.old node))) }
        ensures err { OnErr result (self.new ≡ self.old) }
    {
        let text = Text::from_str(self.alloc, text)?;
        let told = told_as(self.get(node), text);
        put_node(&mut self.entries, node, told);
        Ok(())
    }

    /// Gives an element's attribute of that name another text, or none, or adds it at the end.
    pub fn set_attr(
        &mut self,
        node: NodeId,
        name: &str,
        value: Option<&str>,
    ) -> Result<(), AllocError>
        requires { IfSome (node_at self.old node) n.IsElement × IsSome (node_at self.old node) }
        ensures ok { OnOk result (Changes self.old self.new node (option_map (n.attributed (chars name.now) (option_map (λ v. chars v.now) value.entry)) (node_at self.old node))) }
        ensures flat { OnOk result (ChangesFlat self.old self.new node.1 (option_map (n.attributed (chars name.now) (option_map (λ v. chars v.now) value.entry)) (node_at self.old node))) }
        ensures sound { IsFlat self.new }
        ensures err { OnErr result (self.new ≡ self.old) }
    {
        self.flat();
        let done = self.put_attr(node, name, value);
        self.flat();
        done
    }

    // The same, without what it does by stamps.
    fn put_attr(&mut self, node: NodeId, name: &str, value: Option<&str>) -> Result<(), AllocError>
        requires { IfSome (node_at self.old node) n.IsElement × IsSome (node_at self.old node) }
        ensures ok { OnOk result (Changes self.old self.new node (option_map (n.attributed (chars name.now) (option_map (λ v. chars v.now) value.entry)) (node_at self.old node))) }
        ensures err { OnErr result (self.new ≡ self.old) }
    {
        attribute(&mut self.entries, node, name, value)
    }
}

// Puts a node below a parent, before the next child or at the end.
fn put(entries: &mut Entries, parent: NodeId, node: NodeId, next: Option<NodeId>)
    ensures links { links_of entries.new ≡ l.attached parent node node next (l.amend (l.only_below (Some parent)) node (links_of entries.old)) }
    ensures nodes { nodes_of entries.new ≡ nodes_of entries.old }
{
    set_below(entries, node, parent);
    attach(entries, parent, node, node, next);
}

// Moves a run of children of one parent.
fn move_run(entries: &mut Entries, root: NodeId, first: NodeId, last: NodeId, next: Option<NodeId>)
    ensures links { let p = unwrap_or (l.parent_of (links_of entries.old first)) root in links_of entries.new ≡ l.attached p first last next (l.detached p first last (links_of entries.old)) }
    ensures nodes { nodes_of entries.new ≡ nodes_of entries.old }
{
    let parent = parent_at(entries, first).unwrap_or(root);
    detach(entries, parent, first, last);
    attach(entries, parent, first, last, next);
}

// Takes a run of children of one parent out, and ends their ids and all below them.
fn remove_run(entries: &mut Entries, root: NodeId, first: NodeId, last: NodeId)
    ensures { RemovesRun entries.old entries.new root first last }
{
    let parent = parent_at(entries, first).unwrap_or(root);
    detach(entries, parent, first, last);
    set_next(entries, last, None);
    free_run(entries, Some(first));
}

// A text or a comment with another text.
fn told_as(node: &Node, text: Text) -> Node
    requires { n.IsTold (seen_node node.now) }
    ensures { seen_node result ≡ n.retold text (seen_node node.now) }
{
    match node {
        Node::Element { .. } => unreachable!(),
        Node::Text(_) => Node::Text(text),
        Node::Comment(_) => Node::Comment(text),
    }
}

// Gives an id another node.
fn put_node(entries: &mut Entries, id: NodeId, node: Node)
    requires { IsSome (named (nodes_of entries.old) id) }
    ensures given { named (nodes_of entries.new) id ≡ Some (seen_node node) }
    ensures others { (other : Id) → other ≢ id → named (nodes_of entries.new) other ≡ named (nodes_of entries.old) other }
    ensures links { links_of entries.new ≡ links_of entries.old }
    ensures stamps { (nodes_of entries.new).made ≡ (nodes_of entries.old).made }
{
    entries.get_mut(id).node = Some(node);
}

// Gives the attribute of an element another text.
fn set_in(node: &mut Node, name: &str, value: Option<&str>) -> Result<(), AllocError>
    ensures ok { OnOk result (seen_node node.new ≡ n.attributed (chars name.now) (option_map (λ v. chars v.now) value.entry) (seen_node node.old)) }
    ensures err { OnErr result (seen_node node.new ≡ seen_node node.old) }
{
    match node {
        Node::Element { attrs, .. } => attrs.set(name, value),
        _ => Ok(()),
    }
}

// Gives the attribute of an element another text.
fn attribute(
    entries: &mut Entries,
    id: NodeId,
    name: &str,
    value: Option<&str>,
) -> Result<(), AllocError>
    requires { IsSome (named (nodes_of entries.old) id) }
    ensures given { OnOk result (named (nodes_of entries.new) id ≡ option_map (n.attributed (chars name.now) (option_map (λ v. chars v.now) value.entry)) (named (nodes_of entries.old) id)) }
    ensures others { (other : Id) → other ≢ id → named (nodes_of entries.new) other ≡ named (nodes_of entries.old) other }
    ensures links { links_of entries.new ≡ links_of entries.old }
    ensures stamps { (nodes_of entries.new).made ≡ (nodes_of entries.old).made }
    ensures err { OnErr result (nodes_of entries.new ≡ nodes_of entries.old) }
{
    match &mut entries.get_mut(id).node {
        Some(node) => set_in(node, name, value),
        None => Ok(()),
    }
}
