// Nodes that are made, and that change.
ghost use Rattle.std.specs.Prelude.{◌≡◌, ◌==◌, [], IfOk, OnOk, OnErr, Some, IsSome, IfSome, option_map};
ghost use Rattle.std.specs.Str.{chars};
ghost use Rattle.gl_nodes.specs.Node as n;
ghost use Rattle.gl_nodes.specs.Tree.{node_at};
ghost use Rattle.gl_nodes.specs.Flat.{MakesFlat, ChangesFlat};
ghost use Rattle.gl_plain.specs.Ids.{node as node_id};
ghost use Rattle.gl_plain.specs.State.{element_content, text_content, comment_content, content, put_thing};
ghost use Rattle.gl_plain.specs.Grow.{made_node};
ghost use Rattle.gl_vm.specs.View.{seen_node};
ghost use Rattle.gl_vm.specs.Steps.{Does, Numbers, Rooted, put_attr, times_named, is_told, has_once};

use crate::Vm;
use gl_nodes::{Attr, Attrs, Node, NodeId};
use gl_value::Text;
use std::alloc::AllocError;

// Whether there is one attribute of that name.
fn names_once(attrs: &[Attr], name: &str) -> bool
    ensures { result ≡ (times_named (chars name.now) attrs.now == 1) }
{
    let mut found = false;
    for attr in attrs {
        if attr.0.is(name) {
            if found {
                return false;
            }
            found = true;
        }
    }
    found
}

impl Vm {
    /// Makes an element without attributes, which stands nowhere yet.
    pub fn element(&mut self, tag: &str) -> Result<NodeId, AllocError>
        ensures step { IfOk result (λ id. Does (λ n. made_node (element_content (chars tag.now) [])) self.old self.new) }
        ensures id { IfOk result (λ id. Numbers self.old.tree.nodes self.new.tree.nodes id) }
        ensures flat { IfOk result (λ id. MakesFlat self.old.tree self.new.tree id (n.element (chars tag.now) [])) }
        ensures roots { IfOk result (λ id. Rooted self.old.tree self.new.tree) }
        ensures rest { self.new ≡ record self.old { tree = self.new.tree } }
        ensures err { OnErr result (self.new ≡ self.old) }
    {
        self.tree.element(tag)
    }

    /// Makes an element with these attributes, which stands nowhere yet.
    pub fn element_with(&mut self, tag: Text, attrs: Attrs) -> Result<NodeId, AllocError>
        ensures step { IfOk result (λ id. Does (λ n. made_node (element_content tag attrs)) self.old self.new) }
        ensures id { IfOk result (λ id. Numbers self.old.tree.nodes self.new.tree.nodes id) }
        ensures flat { IfOk result (λ id. MakesFlat self.old.tree self.new.tree id (n.element tag attrs)) }
        ensures roots { IfOk result (λ id. Rooted self.old.tree self.new.tree) }
        ensures rest { self.new ≡ record self.old { tree = self.new.tree } }
        ensures err { OnErr result (self.new ≡ self.old) }
    {
        self.tree.element_with(tag, attrs)
    }

    /// Makes a text, which stands nowhere yet.
    pub fn text(&mut self, text: &str) -> Result<NodeId, AllocError>
        ensures step { IfOk result (λ id. Does (λ n. made_node (text_content (chars text.now))) self.old self.new) }
        ensures id { IfOk result (λ id. Numbers self.old.tree.nodes self.new.tree.nodes id) }
        ensures flat { IfOk result (λ id. MakesFlat self.old.tree self.new.tree id (n.text (chars text.now))) }
        ensures roots { IfOk result (λ id. Rooted self.old.tree self.new.tree) }
        ensures rest { self.new ≡ record self.old { tree = self.new.tree } }
        ensures err { OnErr result (self.new ≡ self.old) }
    {
        self.tree.text(text)
    }

    /// Makes a comment, which stands nowhere yet.
    pub fn comment(&mut self, text: &str) -> Result<NodeId, AllocError>
        ensures step { IfOk result (λ id. Does (λ n. made_node (comment_content (chars text.now))) self.old self.new) }
        ensures id { IfOk result (λ id. Numbers self.old.tree.nodes self.new.tree.nodes id) }
        ensures flat { IfOk result (λ id. MakesFlat self.old.tree self.new.tree id (n.comment (chars text.now))) }
        ensures roots { IfOk result (λ id. Rooted self.old.tree self.new.tree) }
        ensures rest { self.new ≡ record self.old { tree = self.new.tree } }
        ensures err { OnErr result (self.new ≡ self.old) }
    {
        self.tree.comment(text)
    }

    /// Whether the id names a text or a comment, so that [`Vm::set_text`] can be called. It takes no memory.
    pub fn is_told(&self, node: NodeId) -> bool
        ensures { result ≡ is_told (node_at self.now.tree node) }
    {
        match self.tree.find(node) {
            Some(Node::Element { .. }) => false,
            Some(_) => true,
            None => false,
        }
    }

    /// Whether the id names an element that has one attribute of that name, so that [`Vm::set_attr`] changes it alone.
    /// It takes no memory.
    pub fn has_once(&self, node: NodeId, name: &str) -> bool
        ensures { result ≡ has_once (chars name.now) (node_at self.now.tree node) }
    {
        match self.tree.find(node) {
            Some(Node::Element { attrs, .. }) => names_once(attrs.as_slice(), name),
            _ => false,
        }
    }

    /// Gives a text or a comment another text.
    pub fn set_text(&mut self, node: NodeId, text: &str) -> Result<(), AllocError>
        requires { IfSome (node_at self.old.tree node) n.IsTold × IsSome (node_at self.old.tree node) }
        ensures step { OnOk result ((was : n.Node) → node_at self.old.tree node ≡ Some was → Does (λ names. put_thing (node_id node.1) (content (seen_node (n.retold (chars text.now) was)))) self.old self.new) }
        ensures flat { OnOk result (ChangesFlat self.old.tree self.new.tree node.1 (option_map (n.retold (chars text.now)) (node_at self.old.tree node))) }
        ensures roots { OnOk result (Rooted self.old.tree self.new.tree) }
        ensures rest { self.new ≡ record self.old { tree = self.new.tree } }
        ensures err { OnErr result (self.new ≡ self.old) }
    {
        self.tree.set_text(node, text)
    }

    /// Gives an element's attribute of a name, which it has once, another text or none; a name that it hasn't comes last.
    pub fn set_attr(
        &mut self,
        node: NodeId,
        name: &str,
        value: Option<&str>,
    ) -> Result<(), AllocError>
        requires { IfSome (node_at self.old.tree node) n.IsElement × IsSome (node_at self.old.tree node) }
        ensures step { OnOk result ((was : n.Node) → node_at self.old.tree node ≡ Some was → Does (λ names. put_thing (node_id node.1) (content (seen_node (n.attributed (chars name.now) (option_map (λ v. chars v.now) value.entry) was)))) self.old self.new) }
        ensures once { OnOk result ((tag : _) (attrs : _) → node_at self.old.tree node ≡ Some (n.element tag attrs) → times_named (chars name.now) attrs ≡ 1 → Does (λ names. put_attr node.1 (chars name.now) (option_map (λ v. chars v.now) value.entry)) self.old self.new) }
        ensures flat { OnOk result (ChangesFlat self.old.tree self.new.tree node.1 (option_map (n.attributed (chars name.now) (option_map (λ v. chars v.now) value.entry)) (node_at self.old.tree node))) }
        ensures roots { OnOk result (Rooted self.old.tree self.new.tree) }
        ensures rest { self.new ≡ record self.old { tree = self.new.tree } }
        ensures err { OnErr result (self.new ≡ self.old) }
    {
        self.tree.flat();
        self.tree.set_attr(node, name, value)
    }
}
