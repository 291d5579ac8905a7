// Texts and attributes that change.
ghost use Rattle.std.specs.Prelude.{◌≡◌, ◌∷◌, [], map, OnOk};
ghost use Rattle.gl_plain.specs.Ids.{node as node_id};
ghost use Rattle.gl_plain.specs.State.{text_content, content, put_thing};
ghost use Rattle.gl_plain.specs.Renew as r;
ghost use Rattle.gl_vm.specs.View.{Calm};
ghost use Rattle.gl_vm.specs.Steps.{Does, put_attr, Rooted};
ghost use Rattle.gl_code.specs.CodeView.{seen_attr_spot};

use crate::asks::{has_once, is_text};
use crate::positions::{attribute, shown};
use gl_asks::is_stale;
use gl_code::AttrSpot;
use gl_nodes::NodeId;
use gl_refs::RefId;
use gl_value::Text;
use gl_vm::Vm;
use std::alloc::{AllocError, Global};

#[inline(never)]
fn put_text(vm: &mut Vm, node: NodeId, text: &Text) -> Result<(), AllocError>
    ensures step { OnOk result (Does (λ n. put_thing (node_id node.1) (content (text_content text.now))) vm.old vm.new) }
    ensures calm { Calm vm.old → Calm vm.new }
    ensures roots { OnOk result (Rooted vm.old.tree vm.new.tree) }
{
    if !is_text(&vm.tree, node) {
        return Err(AllocError);
    }
    vm.set_text(node, text.as_str())
}

/// The text of a mustache, which changes where its position is stale.
#[inline(never)]
pub(crate) fn renew_text(
    vm: &mut Vm,
    alloc: Global,
    node: NodeId,
    id: RefId,
) -> Result<(), AllocError>
    requires calm { Calm vm.old }
    ensures step { OnOk result (Does (λ n. r.renew_text node.1 id.1) vm.old vm.new) }
    ensures calm { Calm vm.new }
    ensures roots { OnOk result (Rooted vm.old.tree vm.new.tree) }
{
    if !is_stale(vm, id)? {
        return Ok(());
    }
    let value = shown(vm, id)?;
    let text = value.text_of(alloc)?;
    vm.evaluate(id)?;
    put_text(vm, node, &text)
}

#[inline(never)]
fn put_attribute(
    vm: &mut Vm,
    node: NodeId,
    name: &Text,
    value: &Option<Text>,
) -> Result<(), AllocError>
    ensures step { OnOk result (Does (λ n. put_attr node.1 name.now value.now) vm.old vm.new) }
    ensures calm { Calm vm.old → Calm vm.new }
    ensures roots { OnOk result (Rooted vm.old.tree vm.new.tree) }
{
    if !has_once(&vm.tree, node, name) {
        return Err(AllocError);
    }
    match value {
        Some(text) => vm.set_attr(node, name.as_str(), Some(text.as_str())),
        None => vm.set_attr(node, name.as_str(), None),
    }
}

#[inline(never)]
fn renew_attr(vm: &mut Vm, alloc: Global, node: NodeId, attr: &AttrSpot) -> Result<(), AllocError>
    requires calm { Calm vm.old }
    ensures step { OnOk result (Does (λ n. r.renew_attrs node.1 (seen_attr_spot attr.now ∷ [])) vm.old vm.new) }
    ensures calm { Calm vm.new }
    ensures roots { OnOk result (Rooted vm.old.tree vm.new.tree) }
{
    if !is_stale(vm, attr.spot.id)? {
        return Ok(());
    }
    let value = attribute(alloc, vm, attr.spot.id)?;
    vm.evaluate(attr.spot.id)?;
    put_attribute(vm, node, &attr.name, &value)
}

/// The attributes of an element that take a live value: each changes where its position is stale.
#[inline(never)]
pub(crate) fn renew_attrs(
    vm: &mut Vm,
    alloc: Global,
    node: NodeId,
    attrs: &[AttrSpot],
) -> Result<(), AllocError>
    requires calm { Calm vm.old }
    ensures step { OnOk result (Does (λ n. r.renew_attrs node.1 (map seen_attr_spot attrs.now)) vm.old vm.new) }
    ensures calm { Calm vm.new }
    ensures roots { OnOk result (Rooted vm.old.tree vm.new.tree) }
{
    for attr in attrs {
        renew_attr(vm, alloc, node, attr)?;
    }
    Ok(())
}
