// What was rendered in a body, a branch or an item ends.
ghost use Rattle.std.specs.Prelude.{◌≡◌, OnOk, ◌+◌, map};
ghost use Rattle.gl_nodes.specs.Flat.{stamp_of};
ghost use Rattle.gl_plain.specs.Ids.{node as node_id, instance_id, block_id, hit, occurs};
ghost use Rattle.gl_plain.specs.Live.{times, times_in, times_items, times_comment, times_attrs, times_mods, item_made};
ghost use Rattle.gl_plain.specs.Naming.{by_number, dropped_as};
ghost use Rattle.gl_machine.specs.Code.{live_of, lives_of, items_of};
ghost use Rattle.gl_vm.specs.Led.{Led};
ghost use Rattle.gl_vm.specs.View.{Calm};
ghost use Rattle.gl_vm.specs.Steps.{Does};
ghost use Rattle.gl_code.specs.View.{refs_made};
ghost use Rattle.gl_code.specs.CodeView.{seen_spot, seen_attr_spot, seen_mod_spot, seen_code, seen_codes, seen_item_code, all_items};
ghost use Rattle.gl_machine.specs.Shape.{leaf, end, tree as nested};
ghost use Rattle.gl_seats.specs.Parts.{code_nest, codes_nest, body_nest, item_nest};
ghost use Rattle.gl_seats.specs.Seats.{Unseats, UnseatsEach};
ghost use Rattle.gl_ends.specs.Ending.{Ends};

use crate::references::{end_pair, end_references, end_spot};
use crate::tags::{end_mods, end_tag};
use crate::things::{end_block, end_comment, end_node, end_owner};
use gl_arena::BlockId;
use gl_code::{AttrSpot, Code, Codes, ItemCode, ModSpot, Owner, Spot};
use gl_nodes::NodeId;
use gl_refs::Ids;
use gl_vm::Vm;
use std::alloc::AllocError;

/// Ends all that was rendered in a body: references, nodes, instances, blocks and modifiers. What reads goes before what
/// is read, and what stands in a node before the node. Where something is not live, or is still read, it answers as for
/// want of memory, and what was ended before that stays so.
pub fn end_codes(vm: &mut Vm, codes: &Codes) -> Result<(), AllocError>
    requires calm { Calm vm.old }
    ensures step { OnOk result (Does (λ n. dropped_as by_number (λ q. times_in q (lives_of (seen_codes n codes.now)))) vm.old vm.new) }
    ensures calm { Calm vm.new }
    ensures unseats { OnOk result ((n : _) → Unseats vm.old.tree.forest vm.new.tree.forest (codes_nest n codes.now)) }
    ensures moves { OnOk result (vm.new.tree.moves ≡ vm.old.tree.moves) }
{
    drop_codes(vm, codes)
}

/// Ends all that was rendered in a branch, with the comment that stands there where no node was rendered.
pub fn end_branch(vm: &mut Vm, codes: &Codes, comment: &Option<NodeId>) -> Result<(), AllocError>
    requires calm { Calm vm.old }
    ensures step { OnOk result (Does (λ n. dropped_as by_number (λ q. times_in q (lives_of (seen_codes n codes.now)) + times_comment q (stamp_of comment.now))) vm.old vm.new) }
    ensures calm { Calm vm.new }
    ensures unseats { OnOk result ((n : _) → Unseats vm.old.tree.forest vm.new.tree.forest (body_nest n codes.now comment.now)) }
    ensures moves { OnOk result (vm.new.tree.moves ≡ vm.old.tree.moves) }
{
    drop_body(vm, codes, comment)
}

/// Ends all that was rendered of the items of a list.
pub fn end_items(vm: &mut Vm, items: &[ItemCode]) -> Result<(), AllocError>
    requires calm { Calm vm.old }
    ensures step { OnOk result (Does (λ n. dropped_as by_number (λ q. times_items q (items_of (all_items (map (seen_item_code n) items.now))))) vm.old vm.new) }
    ensures calm { Calm vm.new }
    ensures unseats { OnOk result ((n : _) → UnseatsEach vm.old.tree.forest vm.new.tree.forest (map (item_nest n) items.now)) }
    ensures moves { OnOk result (vm.new.tree.moves ≡ vm.old.tree.moves) }
{
    drop_items(vm, items)
}

#[cycle(ending)]
fn drop_codes(vm: &mut Vm, codes: &Codes) -> Result<(), AllocError>
    ensures ends { (n : _) → OnOk result (Ends n (λ q. times_in q (lives_of (seen_codes n codes.now))) vm.old vm.new) }
    ensures calm { Calm vm.old → Calm vm.new }
    ensures led { Led vm.old.refs → Led vm.new.refs }
    ensures unseats { OnOk result ((n : _) → Unseats vm.old.tree.forest vm.new.tree.forest (codes_nest n codes.now)) }
    ensures moves { OnOk result (vm.new.tree.moves ≡ vm.old.tree.moves) }
{
    for code in codes.list.as_slice() {
        drop_code(vm, code)?;
    }
    Ok(())
}

#[cycle(ending)]
fn drop_code(vm: &mut Vm, code: &Code) -> Result<(), AllocError>
    ensures ends { (n : _) → OnOk result (Ends n (λ q. times q (live_of (seen_code n code.now))) vm.old vm.new) }
    ensures calm { Calm vm.old → Calm vm.new }
    ensures led { Led vm.old.refs → Led vm.new.refs }
    ensures unseats { OnOk result ((n : _) → Unseats vm.old.tree.forest vm.new.tree.forest (code_nest n code.now)) }
    ensures moves { OnOk result (vm.new.tree.moves ≡ vm.old.tree.moves) }
{
    match code {
        Code::Still { node } => end_node(vm, *node),
        Code::Put { node, spot } => end_put(vm, *node, spot),
        Code::Element {
            node,
            made,
            attrs,
            mods,
            body,
        } => drop_element(vm, *node, made, attrs.as_slice(), mods.as_slice(), body),
        Code::Branch {
            spot,
            comment,
            body,
            ..
        } => drop_branch(vm, spot, body, comment),
        Code::Listed { spot, items, .. } => {
            drop_items(vm, items.as_slice())?;
            end_spot(vm, spot)
        }
        Code::Unlisted {
            spot,
            comment,
            body,
            ..
        } => drop_branch(vm, spot, body, comment),
        Code::Let { made, body, .. } => drop_let(vm, made, body),
        Code::Component {
            owner,
            block,
            made,
            body,
            ..
        } => drop_component(vm, owner.as_ref(), *block, made, body),
        Code::Root { owner, body } => {
            drop_codes(vm, body)?;
            end_owner(vm, owner.as_ref())
        }
        Code::Yield { made, body, .. } => drop_let(vm, made, body),
    }
}

// A text's position, and its node.
fn end_put(vm: &mut Vm, node: NodeId, spot: &Spot) -> Result<(), AllocError>
    ensures ends { (n : _) → OnOk result (Ends n (λ q. hit q (node_id node.1) + occurs q (seen_spot spot.now).made) vm.old vm.new) }
    ensures calm { Calm vm.old → Calm vm.new }
    ensures led { Led vm.old.refs → Led vm.new.refs }
    ensures unseats { OnOk result (Unseats vm.old.tree.forest vm.new.tree.forest (leaf node.1)) }
    ensures moves { OnOk result (vm.new.tree.moves ≡ vm.old.tree.moves) }
{
    end_spot(vm, spot)?;
    end_node(vm, node)
}

#[cycle(ending)]
fn drop_element(
    vm: &mut Vm,
    node: NodeId,
    made: &Ids,
    attrs: &[AttrSpot],
    mods: &[ModSpot],
    body: &Codes,
) -> Result<(), AllocError>
    ensures ends { (n : _) → OnOk result (Ends n (λ q. (hit q (node_id node.1) + (occurs q (refs_made made.now) + times_attrs q (map seen_attr_spot attrs.now))) + (times_in q (lives_of (seen_codes n body.now)) + times_mods q (map seen_mod_spot mods.now))) vm.old vm.new) }
    ensures calm { Calm vm.old → Calm vm.new }
    ensures led { Led vm.old.refs → Led vm.new.refs }
    ensures unseats { OnOk result ((n : _) → Unseats vm.old.tree.forest vm.new.tree.forest (nested node.1 (codes_nest n body.now) end)) }
    ensures moves { OnOk result (vm.new.tree.moves ≡ vm.old.tree.moves) }
{
    end_mods(vm, node, mods)?;
    drop_codes(vm, body)?;
    end_tag(vm, node, made, attrs)
}

#[cycle(ending)]
fn drop_branch(
    vm: &mut Vm,
    spot: &Spot,
    body: &Codes,
    comment: &Option<NodeId>,
) -> Result<(), AllocError>
    ensures ends { (n : _) → OnOk result (Ends n (λ q. occurs q (seen_spot spot.now).made + (times_in q (lives_of (seen_codes n body.now)) + times_comment q (stamp_of comment.now))) vm.old vm.new) }
    ensures calm { Calm vm.old → Calm vm.new }
    ensures led { Led vm.old.refs → Led vm.new.refs }
    ensures unseats { OnOk result ((n : _) → Unseats vm.old.tree.forest vm.new.tree.forest (body_nest n body.now comment.now)) }
    ensures moves { OnOk result (vm.new.tree.moves ≡ vm.old.tree.moves) }
{
    drop_body(vm, body, comment)?;
    end_spot(vm, spot)
}

#[cycle(ending)]
fn drop_let(vm: &mut Vm, made: &Ids, body: &Codes) -> Result<(), AllocError>
    ensures ends { (n : _) → OnOk result (Ends n (λ q. occurs q (refs_made made.now) + times_in q (lives_of (seen_codes n body.now))) vm.old vm.new) }
    ensures calm { Calm vm.old → Calm vm.new }
    ensures led { Led vm.old.refs → Led vm.new.refs }
    ensures unseats { OnOk result ((n : _) → Unseats vm.old.tree.forest vm.new.tree.forest (codes_nest n body.now)) }
    ensures moves { OnOk result (vm.new.tree.moves ≡ vm.old.tree.moves) }
{
    drop_codes(vm, body)?;
    end_references(vm, made)
}

// The instance goes with what it was passed.
fn end_passed(vm: &mut Vm, owner: &Owner, block: BlockId, made: &Ids) -> Result<(), AllocError>
    ensures ends { (n : _) → OnOk result (Ends n (λ q. (hit q (instance_id owner.now.id.1) + occurs q (refs_made owner.now.cells)) + (hit q (block_id block.1) + occurs q (refs_made made.now))) vm.old vm.new) }
    ensures calm { Calm vm.old → Calm vm.new }
    ensures led { Led vm.old.refs → Led vm.new.refs }
    ensures tree { OnOk result (vm.new.tree ≡ vm.old.tree) }
{
    end_owner(vm, owner)?;
    end_block(vm, block)?;
    end_references(vm, made)
}

#[cycle(ending)]
fn drop_component(
    vm: &mut Vm,
    owner: &Owner,
    block: BlockId,
    made: &Ids,
    body: &Codes,
) -> Result<(), AllocError>
    ensures ends { (n : _) → OnOk result (Ends n (λ q. ((hit q (instance_id owner.now.id.1) + occurs q (refs_made owner.now.cells)) + (hit q (block_id block.1) + occurs q (refs_made made.now))) + times_in q (lives_of (seen_codes n body.now))) vm.old vm.new) }
    ensures calm { Calm vm.old → Calm vm.new }
    ensures led { Led vm.old.refs → Led vm.new.refs }
    ensures unseats { OnOk result ((n : _) → Unseats vm.old.tree.forest vm.new.tree.forest (codes_nest n body.now)) }
    ensures moves { OnOk result (vm.new.tree.moves ≡ vm.old.tree.moves) }
{
    drop_codes(vm, body)?;
    end_passed(vm, owner, block, made)
}

#[cycle(ending)]
fn drop_items(vm: &mut Vm, items: &[ItemCode]) -> Result<(), AllocError>
    ensures ends { (n : _) → OnOk result (Ends n (λ q. times_items q (items_of (all_items (map (seen_item_code n) items.now)))) vm.old vm.new) }
    ensures calm { Calm vm.old → Calm vm.new }
    ensures led { Led vm.old.refs → Led vm.new.refs }
    ensures unseats { OnOk result ((n : _) → UnseatsEach vm.old.tree.forest vm.new.tree.forest (map (item_nest n) items.now)) }
    ensures moves { OnOk result (vm.new.tree.moves ≡ vm.old.tree.moves) }
{
    for item in items {
        drop_item(vm, item)?;
    }
    Ok(())
}

#[cycle(ending)]
fn drop_item(vm: &mut Vm, item: &ItemCode) -> Result<(), AllocError>
    ensures ends { (n : _) → let x = seen_item_code n item.now in OnOk result (Ends n (λ q. occurs q (item_made x.0) + (times_in q (lives_of x.1.1) + times_comment q x.1.0)) vm.old vm.new) }
    ensures calm { Calm vm.old → Calm vm.new }
    ensures led { Led vm.old.refs → Led vm.new.refs }
    ensures unseats { OnOk result ((n : _) → Unseats vm.old.tree.forest vm.new.tree.forest (item_nest n item.now)) }
    ensures moves { OnOk result (vm.new.tree.moves ≡ vm.old.tree.moves) }
{
    drop_body(vm, &item.body, &item.comment)?;
    end_pair(vm, item.spot.value, item.spot.index)
}

// What stands in a branch or an item, with its comment.
#[cycle(ending)]
fn drop_body(vm: &mut Vm, body: &Codes, comment: &Option<NodeId>) -> Result<(), AllocError>
    ensures ends { (n : _) → OnOk result (Ends n (λ q. times_in q (lives_of (seen_codes n body.now)) + times_comment q (stamp_of comment.now)) vm.old vm.new) }
    ensures calm { Calm vm.old → Calm vm.new }
    ensures led { Led vm.old.refs → Led vm.new.refs }
    ensures unseats { OnOk result ((n : _) → Unseats vm.old.tree.forest vm.new.tree.forest (body_nest n body.now comment.now)) }
    ensures moves { OnOk result (vm.new.tree.moves ≡ vm.old.tree.moves) }
{
    drop_codes(vm, body)?;
    end_comment(vm, comment)
}
