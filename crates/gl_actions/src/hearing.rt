// What listens at a node, along the updating program.
ghost use Rattle.std.specs.Prelude.{◌≡◌, ◌==◌, ◌&&◌, ◌++◌, ◌∷◌, [], IfOk, OnOk, nat_eq, map, if◌then◌else◌};
ghost use Rattle.std.specs.Str.{bytes_eq, chars};
ghost use Rattle.gl_value.specs.Value.{text_of};
ghost use Rattle.gl_value.specs.View.{view};
ghost use Rattle.gl_mods.specs.Mods.{on_number, argument, listeners};
ghost use Rattle.gl_mods.specs.View.{seen_installed};
ghost use Rattle.gl_machine.specs.Code.{live_of, lives_of, items_of};
ghost use Rattle.gl_code.specs.CodeView.{seen_mod_spot, seen_code, seen_codes, seen_item_code, all_items};
ghost use Rattle.gl_actions.specs.Heard.{spots_in, spots_among, spots_of_items, called_of};

use gl_code::{Code, Codes, ItemCode, ModSpot};
use gl_mods::{Acts, Installed};
use gl_nodes::NodeId;
use gl_value::Value;
use gl_vm::Vm;
use std::alloc::{AllocError, Global};

// The number of `on`.
const ON: u32 = 0;

/// An event of the nodes with a number.
#[derive(Clone, Copy)]
pub struct Heard<'a> {
    pub alloc: Global,
    pub vm: &'a Vm,
    pub number: u64,
    pub event: &'a str,
}

/// Whether a value's text is that of the event.
fn is_event(heard: &Heard, value: &Value) -> Result<bool, AllocError>
    ensures { IfOk result (λ b. b ≡ bytes_eq (text_of (view value.now)) (chars heard.now.event.now)) }
{
    Ok(value.text_of(heard.alloc)?.is(heard.event))
}

/// Whether a modifier listens for the event.
fn listens(heard: &Heard, installed: &Installed) -> Result<bool, AllocError>
    ensures { IfOk result (λ b. b ≡ ((seen_installed installed.now).name == on_number) && bytes_eq (text_of (argument 0 (seen_installed installed.now))) (chars heard.now.event.now)) }
{
    if installed.name != ON {
        return Ok(false);
    }
    match installed.args.get(0) {
        Some(first) => is_event(heard, first),
        None => is_event(heard, &Value::Undefined),
    }
}

/// What an event calls: the second argument.
fn called(installed: &Installed) -> Result<Value, AllocError>
    ensures { IfOk result (λ v. view v ≡ argument 1 (seen_installed installed.now)) }
{
    match installed.args.get(1) {
        Some(second) => second.copy(),
        None => Ok(Value::Undefined),
    }
}

/// Adds what a modifier calls, where it listens.
fn hear(heard: &Heard, installed: &Installed, acts: &mut Acts) -> Result<(), AllocError>
    ensures { OnOk result (acts.new ≡ acts.old ++ listeners (chars heard.now.event.now) (seen_installed installed.now ∷ [])) }
{
    if !listens(heard, installed)? {
        return Ok(());
    }
    acts.push(called(installed)?)
}

/// Adds what these modifiers of an element call.
fn hear_spots(heard: &Heard, spots: &[ModSpot], acts: &mut Acts) -> Result<(), AllocError>
    ensures { OnOk result (acts.new ≡ acts.old ++ called_of heard.now.vm.now.mods (chars heard.now.event.now) (map seen_mod_spot spots.now)) }
{
    let mods = &heard.vm.mods;
    mods.sound();
    for spot in spots {
        if !mods.live(spot.id) {
            return Err(AllocError);
        }
        hear(heard, mods.get(spot.id), acts)?;
    }
    Ok(())
}

/// Whether a node has the number.
fn has_number(heard: &Heard, node: NodeId) -> bool
    ensures { result ≡ nat_eq heard.now.number node.1 }
{
    heard.number == node.number()
}

/// Adds what an element's own modifiers call, where it is the node.
fn hear_own(
    heard: &Heard,
    node: NodeId,
    mods: &[ModSpot],
    acts: &mut Acts,
) -> Result<(), AllocError>
    ensures { OnOk result (acts.new ≡ acts.old ++ called_of heard.now.vm.now.mods (chars heard.now.event.now) (if nat_eq heard.now.number node.1 then map seen_mod_spot mods.now else [])) }
{
    if has_number(heard, node) {
        return hear_spots(heard, mods, acts);
    }
    Ok(())
}

/// Adds what is called in what was rendered of a body.
#[cycle(hearing)]
fn hear_codes(heard: &Heard, codes: &Codes, acts: &mut Acts) -> Result<(), AllocError>
    ensures { OnOk result ((n : _) → acts.new ≡ acts.old ++ called_of heard.now.vm.now.mods (chars heard.now.event.now) (spots_among heard.now.number (lives_of (seen_codes n codes.now)))) }
{
    for code in codes.list.as_slice() {
        hear_code(heard, code, acts)?;
    }
    Ok(())
}

/// Adds what is called in what was rendered of items.
#[cycle(hearing)]
fn hear_items(heard: &Heard, items: &Vec<ItemCode>, acts: &mut Acts) -> Result<(), AllocError>
    ensures { OnOk result ((n : _) → acts.new ≡ acts.old ++ called_of heard.now.vm.now.mods (chars heard.now.event.now) (spots_of_items heard.now.number (items_of (all_items (map (seen_item_code n) items.now.items))))) }
{
    for item in items.as_slice() {
        hear_codes(heard, &item.body, acts)?;
    }
    Ok(())
}

/// Adds what is called in an element: of its own modifiers, where it is the node, and in its body.
#[cycle(hearing)]
fn hear_element(
    heard: &Heard,
    node: NodeId,
    mods: &[ModSpot],
    body: &Codes,
    acts: &mut Acts,
) -> Result<(), AllocError>
    ensures { OnOk result ((n : _) → acts.new ≡ acts.old ++ called_of heard.now.vm.now.mods (chars heard.now.event.now) ((if nat_eq heard.now.number node.1 then map seen_mod_spot mods.now else []) ++ spots_among heard.now.number (lives_of (seen_codes n body.now)))) }
{
    hear_own(heard, node, mods, acts)?;
    hear_codes(heard, body, acts)
}

/// Adds what is called in what was rendered of a statement.
#[cycle(hearing)]
fn hear_code(heard: &Heard, code: &Code, acts: &mut Acts) -> Result<(), AllocError>
    ensures { OnOk result ((n : _) → acts.new ≡ acts.old ++ called_of heard.now.vm.now.mods (chars heard.now.event.now) (spots_in heard.now.number (live_of (seen_code n code.now)))) }
{
    match code {
        Code::Still { .. } | Code::Put { .. } => Ok(()),
        Code::Element {
            node,
            mods,
            body,
            ..
        } => hear_element(heard, *node, mods.as_slice(), body, acts),
        Code::Branch { body, .. } => hear_codes(heard, body, acts),
        Code::Listed { items, .. } => hear_items(heard, items, acts),
        Code::Unlisted { body, .. } => hear_codes(heard, body, acts),
        Code::Let { body, .. } => hear_codes(heard, body, acts),
        Code::Component { body, .. } => hear_codes(heard, body, acts),
        Code::Root { body, .. } => hear_codes(heard, body, acts),
        Code::Yield { body, .. } => hear_codes(heard, body, acts),
    }
}

/// What the modifiers `on` of the nodes with a number call at an event, in order.
pub fn heard_on(heard: &Heard, code: &Code) -> Result<Acts, AllocError>
    ensures { IfOk result (λ acts. (n : _) → acts ≡ called_of heard.now.vm.now.mods (chars heard.now.event.now) (spots_in heard.now.number (live_of (seen_code n code.now)))) }
{
    let mut acts = Acts::new(heard.alloc);
    hear_code(heard, code, &mut acts)?;
    Ok(acts)
}
