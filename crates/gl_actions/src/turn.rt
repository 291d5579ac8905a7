// What the actions of a turn run over.
ghost use Rattle.std.specs.Prelude.{◌≡◌, [], IfOk, Some, slice_get};
ghost use Rattle.gl_meaning.specs.View.{class_view, manifest_view, path_view, path_step_view};
ghost use Rattle.gl_meaning.specs.Path.{nesting};
ghost use Rattle.gl_machine.specs.Code.{live_of};
ghost use Rattle.gl_vm.specs.View.{name_stamps};
ghost use Rattle.gl_code.specs.View.{seen_owner};
ghost use Rattle.gl_code.specs.CodeView.{seen_code};
ghost use Rattle.gl_actions.specs.World.{World, tables_in};
ghost use Rattle.gl_actions.specs.Found.{instance_in};
ghost use Rattle.gl_actions.specs.Frames.{Fits};
ghost use Rattle.gl_actions.specs.Reads.{Reads};
ghost use Rattle.gl_actions.specs.Own.{IsOnPage};
ghost use Rattle.gl_actions.specs.Classes.{IsClassOf, class_name, weight};

use crate::frame::Frame;
use crate::lookup::class_of;
use crate::seeking::{Sought, seek};
use gl_code::{Owner, Page};
use gl_meaning::{Class, Manifest, PathStep};
use gl_opc::App;
use gl_scope::Args;
use gl_value::Text;
use std::alloc::{AllocError, Global};

/// A page with its application. What is lent besides are the arguments of the root: none.
#[derive(Clone, Copy)]
pub struct Turn<'a> {
    pub alloc: Global,
    pub page: &'a Page,
    pub app: &'a App,
    pub none: &'a Args,
}

/// The name of the class of an instance, which its path has, but for the root's.
fn name_at<'a>(manifest: &'a Manifest, owner: &'a Owner) -> Result<&'a Text, AllocError>
    ensures { IfOk result (λ n. class_name (manifest_view manifest.now) (path_view owner.now.path) ≡ Some n.now) }
{
    match owner.path.steps.as_slice().split_last() {
        None => Ok(&manifest.root),
        Some((PathStep::Into(name), _)) => Ok(name),
        Some(_) => Err(AllocError),
    }
}

/// The class of an instance by its path.
fn class_at<'a>(app: &'a App, owner: &'a Owner) -> Result<&'a Class, AllocError>
    ensures { IfOk result (λ c. IsClassOf (manifest_view app.now.manifest) (path_view owner.now.path) (class_view c.now)) }
{
    let manifest = app.manifest();
    let name = name_at(manifest, owner)?;
    class_of(manifest.classes.as_slice(), name).ok_or(AllocError)
}

/// The class with a number.
fn class_numbered(app: &App, class: u16) -> Result<&Class, AllocError>
    ensures { IfOk result (λ c. slice_get (manifest_view app.now.manifest).classes class ≡ Some (class_view c.now)) }
{
    app.manifest().classes.get(class as usize).ok_or(AllocError)
}

/// The instance with a number. Where there is none, it answers as for want of memory.
pub fn frame_of<'a>(turn: &Turn<'a>, number: u64) -> Result<Frame<'a>, AllocError>
    requires none { turn.now.none.now ≡ [] }
    ensures found { IfOk result (λ f. (n : _) → instance_in number (live_of (seen_code n turn.now.page.now.code)) ≡ Some (seen_owner n f.owner.now, name_stamps f.args.now)) }
    ensures fits { IfOk result (λ f. (w : World) → Reads turn.now.app.now turn.now.page.now w → Fits w f) }
    ensures number { IfOk result (λ f. f.number ≡ number) }
    ensures own { IfOk result (λ f. IsOnPage turn.now.app.now turn.now.page.now f) }
{
    let sought = Sought {
        number,
        none: turn.none,
    };
    match seek(&sought, &turn.page.code)? {
        Some(found) => Ok(Frame {
            alloc: turn.alloc,
            vm: &turn.page.vm,
            class: class_at(turn.app, found.owner)?,
            numbered: class_numbered(turn.app, found.owner.class)?,
            owner: found.owner,
            number,
            args: found.args,
        }),
        None => Err(AllocError),
    }
}

/// Whether a step is into a component, as a count.
fn weight_of(step: &PathStep) -> u32
    ensures { result ≡ weight (path_step_view step.now) }
{
    match step {
        PathStep::Into(_) => 1,
        _ => 0,
    }
}

/// How deep an instance stands: 1 for the root, and 1 more for each component on the way to it.
pub fn depth_of(owner: &Owner) -> Result<u32, AllocError>
    ensures { IfOk result (λ n. n ≡ nesting (path_view owner.now.path)) }
{
    let mut count: u32 = 1;
    for step in owner.path.steps.as_slice() {
        count = count.checked_add(weight_of(step)).ok_or(AllocError)?;
    }
    Ok(count)
}
