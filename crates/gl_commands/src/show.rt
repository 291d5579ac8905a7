// Writes the canonical spelling and the wire of a template, and how many classes there are.
ghost use Rattle.std.specs.Prelude.{◌≡◌, ◌<◌, ◌∷◌, [], IfOk, IsErrOf};
ghost use Rattle.gl_ast.specs.Template.{body_of};
ghost use Rattle.gl_load.specs.View.{app_view};
ghost use Rattle.gl_commands.specs.Output.{shown_text, wire_line, classes_line, written};
ghost use Rattle.gl_commands.specs.Plays.{Plays};
ghost use Rattle.gl_wire.specs.View.{wire_view};
ghost use Rattle.gl_wire.specs.WireOf.{wire_of};

use crate::PlayFault;
use crate::put::put_text;
use gl_ast::{Body, Template};
use gl_load::Application;
use gl_outside::Sink;
use gl_show::show_body;
use gl_value::Text;
use gl_wire::{Wire, into_text};
use gl_wirec::compile;
use std::alloc::{AllocError, Global};

// The canonical spelling of a tree and a line feed.
fn shown_text(alloc: Global, tree: &Body) -> Result<Text, AllocError>
    ensures { IfOk result (λ t. t ≡ shown_text (body_of tree.now)) }
{
    let mut text = show_body(alloc, tree)?;
    text.push_ascii("\n")?;
    Ok(text)
}

/// Writes the canonical spelling of a tree and a line feed, in one put.
pub fn write_shown<K: Sink>(alloc: Global, tree: &Body, out: &mut K) -> Result<(), PlayFault>
    ensures plays { Plays result (K.took out.old) (K.took out.new) (written (shown_text (body_of tree.now) ∷ [])) }
    ensures failed { IsErrOf result PlayFault.WriteFault → K.faults out.old < K.faults out.new }
{
    let text = shown_text(alloc, tree)?;
    put_text(out, &text)
}

// The wire of a template, which is let go.
fn wire_of(alloc: Global, template: Template) -> Result<Wire, AllocError>
    ensures { IfOk result (λ w. wire_view w ≡ wire_of (body_of template.body)) }
{
    compile(alloc, &template)
}

// The text of a template's wire and a line feed. The template is let go before the text is written.
fn wire_line(alloc: Global, template: Template) -> Result<Text, AllocError>
    ensures { IfOk result (λ t. t ≡ wire_line (body_of template.body)) }
{
    let wire = wire_of(alloc, template)?;
    let mut text = into_text(alloc, wire)?;
    text.push_ascii("\n")?;
    Ok(text)
}

/// Writes the text of a template's wire and a line feed, in one put.
pub fn write_wire<K: Sink>(alloc: Global, template: Template, out: &mut K) -> Result<(), PlayFault>
    ensures plays { Plays result (K.took out.old) (K.took out.new) (written (wire_line (body_of template.body) ∷ [])) }
    ensures failed { IsErrOf result PlayFault.WriteFault → K.faults out.old < K.faults out.new }
{
    let text = wire_line(alloc, template)?;
    put_text(out, &text)
}

// How many classes there are, and a line feed.
fn classes_line(alloc: Global, application: &Application) -> Result<Text, AllocError>
    ensures { IfOk result (λ t. t ≡ classes_line (app_view application.now)) }
{
    let mut text = Text::new(alloc);
    text.push_ascii("classes ")?;
    text.push_number(application.app.manifest().classes.len() as u128)?;
    text.push_ascii("\n")?;
    Ok(text)
}

/// Writes how many classes an application has, and a line feed, in one put.
pub fn write_classes<K: Sink>(
    alloc: Global,
    application: &Application,
    out: &mut K,
) -> Result<(), PlayFault>
    ensures plays { Plays result (K.took out.old) (K.took out.new) (written (classes_line (app_view application.now) ∷ [])) }
    ensures failed { IsErrOf result PlayFault.WriteFault → K.faults out.old < K.faults out.new }
{
    let text = classes_line(alloc, application)?;
    put_text(out, &text)
}
