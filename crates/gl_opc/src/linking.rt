// Linking: programs of wires.
ghost use Rattle.std.specs.Prelude.{◌≡◌, ◌&&◌, ℕ, List, [], map, IfOk, IfErr};
ghost use Rattle.gl_base.specs.Texts.{Text};
ghost use Rattle.gl_ast.specs.Grammar.{IsTemplate, SpellsExpr};
ghost use Rattle.gl_ast.specs.Template.{Body, Expr};
ghost use Rattle.gl_meaning.specs.Known.{first_of};
ghost use Rattle.gl_meaning.specs.View.{manifest_view, class_view};
ghost use Rattle.gl_program.specs.View.{program_view};
ghost use Rattle.gl_opc.specs.Coding.{template_code, expression_code};
ghost use Rattle.gl_opc.specs.IsProgram.{IsProgramOf};
ghost use Rattle.gl_opc.specs.TreeFaults.{at_stmt, template_faults, expr_faults, first_fault, first_expr_fault};
ghost use Rattle.gl_opc.specs.Links.{IsFirst};
ghost use Rattle.gl_opc.specs.Lowers.{Lowers, LowersExpr};
ghost use Rattle.gl_opc.specs.NamePlaces.{all_rising};
ghost use Rattle.gl_opc.specs.Piece.{start};
ghost use Rattle.gl_opc.specs.Pools.{HasEachOnce};
ghost use Rattle.gl_opc.specs.State.{context_view};
ghost use Rattle.gl_opc.specs.WireFaults.{body_faults, expr_unknowns};
ghost use Rattle.gl_wire.specs.View.{expr_view, wire_view, expr_wire_view};
ghost use Rattle.gl_wire.specs.Wire.{body_of};
ghost use Rattle.gl_wire.specs.WireOf.{wire_of, expr_wire_of};

use crate::context::Context;
use crate::link_expr::link_expr;
use crate::link_stmt::link_body;
use crate::linker::Linker;
use crate::names::{NameIndex, rise};
use crate::{LinkFault, Program};
use gl_meaning::{Class, Manifest};
use gl_ops::Op;
use gl_wire::{ExprWire, Wire, WireBody, WireExpr};
use std::alloc::Global;

// The program of the statements of a template.
fn body_program(context: &Context, body: &WireBody) -> Result<Program, LinkFault>
    ensures made { IfOk result (λ p. IsProgramOf (program_view p) (template_code (context_view context.now).manifest (context_view context.now).class (context_view context.now).symbols (body_of body.now) start)) }
    ensures known { IfOk result (λ p. body_faults (context_view context.now).manifest (context_view context.now).class 0 (body_of body.now) ≡ []) }
    ensures once { IfOk result (λ p. HasEachOnce (program_view p)) }
    ensures unknown { IfErr result (λ e. IsFirst e (first_of (body_faults (context_view context.now).manifest (context_view context.now).class 0 (body_of body.now)))) }
{
    let mut out = Linker::new(context.alloc);
    link_body(context, body, &mut out)?;
    out.push_op(Op::Done)?;
    Ok(out.finish(context.alloc)?)
}

// The program of an expression by itself.
fn expression_program(context: &Context, expr: &WireExpr) -> Result<Program, LinkFault>
    ensures made { IfOk result (λ p. IsProgramOf (program_view p) (expression_code (context_view context.now).manifest (context_view context.now).class (context_view context.now).symbols (expr_view expr.now) start)) }
    ensures known { IfOk result (λ p. expr_unknowns (context_view context.now).manifest (context_view context.now).class (expr_view expr.now) ≡ []) }
    ensures once { IfOk result (λ p. HasEachOnce (program_view p)) }
    ensures unknown { IfErr result (λ e. IsFirst e (first_of (map (at_stmt 0) (expr_unknowns (context_view context.now).manifest (context_view context.now).class (expr_view expr.now))))) }
{
    let mut out = Linker::new(context.alloc);
    link_expr(context, 0, expr, &mut out)?;
    out.push_op(Op::Done)?;
    Ok(out.finish(context.alloc)?)
}

fn both(one: bool, other: bool) -> bool
    ensures { result ≡ (one && other) }
{
    one && other
}

// Whether the names of the classes rise, and those of the class's members.
fn all_rise(manifest: &Manifest, class: &Class) -> bool
    ensures { result ≡ all_rising (manifest_view manifest.now) (class_view class.now) }
{
    let classes = rise(manifest.classes.as_slice());
    let fields = rise(class.fields.as_slice());
    let getters = rise(class.getters.as_slice());
    let actions = rise(class.actions.as_slice());
    let others = both(getters, actions);
    let members = both(fields, others);
    both(classes, members)
}

/// The program of a template, for a class of a manifest: it lowers each template that has the wire. Fails exactly where a name
/// of the wire is not known, with the first one and its statement; and for want of memory, also where a number has no room in a
/// word. Where the names of the classes and of the class's members rise and no modifier stands twice, it takes time in proportion to the
/// manifest's names and to the wire, times the logarithm of how many names there are; else times how many there are.
pub fn link(
    alloc: Global,
    wire: &Wire,
    manifest: &Manifest,
    class: &Class,
) -> Result<Program, LinkFault>
    ensures lowers { IfOk result (λ p. (b : Body) → IsTemplate b → wire_of b ≡ wire_view wire.now
        → Lowers (program_view p) b (manifest_view manifest.now) (class_view class.now)) }
    ensures known { IfOk result (λ p. (b : Body) → IsTemplate b → wire_of b ≡ wire_view wire.now
        → template_faults (manifest_view manifest.now) (class_view class.now) b ≡ []) }
    ensures once { IfOk result (λ p. HasEachOnce (program_view p)) }
    ensures unknown { IfErr result (λ e. (b : Body) → IsTemplate b → wire_of b ≡ wire_view wire.now
        → IsFirst e (first_fault (manifest_view manifest.now) (class_view class.now) b)) }
{
    let modifiers = NameIndex::of(alloc, &manifest.modifiers)?;
    let context = Context {
        alloc,
        manifest,
        class,
        symbols: wire.symbols(),
        rise: all_rise(manifest, class),
        modifiers: &modifiers,
    };
    body_program(&context, wire.body())
}

/// The program of an expression by itself, for a class of a manifest: it lowers each expression with parameters in scope that
/// has the wire. Fails exactly where a name is not known, with the first one, in statement 0; and for want of memory. Names are
/// sought by going through the class's lists, since most expressions are short.
pub fn link_expression(
    alloc: Global,
    wire: &ExprWire,
    manifest: &Manifest,
    class: &Class,
) -> Result<Program, LinkFault>
    ensures lowers { IfOk result (λ p. (bytes : List ℕ) (e : Expr) (params : List Text) → SpellsExpr bytes e → expr_wire_of params e ≡ expr_wire_view wire.now
        → LowersExpr (program_view p) e params (manifest_view manifest.now) (class_view class.now)) }
    ensures known { IfOk result (λ p. (bytes : List ℕ) (e : Expr) (params : List Text) → SpellsExpr bytes e → expr_wire_of params e ≡ expr_wire_view wire.now
        → expr_faults (manifest_view manifest.now) (class_view class.now) params e ≡ []) }
    ensures once { IfOk result (λ p. HasEachOnce (program_view p)) }
    ensures unknown { IfErr result (λ f. (bytes : List ℕ) (e : Expr) (params : List Text) → SpellsExpr bytes e → expr_wire_of params e ≡ expr_wire_view wire.now
        → IsFirst f (first_expr_fault (manifest_view manifest.now) (class_view class.now) params e)) }
{
    let modifiers = NameIndex::none(alloc, &manifest.modifiers);
    let context = Context {
        alloc,
        manifest,
        class,
        symbols: &wire.symbols,
        rise: false,
        modifiers: &modifiers,
    };
    expression_program(&context, &wire.value)
}
