// The programs of the expressions of a step.
ghost use Rattle.std.specs.Prelude.{◌≡◌, ◌∷◌, [], OnOk, IfOk, map, option_map};
ghost use Rattle.std.specs.Option.{option_to_list};
ghost use Rattle.gl_ast.specs.Template.{exprs_of};
ghost use Rattle.gl_ast.specs.View.{expr_view};
ghost use Rattle.gl_meaning.specs.View.{manifest_view, class_view, step_view};
ghost use Rattle.gl_program.specs.View.{program_view};
ghost use Rattle.gl_opc.specs.Lowers.{LowersExpr};
ghost use Rattle.gl_opc.specs.Programs.{listed, step_exprs};
ghost use Rattle.gl_load.specs.Adds.{Adds};
ghost use Rattle.gl_load.specs.Names.{expr_known, exprs_known, when_known, field_known, step_known, Knows};
ghost use Rattle.gl_load.specs.Spelled.{IsExpression, AreExpressions, IsSpelledWhen, IsSpelledStep};

use crate::LoadCause;
use gl_ast::Expr;
use gl_meaning::{Class, ExprList, Kind, Manifest, Step, StepKind};
use gl_opc::{LinkFault, Program, ProgramList, link_expression};
use gl_value::{Text, Texts};
use gl_wirec::expression;
use std::alloc::Global;

/// The program of an expression with these parameters in scope.
pub fn expr_program(
    alloc: Global,
    manifest: &Manifest,
    class: &Class,
    params: &Texts,
    expr: &Expr,
) -> Result<Program, LoadCause>
    requires { IsExpression (expr_view expr.now) }
    ensures told { Knows result (expr_known (manifest_view manifest.now) (class_view class.now) params.now (expr_view expr.now)) }
    ensures lowers { IfOk result (λ p. LowersExpr (program_view p) (expr_view expr.now) params.now (manifest_view manifest.now) (class_view class.now)) }
{
    let wire = expression(alloc, expr, params)?;
    match link_expression(alloc, &wire, manifest, class) {
        Ok(program) => Ok(program),
        Err(
            LinkFault::UnknownName {
                kind,
                name,
                place: _,
            },
        ) => Err(LoadCause::UnknownName { kind, name }),
        Err(LinkFault::Memory) => Err(LoadCause::Memory),
    }
}

/// Adds the program of an expression.
pub fn push_expr(
    alloc: Global,
    manifest: &Manifest,
    class: &Class,
    params: &Texts,
    expr: &Expr,
    programs: &mut ProgramList,
) -> Result<(), LoadCause>
    requires { IsExpression (expr_view expr.now) }
    ensures told { Knows result (expr_known (manifest_view manifest.now) (class_view class.now) params.now (expr_view expr.now)) }
    ensures adds { OnOk result (Adds (manifest_view manifest.now) (class_view class.now) ((params.now, expr_view expr.now) ∷ []) programs.old programs.new) }
{
    let program = expr_program(alloc, manifest, class, params, expr)?;
    programs.push(program)?;
    Ok(())
}

// Adds the program of each of these.
fn push_exprs(
    alloc: Global,
    manifest: &Manifest,
    class: &Class,
    params: &Texts,
    exprs: &ExprList,
    programs: &mut ProgramList,
) -> Result<(), LoadCause>
    requires { AreExpressions (exprs_of exprs.now) }
    ensures told { Knows result (exprs_known (manifest_view manifest.now) (class_view class.now) params.now (exprs_of exprs.now)) }
    ensures adds { OnOk result (Adds (manifest_view manifest.now) (class_view class.now) (map (λ e. (params.now, e)) (listed (exprs_of exprs.now))) programs.old programs.new) }
{
    for expr in exprs.as_slice() {
        push_expr(alloc, manifest, class, params, expr, programs)?;
    }
    Ok(())
}

// Adds the program of a `when`, where there is one.
fn push_when(
    alloc: Global,
    manifest: &Manifest,
    class: &Class,
    params: &Texts,
    when: &Option<Expr>,
    programs: &mut ProgramList,
) -> Result<(), LoadCause>
    requires { IsSpelledWhen (option_map expr_view when.now) }
    ensures told { Knows result (when_known (manifest_view manifest.now) (class_view class.now) params.now (option_map expr_view when.now)) }
    ensures adds { OnOk result (Adds (manifest_view manifest.now) (class_view class.now) (map (λ e. (params.now, e)) (option_to_list (option_map expr_view when.now))) programs.old programs.new) }
{
    match when {
        Some(expr) => push_expr(alloc, manifest, class, params, expr, programs),
        None => Ok(()),
    }
}

// The field that a step sets is one of the class.
fn find_field(class: &Class, field: &Text) -> Result<(), LoadCause>
    ensures { Knows result (field_known (class_view class.now) field.now) }
{
    match class.fields.get(field.as_str()) {
        Some(_) => Ok(()),
        None => Err(LoadCause::UnknownName {
            kind: Kind::Field,
            name: field.copy()?,
        }),
    }
}

/// Adds the programs of the expressions of a step: its `when` first, and then, where it sets a field, which is to be one of the
/// class, the value, or else the arguments of the call.
pub fn push_step(
    alloc: Global,
    manifest: &Manifest,
    class: &Class,
    params: &Texts,
    step: &Step,
    programs: &mut ProgramList,
) -> Result<(), LoadCause>
    requires { IsSpelledStep (step_view step.now) }
    ensures told { Knows result (step_known (manifest_view manifest.now) (class_view class.now) params.now (step_view step.now)) }
    ensures adds { OnOk result (Adds (manifest_view manifest.now) (class_view class.now) (map (λ e. (params.now, e)) (step_exprs (step_view step.now))) programs.old programs.new) }
{
    push_when(alloc, manifest, class, params, &step.when, programs)?;
    match &step.kind {
        StepKind::Set { field, to } => {
            find_field(class, field)?;
            push_expr(alloc, manifest, class, params, to, programs)
        }
        StepKind::Call { args, .. } => push_exprs(alloc, manifest, class, params, args, programs),
    }
}
