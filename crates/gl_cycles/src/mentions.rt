// The members that getters mention.
ghost use Rattle.std.specs.Prelude.{◌≡◌, ◌≤◌, length, position};
ghost use Rattle.std.specs.Str.{bytes_eq};
ghost use Rattle.gl_ast.specs.Template.{exprs_of, named_of};
ghost use Rattle.gl_ast.specs.View.{expr_view, seen_pairs};
ghost use Rattle.gl_meaning.specs.Known.{mentions, all_mentions, named_mentions};
ghost use Rattle.gl_cycles.specs.Cycles.{most_getters};
ghost use Rattle.gl_cycles.specs.Marks.{place, with_place, with_names, AreMentions};

use crate::marks::{Marks, PLACES, with_mark};
use gl_ast::{Expr, Exprs, NamedExpr, Pairs, Str};

// The place of the first getter of that name.
fn place_of(getters: &[NamedExpr], name: &Str) -> Option<usize>
    ensures { result ≡ position (λ g. bytes_eq name.now g.name) getters.now }
{
    getters.iter().position(|getter| name.same(&getter.name))
}

// The marks with that of the getter of that name, where there is one.
fn mark_name(getters: &[NamedExpr], name: &Str, marks: Marks) -> Marks
    requires { length getters.now ≤ most_getters }
    ensures { result ≡ with_place marks (place name.now (seen_pairs getters.now)) }
{
    match place_of(getters, name) {
        Some(place) => with_mark(marks, place),
        None => marks,
    }
}

// The marks with those of the getters that an expression mentions.
#[cycle(mentions)]
#[tactic(auto, using(crate::proofs::Marking::names_after))]
fn mark_expr(getters: &[NamedExpr], expr: &Expr, marks: Marks) -> Marks
    requires { length getters.now ≤ most_getters }
    ensures { result ≡ with_names (seen_pairs getters.now) marks (mentions (expr_view expr.now)) }
{
    match expr {
        Expr::This { member, rest: _ } => mark_name(getters, member, marks),
        Expr::Call {
            name: _,
            args,
            named,
        } => mark_named(getters, &**named, mark_exprs(getters, args, marks)),
        Expr::Cat(parts) => mark_exprs(getters, parts, marks),
        _ => marks,
    }
}

#[cycle(mentions)]
#[tactic(auto, using(crate::proofs::Marking::names_after))]
fn mark_exprs(getters: &[NamedExpr], exprs: &Exprs, marks: Marks) -> Marks
    requires { length getters.now ≤ most_getters }
    ensures { result ≡ with_names (seen_pairs getters.now) marks (all_mentions (exprs_of exprs.now)) }
{
    let mut all = marks;
    for item in exprs.as_slice() {
        all = mark_expr(getters, item, all);
    }
    all
}

#[cycle(mentions)]
#[tactic(auto, using(crate::proofs::Marking::names_after))]
fn mark_named(getters: &[NamedExpr], named: &Pairs, marks: Marks) -> Marks
    requires { length getters.now ≤ most_getters }
    ensures { result ≡ with_names (seen_pairs getters.now) marks (named_mentions (named_of named.now)) }
{
    let mut all = marks;
    for pair in named.as_slice() {
        all = mark_expr(getters, &pair.value, all);
    }
    all
}

/// For each getter the places of those that it mentions.
pub fn rows_of(getters: &[NamedExpr]) -> [Marks; PLACES]
    requires { length getters.now ≤ most_getters }
    ensures { AreMentions result (seen_pairs getters.now) }
{
    let mut rows = [0; PLACES];
    for (place, getter) in getters.iter().enumerate() {
        rows[place] = mark_expr(getters, &getter.value, 0);
    }
    rows
}
