// The place at which a text leaves the grammar.
ghost use Rattle.std.specs.Prelude.{◌≡◌, IfOk, ◌∷◌, [], true};
ghost use Rattle.gl_parse.specs.Due as d;
ghost use Rattle.gl_parse.specs.Dues.{seen, Meets, IsStep, due_view, name_of};

use crate::due::{Due, Tag};
use crate::stack::{due, next};
use crate::{starts, starts_content as content, starts_slots as slots, starts_tag as tag};
use gl_ast::Token;
use std::alloc::{AllocError, Global};

// The tag, which is that of a component.
fn component(tag: Tag) -> Tag
    ensures name { name_of result ≡ name_of tag.entry }
    ensures component { result.component ≡ true }
    ensures depth { result.depth ≡ tag.entry.depth }
{
    Tag {
        opening: tag.opening,
        component: true,
        depth: tag.depth,
    }
}

// Whether the token can stand where this is due, and then what it leaves due is put in front.
#[tactic(auto, unfolding(crate::specs::Due::due_after, crate::specs::Due::starts_target), using(crate::proofs::Meeting::meeting))]
fn takes_first<'a>(
    alloc: Global,
    list: &mut Vec<Due<'a>>,
    first: Due<'a>,
    token: &'a Token<'a>,
) -> Result<bool, AllocError>
    ensures { Meets result (d.due_after (due_view first.entry) token.now) (seen list.old.items) (seen list.new.items) }
{
    match first {
        Due::Kind(kind) => Ok(token.kind == kind),
        Due::Word(word) => Ok(starts::is_word(content::text_of(word), token)),
        Due::Expr(calls) => starts::one(alloc, list, calls, token),
        Due::Called(calls, end) => starts::called(list, calls, end, token),
        Due::Arguments(calls, end) => starts::arguments(alloc, list, calls, end, token),
        Due::AfterName(calls, end) => starts::after_name(alloc, list, calls, end, token),
        Due::Named(calls, end) => starts::named(list, calls, end, token),
        Due::Inner => starts::inner(alloc, list, token),
        Due::Values => starts::values(alloc, list, token),
        Due::AfterTo => starts::after_to(alloc, list, token),
        Due::Target => starts::target(alloc, token),
        Due::Value => tag::value(list, token),
        Due::Quoted(quoted) => tag::quoted(list, quoted, token),
        Due::Items(tag) => tag::items(alloc, list, tag, token),
        Due::Given(tag) => tag::given(alloc, list, tag, token),
        Due::TagEnd(tag, bare) => tag::tag_end(list, component(tag), bare, token),
        Due::Filling(depth, opening) => slots::filling(alloc, list, depth, opening, token),
        Due::Slots(depth, opening, names) => {
            slots::slots(alloc, list, depth, opening, names, token)
        }
        Due::SlotTag(depth, opening) => slots::slot_tag(list, depth, opening, token),
        Due::Content(depth, stop) => content::content(list, depth, stop, token),
        Due::Opened(depth, stop) => content::opened(alloc, list, depth, stop, token),
        Due::AfterElse(depth, word) => content::after_else(list, depth, word, token),
        Due::Head(depth) => content::head(list, depth, token),
        Due::FirstValue(depth, stop) => content::first_value(alloc, list, depth, stop, token),
        Due::MoreValues(depth, stop) => content::more_values(alloc, list, depth, stop, token),
        Due::EachKey(depth, stop) => content::each_key(alloc, list, depth, stop, token),
        Due::EachParameters(depth, stop) => content::each_parameters(
            alloc, list, depth, stop, token,
        ),
    }
}

// Whether the token can stand next; then the list is what is due after it.
#[tactic(auto, using(crate::proofs::Meeting::meets_step))]
fn takes<'a>(
    alloc: Global,
    list: &mut Vec<Due<'a>>,
    token: &'a Token<'a>,
) -> Result<bool, AllocError>
    ensures { IsStep result (d.step (seen list.old.items) token.now) (seen list.new.items) }
{
    match next(list) {
        None => Ok(false),
        Some(first) => takes_first(alloc, list, first, token),
    }
}

/// The first byte of the first token that can't stand where it does, where this is due at first; the end where each
/// token can.
pub fn place<'a>(
    alloc: Global,
    first: Due<'a>,
    tokens: &'a [Token<'a>],
    end: u64,
) -> Result<u64, AllocError>
    ensures { IfOk result (λ n. n ≡ d.place_of end (d.refused (due_view first.entry ∷ []) tokens.now)) }
{
    let mut list = Vec::new(alloc);
    due(&mut list, first)?;
    let mut rest = tokens;
    while let [token, tail @ ..] = rest {
        if !takes(alloc, &mut list, token)? {
            return Ok(token.start);
        }
        rest = tail;
    }
    Ok(end)
}
