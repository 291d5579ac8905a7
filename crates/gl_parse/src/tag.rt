// Opening tags, and end tags.
ghost use Rattle.std.specs.Prelude.{◌≡◌, ◌∷◌, [], IfOk, codes};
ghost use Rattle.gl_base.specs.Answers.{Gives};
ghost use Rattle.gl_ast.specs.Grammar.{is_void};
ghost use Rattle.gl_ast.specs.Marks.{is_capital, is_small};
ghost use Rattle.gl_ast.specs.TokenText.{leads};
ghost use Rattle.gl_ast.specs.View.{stmt_view};
ghost use Rattle.gl_ast.specs.Template.{body_of, slots_of};
ghost use Rattle.gl_exprs.specs.Fault.{Fails};
ghost use Rattle.gl_parse.specs.ReadStmt.{name_of, opens_void, empty_tag, full_tag, filled_tag, takes_slots, read_element, read_component, read_named_tag, opened_name, read_opening, take_end_tag};
ghost use Rattle.gl_parse.specs.View.{opening_view};

use crate::item::{TagItems, items, parameters};
use crate::statement::ascii;
use gl_ast::{Args, Block, Body, Names, Parts, Slice, Slot, Slots, Stmt, Str, TokenKind};
use gl_exprs::words::is_end_of;
use gl_exprs::{Cursor, Misread, Scan};
use std::alloc::{AllocError, Global};

/// What stands in an opening tag in front of its end: of an element its name and parts, of a component its arguments
/// and parameters too.
#[derive(Drop)]
pub enum Opening {
    Element {
        tag: Str,
        parts: Parts,
    },
    Component {
        class: Str,
        parts: Parts,
        args: Args,
        params: Names,
    },
}

impl Opening {
    /// The name of the element or component.
    pub fn name(&self) -> &Str
        ensures { result.now ≡ name_of (opening_view self.now) }
    {
        match self {
            Opening::Element { tag, .. } => tag,
            Opening::Component { class, .. } => class,
        }
    }

    /// Whether it opens an element that has no end tag.
    pub fn is_void(&self) -> bool
        ensures { result ≡ opens_void (opening_view self.now) }
    {
        match self {
            Opening::Element { tag, .. } => is_void(tag),
            Opening::Component { .. } => false,
        }
    }

    /// Whether blocks with names may stand in it: it is a component without parameters.
    pub fn takes_slots(&self) -> bool
        ensures { result ≡ takes_slots (opening_view self.now) }
    {
        match self {
            Opening::Element { .. } => false,
            Opening::Component { params, .. } => params.len() == 0,
        }
    }

    /// The statement without a body.
    pub fn into_empty(self, alloc: Global) -> Result<Stmt, AllocError>
        ensures { IfOk result (λ s. stmt_view s ≡ empty_tag (opening_view self)) }
    {
        let slots = Slots::new(alloc);
        self.into_filled(alloc, slots)
    }

    /// The statement with a body, which is a component's block `default`.
    pub fn into_full(self, alloc: Global, body: Body) -> Result<Stmt, AllocError>
        ensures { IfOk result (λ s. stmt_view s ≡ full_tag (opening_view self) (body_of body)) }
    {
        match self {
            Opening::Element { tag, parts } => Ok(Stmt::Element { tag, parts, body }),
            Opening::Component {
                class,
                parts,
                args,
                params,
            } => Ok(Stmt::Component {
                class,
                parts,
                args: Box::new(alloc, args)?,
                slots: Box::new(alloc, default_slot(alloc, params, body)?)?,
            }),
        }
    }

    /// A component with these blocks.
    pub fn into_filled(self, alloc: Global, slots: Slots) -> Result<Stmt, AllocError>
        ensures { IfOk result (λ s. stmt_view s ≡ filled_tag (opening_view self) (slots_of slots)) }
    {
        match self {
            Opening::Element { tag, parts } => Ok(Stmt::Element {
                tag,
                parts,
                body: Body::new(alloc),
            }),
            Opening::Component {
                class,
                parts,
                args,
                params: _,
            } => Ok(Stmt::Component {
                class,
                parts,
                args: Box::new(alloc, args)?,
                slots: Box::new(alloc, slots)?,
            }),
        }
    }
}

// The slots of which one is, named `default`.
fn default_slot(alloc: Global, params: Names, body: Body) -> Result<Slots, AllocError>
    ensures { IfOk result (λ ss. ss ≡ (codes "default", (params, body_of body)) ∷ []) }
{
    let name = ascii(alloc, "default")?;
    let mut slots = Slots::new(alloc);
    slots.push(Slot {
        name,
        block: Block { params, body },
    })?;
    Ok(slots)
}

// Whether the element has no end tag.
#[tactic(auto, unfolding(gl_ast::specs::Void::void_names, gl_names::specs::Void::void_rows))]
fn is_void(tag: &Str) -> bool
    ensures { result ≡ is_void tag.now }
{
    gl_names::void().find(tag.as_str()).is_some()
}

// Whether the name begins with a capital.
fn is_class(name: &Str) -> bool
    ensures { result ≡ leads is_capital name.now }
{
    matches!(Scan::new(&Slice::of(name)).next(), Some('A'..='Z'))
}

// Whether the name begins with a small letter.
fn is_element(name: &Str) -> bool
    ensures { result ≡ leads is_small name.now }
{
    matches!(Scan::new(&Slice::of(name)).next(), Some('a'..='z'))
}

// The name after `<`.
#[tactic(auto, unfolding(crate::specs::ReadStmt::opened_name))]
fn opened_name(alloc: Global, raw: &Slice) -> Result<Str, Misread>
    ensures { Gives Fails (λ n. n) result (opened_name raw.now) }
{
    let mut scan = Scan::new(raw);
    match scan.next() {
        Some('<') => Ok(Str::from_str(alloc, scan.as_str())?),
        _ => Err(Misread::NotSpelled),
    }
}

// An element's parts.
#[tactic(auto, unfolding(crate::specs::ReadStmt::read_element))]
fn element(alloc: Global, tokens: &mut Cursor, tag: Str) -> Result<Opening, Misread>
    ensures { Gives Fails (λ o. (opening_view o, tokens.new)) result (read_element tag tokens.old) }
{
    let TagItems { parts, args: _ } = items(alloc, tokens, false)?;
    Ok(Opening::Element { tag, parts })
}

// A component's parts, arguments and parameters.
#[tactic(auto, unfolding(crate::specs::ReadStmt::read_component))]
fn component(alloc: Global, tokens: &mut Cursor, class: Str) -> Result<Opening, Misread>
    ensures { Gives Fails (λ o. (opening_view o, tokens.new)) result (read_component class tokens.old) }
{
    let TagItems { parts, args } = items(alloc, tokens, true)?;
    let params = parameters(alloc, tokens)?;
    Ok(Opening::Component {
        class,
        parts,
        args,
        params,
    })
}

// A component or an element, by the first letter of its name.
#[tactic(auto, unfolding(crate::specs::ReadStmt::read_named_tag))]
fn named_tag(alloc: Global, tokens: &mut Cursor, name: Str) -> Result<Opening, Misread>
    ensures { Gives Fails (λ o. (opening_view o, tokens.new)) result (read_named_tag name tokens.old) }
{
    if is_class(&name) {
        return component(alloc, tokens, name);
    }
    if is_element(&name) {
        return element(alloc, tokens, name);
    }
    Err(Misread::NotSpelled)
}

/// An opening tag up to its end.
#[tactic(auto, unfolding(crate::specs::ReadStmt::read_opening))]
pub fn open_tag(alloc: Global, tokens: &mut Cursor) -> Result<Opening, Misread>
    ensures { Gives Fails (λ o. (opening_view o, tokens.new)) result (read_opening tokens.old) }
{
    let raw = tokens.take(TokenKind::TagOpening)?;
    let name = opened_name(alloc, raw)?;
    named_tag(alloc, tokens, name)
}

/// The end tag of the name that these characters are.
#[tactic(auto, unfolding(crate::specs::ReadStmt::take_end_tag))]
pub fn take_end_of(tokens: &mut Cursor, name: &Scan) -> Result<(), Misread>
    ensures { Gives Fails (λ _. tokens.new) result (take_end_tag name.now tokens.old) }
{
    let raw = tokens.take(TokenKind::EndTag)?;
    if is_end_of(raw, name) {
        Ok(())
    } else {
        Err(Misread::NotSpelled)
    }
}

/// The end tag of this name.
pub fn take_end_tag(tokens: &mut Cursor, name: &Str) -> Result<(), Misread>
    ensures { Gives Fails (λ _. tokens.new) result (take_end_tag name.now tokens.old) }
{
    take_end_of(tokens, &Scan::new(&Slice::of(name)))
}
