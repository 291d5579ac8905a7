// What an opening tag has.
ghost use Rattle.std.specs.Prelude.{◌≡◌, ◌∷◌, ◌++◌, [], OnOk};
ghost use Rattle.gl_base.specs.Answers.{Gives};
ghost use Rattle.gl_ast.specs.Grammar.{after_comments, parts_among, arguments_among};
ghost use Rattle.gl_exprs.specs.Fault.{Fails};
ghost use Rattle.gl_parse.specs.ReadItem as read;
ghost use Rattle.gl_parse.specs.ReadStmt.{read_parameters};
ghost use Rattle.gl_parse.specs.View.{item_view};

use crate::value::given;
use gl_ast::{Args, Argument, Names, Part, Parts, Str, TokenKind};
use gl_exprs::expr::{DEEPEST_CALLS, arguments};
use gl_exprs::name::{is_argument, name};
use gl_exprs::words::{parameters_of, without_first};
use gl_exprs::{Cursor, Misread};
use std::alloc::{AllocError, Global};

/// The parts and the arguments of a tag.
#[derive(Drop)]
pub struct TagItems {
    pub parts: Parts,
    pub args: Args,
}

/// A part or an argument.
#[derive(Drop)]
pub enum Item {
    Part(Part),
    Argument(Argument),
}

#[tactic(auto, unfolding(crate::specs::ReadItem::read_attribute))]
fn attribute(alloc: Global, tokens: &mut Cursor) -> Result<Item, Misread>
    ensures { Gives Fails (λ i. (item_view i, tokens.new)) result (read.read_attribute tokens.old) }
{
    let name = tokens.take(TokenKind::Attribute)?.copy(alloc)?;
    let value = given(alloc, tokens)?;
    Ok(Item::Part(Part::Attr { name, value }))
}

// An argument's name, which stands after `@`.
#[tactic(auto, unfolding(crate::specs::ReadItem::read_at))]
fn at_name(alloc: Global, tokens: &mut Cursor) -> Result<Str, Misread>
    ensures { Gives Fails (λ n. (n, tokens.new)) result (read.read_at tokens.old) }
{
    let raw = tokens.take(TokenKind::Argument)?;
    if !is_argument(raw) {
        return Err(Misread::NotSpelled);
    }
    Ok(without_first(alloc, raw)?)
}

#[tactic(auto, unfolding(crate::specs::ReadItem::read_argument))]
fn argument(alloc: Global, tokens: &mut Cursor) -> Result<Item, Misread>
    ensures { Gives Fails (λ i. (item_view i, tokens.new)) result (read.read_argument tokens.old) }
{
    let name = at_name(alloc, tokens)?;
    let value = given(alloc, tokens)?;
    Ok(Item::Argument(Argument { name, value }))
}

#[tactic(auto, unfolding(crate::specs::ReadItem::read_modifier))]
fn modifier(alloc: Global, tokens: &mut Cursor) -> Result<Item, Misread>
    ensures { Gives Fails (λ i. (item_view i, tokens.new)) result (read.read_modifier tokens.old) }
{
    let _ = tokens.take(TokenKind::OpenMustache)?;
    let name = name(alloc, tokens)?;
    let given = arguments(alloc, tokens, DEEPEST_CALLS)?;
    let _ = tokens.take(TokenKind::CloseMustache)?;
    Ok(Item::Part(Part::Mod {
        name,
        args: given.args,
        named: Box::new(alloc, given.named)?,
    }))
}

// `...attributes`
#[tactic(auto, unfolding(crate::specs::ReadItem::read_spread))]
fn spread(tokens: &mut Cursor) -> Result<Item, Misread>
    ensures { Gives Fails (λ i. (item_view i, tokens.new)) result (read.read_spread tokens.old) }
{
    let _ = tokens.take(TokenKind::Spread)?;
    Ok(Item::Part(Part::Spread))
}

// Whether the first token of an item comes next.
#[tactic(auto, unfolding(crate::specs::ReadItem::starts_item))]
fn starts_item(tokens: &Cursor, component: bool) -> bool
    ensures { result ≡ read.starts_item component tokens.now }
{
    tokens.stands(TokenKind::Attribute)
        || tokens.stands(TokenKind::OpenMustache)
        || tokens.stands(TokenKind::Spread)
        || (component && tokens.stands(TokenKind::Argument))
}

#[tactic(auto, unfolding(crate::specs::ReadItem::read_item))]
fn next_item(alloc: Global, tokens: &mut Cursor) -> Result<Item, Misread>
    ensures { Gives Fails (λ i. (item_view i, tokens.new)) result (read.read_item tokens.old) }
{
    if tokens.stands(TokenKind::Attribute) {
        attribute(alloc, tokens)
    } else if tokens.stands(TokenKind::OpenMustache) {
        modifier(alloc, tokens)
    } else if tokens.stands(TokenKind::Spread) {
        spread(tokens)
    } else {
        argument(alloc, tokens)
    }
}

// Whether a mustache comment comes next.
fn stands_comment(tokens: &Cursor) -> bool
    ensures { result ≡ read.starts_comment tokens.now }
{
    match tokens.first() {
        Some(token) => matches!(token.kind, TokenKind::MustacheComment),
        None => false,
    }
}

// Passes over mustache comments.
fn skip_comments(tokens: &mut Cursor)
    ensures { tokens.new ≡ after_comments tokens.old }
{
    while stands_comment(tokens) {
        *tokens = tokens.ahead();
    }
}

// Adds an item.
fn add_item(found: &mut TagItems, item: Item) -> Result<(), AllocError>
    ensures parts { OnOk result (found.new.parts ≡ found.old.parts ++ parts_among (item_view item ∷ [])) }
    ensures arguments { OnOk result (found.new.args ≡ found.old.args ++ arguments_among (item_view item ∷ [])) }
{
    match item {
        Item::Part(part) => found.parts.push(part),
        Item::Argument(argument) => found.args.push(argument),
    }
}

/// All items of a tag, and the mustache comments among them. Arguments are items of components alone.
#[tactic(auto, unfolding(crate::specs::ReadItem::read_tag_items, crate::specs::ReadItem::read_items))]
pub fn items(alloc: Global, tokens: &mut Cursor, component: bool) -> Result<TagItems, Misread>
    ensures { Gives Fails (λ i. ((i.parts, i.args), tokens.new)) result (read.read_tag_items component tokens.old) }
{
    let mut found = TagItems {
        parts: Parts::new(alloc),
        args: Args::new(alloc),
    };
    skip_comments(tokens);
    while starts_item(tokens, component) {
        let next = next_item(alloc, tokens)?;
        add_item(&mut found, next)?;
        skip_comments(tokens);
    }
    Ok(found)
}

/// The names of `as |..|`, or none.
#[tactic(auto, unfolding(crate::specs::ReadStmt::read_parameters))]
pub fn parameters(alloc: Global, tokens: &mut Cursor) -> Result<Names, Misread>
    ensures { Gives Fails (λ ns. (ns, tokens.new)) result (read_parameters tokens.old) }
{
    if tokens.stands(TokenKind::Parameters) {
        let raw = tokens.take(TokenKind::Parameters)?;
        Ok(parameters_of(alloc, raw)?)
    } else {
        Ok(Names::new(alloc))
    }
}
