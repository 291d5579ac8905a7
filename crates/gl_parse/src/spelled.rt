// The tree of a template, and of an expression.
ghost use Rattle.std.specs.Prelude.{◌≡◌, ◌∷◌, [], IfErr, MatchResult, length, true, false};
ghost use Rattle.std.specs.Str.{is_utf8};
ghost use Rattle.std.specs.Str.Lossy.{utf8_valid_len};
ghost use Rattle.gl_base.specs.Answers.{Gives};
ghost use Rattle.gl_ast.specs.Grammar.{Spells, SpellsExpr};
ghost use Rattle.gl_ast.specs.Template.{body_of};
ghost use Rattle.gl_ast.specs.View.{expr_view};
ghost use Rattle.gl_exprs.specs.Fault.{Fails, IsWithin, Names, Refuses, Tells};
ghost use Rattle.gl_parse.specs.Due.{refused, place_of, template_due, expression_due};
ghost use Rattle.gl_parse.specs.Dues.{due_view};
ghost use Rattle.gl_parse.specs.FaultPlace.{text_place, template_place, expression_place};
ghost use Rattle.gl_parse.specs.Place.{Answers, IsTemplatePlace, IsExpressionPlace};
ghost use Rattle.gl_parse.specs.ReadStmt.{nothing_left, read_template, read_lone, text_tree, template_of, expression_of};

use crate::body::{DEEPEST_NESTING, body};
use crate::due::{Due, Stop};
use crate::place::place;
use gl_ast::{Body, Expr, Template, Token};
use gl_exprs::expr::{DEEPEST_CALLS, expr};
use gl_exprs::{Cursor, Misread, ParseFault};
use gl_lex::{expression_front, template_front};
use gl_space::settle;
use std::alloc::Global;
use std::str;

// The text that the bytes are, or how many bytes of them are text.
#[tactic(auto, using(crate::proofs::Utf8::tested))]
fn as_text(bytes: &[u8]) -> Result<&str, usize>
    ensures { MatchResult result (λ t. (is_utf8 bytes.now ≡ true) × (t.now ≡ bytes.now)) (λ n. (is_utf8 bytes.now ≡ false) × (n ≡ utf8_valid_len bytes.now)) }
{
    match str::from_utf8(bytes) {
        Ok(text) => Ok(text),
        Err(fault) => Err(fault.valid_up_to()),
    }
}

// Whether no token is left.
fn nothing_left(tokens: &Cursor) -> bool
    ensures { result ≡ nothing_left tokens.now }
{
    tokens.is_empty()
}

// The template that the tokens spell.
#[tactic(auto, unfolding(crate::specs::ReadStmt::read_template, crate::specs::ReadStmt::whole))]
fn read_template<'a>(alloc: Global, tokens: &'a [Token<'a>]) -> Result<Body, Misread>
    ensures { Gives Fails (λ b. body_of b) result (read_template tokens.now) }
{
    let mut cursor = Cursor::new(tokens);
    let tree = body(alloc, &mut cursor, DEEPEST_NESTING)?;
    if !nothing_left(&cursor) {
        return Err(Misread::NotSpelled);
    }
    Ok(tree)
}

// The expression that the tokens spell.
#[tactic(auto, unfolding(crate::specs::ReadStmt::read_lone, crate::specs::ReadStmt::whole))]
fn read_expression<'a>(alloc: Global, tokens: &'a [Token<'a>]) -> Result<Expr, Misread>
    ensures { Gives Fails (λ e. expr_view e) result (read_lone tokens.now) }
{
    let mut cursor = Cursor::new(tokens);
    let tree = expr(alloc, &mut cursor, DEEPEST_CALLS)?;
    if !nothing_left(&cursor) {
        return Err(Misread::NotSpelled);
    }
    Ok(tree)
}

// The fault of tokens that leave the grammar, where this is due at first, and which end at this place.
fn fault_of<'a>(alloc: Global, first: Due<'a>, tokens: &'a [Token<'a>], end: u64) -> ParseFault
    ensures { Names (place_of end (refused (due_view first.entry ∷ []) tokens.now)) result }
{
    match place(alloc, first, tokens, end) {
        Ok(offset) => ParseFault::NotInGrammar { offset },
        Err(_) => ParseFault::Memory,
    }
}

// The template that all tokens of a text of so many bytes spell.
fn whole_template<'a>(alloc: Global, tokens: &'a [Token<'a>], size: u64) -> Result<Body, ParseFault>
    ensures tree { Gives Refuses (λ b. body_of b) result (read_template tokens.now) }
    ensures place { IfErr result (Names (place_of size (refused template_due tokens.now))) }
{
    match read_template(alloc, tokens) {
        Ok(tree) => Ok(tree),
        Err(Misread::Memory) => Err(ParseFault::Memory),
        Err(Misread::NotSpelled) => {
            let first = Due::Content(DEEPEST_NESTING, Stop::Whole);
            Err(fault_of(alloc, first, tokens, size))
        }
    }
}

// The expression that all tokens of a text of so many bytes spell.
fn whole_expression<'a>(
    alloc: Global,
    tokens: &'a [Token<'a>],
    size: u64,
) -> Result<Expr, ParseFault>
    ensures tree { Gives Refuses (λ e. expr_view e) result (read_lone tokens.now) }
    ensures place { IfErr result (Names (place_of size (refused expression_due tokens.now))) }
{
    match read_expression(alloc, tokens) {
        Ok(tree) => Ok(tree),
        Err(Misread::Memory) => Err(ParseFault::Memory),
        Err(Misread::NotSpelled) => Err(fault_of(alloc, Due::Expr(DEEPEST_CALLS), tokens, size)),
    }
}

// The tree that a text spells.
#[tactic(auto, using(crate::proofs::Fronts::fronts))]
fn text_tree(alloc: Global, text: &str) -> Result<Body, ParseFault>
    ensures tree { Gives Refuses (λ b. body_of b) result (text_tree text.now) }
    ensures place { IfErr result (Names (text_place text.now)) }
{
    let front = template_front(alloc, text)?;
    let stop = front.stop;
    let list = settle(text, front.tokens);
    match stop {
        None => whole_template(alloc, list.as_slice(), text.len() as u64),
        Some(end) => {
            let first = Due::Content(DEEPEST_NESTING, Stop::Whole);
            Err(fault_of(alloc, first, list.as_slice(), end))
        }
    }
}

// The expression that a text spells.
#[tactic(auto, using(crate::proofs::Fronts::fronts))]
fn text_expression(alloc: Global, text: &str) -> Result<Expr, ParseFault>
    ensures tree { Gives Refuses (λ e. expr_view e) result (expression_of text.now) }
    ensures place { IfErr result (Names (expression_place text.now)) }
{
    let front = expression_front(alloc, text)?;
    let stop = front.stop;
    let list = front.tokens;
    match stop {
        None => whole_expression(alloc, list.as_slice(), text.len() as u64),
        Some(end) => Err(fault_of(alloc, Due::Expr(DEEPEST_CALLS), list.as_slice(), end)),
    }
}

// The tree that bytes spell.
#[tactic(auto, unfolding(crate::specs::ReadStmt::template_of, crate::specs::FaultPlace::template_place))]
fn tree(alloc: Global, bytes: &[u8]) -> Result<Body, ParseFault>
    ensures tree { Gives Refuses (λ b. body_of b) result (template_of bytes.now) }
    ensures place { IfErr result (Names (template_place bytes.now)) }
{
    match as_text(bytes) {
        Ok(text) => text_tree(alloc, text),
        Err(place) => Err(ParseFault::NotInGrammar {
            offset: place as u64,
        }),
    }
}

/// The template that the bytes spell; there is at most one. `NotInGrammar` exactly where they spell none, as where they
/// are not UTF-8. Its offset counts bytes: it is that of the first token which no template has after the tokens before
/// it; where there is none it is that of the first place where no token stands, or their number where the tokens end too
/// early, or where they end within a token; of bytes that are not UTF-8 it is that of the first that isn't.
pub fn template(alloc: Global, bytes: &[u8]) -> Result<Template, ParseFault>
    ensures answer { Answers (λ t. body_of t.body) (Spells bytes.now) (IsTemplatePlace bytes.now) result }
    ensures tree { Tells (λ t. body_of t.body) (Spells bytes.now) result }
    ensures place { IfErr result (Names (template_place bytes.now)) }
    ensures within { IfErr result (IsWithin (length bytes.now)) }
{
    match tree(alloc, bytes) {
        Ok(body) => Ok(Template::new(body)),
        Err(fault) => Err(fault),
    }
}

/// The expression that the text spells, with white space round it or not; there is at most one. `NotInGrammar` exactly
/// where it spells none; its offset as for a template.
pub fn expression(alloc: Global, text: &str) -> Result<Expr, ParseFault>
    ensures answer { Answers expr_view (SpellsExpr text.now) (IsExpressionPlace text.now) result }
    ensures tree { Tells expr_view (SpellsExpr text.now) result }
    ensures place { IfErr result (Names (expression_place text.now)) }
    ensures within { IfErr result (IsWithin (length text.now)) }
{
    text_expression(alloc, text)
}
