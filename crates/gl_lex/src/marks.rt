// Tags, comments and the ends of mustaches. Each function gives what is left after one.
ghost use Rattle.std.specs.Prelude.{◌≡◌, option_map};
ghost use Rattle.gl_base.specs.Names.{or_else};
ghost use Rattle.gl_ast.specs.Scans as a;
ghost use Rattle.gl_ast.specs.Words as w;
ghost use Rattle.gl_lex.specs.Clear.{IsClear};

use crate::scan::{after, after_any, from_first};
use crate::sign::Sign;
use crate::words::{after_label, after_white};

/// After an end tag.
#[tactic(auto, unfolding(gl_ast::specs::Words::after_end_tag))]
pub fn after_end_tag(bytes: &[u8]) -> Option<&[u8]>
    ensures { option_map (λ r. r.now) result ≡ w.after_end_tag bytes.now }
{
    let name = after(b"</", bytes)?;
    let end = after_label(name)?;
    after(b">", after_white(end))
}

/// After `<` and what the tag names.
#[tactic(auto, unfolding(gl_ast::specs::Words::after_tag_opening))]
pub fn after_tag_opening(bytes: &[u8]) -> Option<&[u8]>
    ensures { option_map (λ r. r.now) result ≡ w.after_tag_opening bytes.now }
{
    let name = after(b"<", bytes)?;
    after_label(name)
}

/// After `<!--` and all up to the first `-->`.
#[tactic(auto, unfolding(gl_ast::specs::Words::after_html_comment))]
pub fn after_html_comment(bytes: &[u8]) -> Option<&[u8]>
    ensures { option_map (λ r. r.now) result ≡ w.after_html_comment bytes.now }
{
    let inner = after(b"<!--", bytes)?;
    let end = from_first(Sign::HtmlEnd, inner)?;
    after(b"-->", end)
}

// After the first of two fronts that stands there.
fn after_either<'a>(front: &[u8], other: &[u8], bytes: &'a [u8]) -> Option<&'a [u8]>
    ensures { option_map (λ r. r.now) result ≡ or_else (a.after front.now bytes.now) (a.after other.now bytes.now) }
{
    match after(front, bytes) {
        Some(rest) => Some(rest),
        None => after(other, bytes),
    }
}

// After a mustache comment of the long form. In the last `clear` bytes no such comment ends.
#[tactic(auto, unfolding(gl_ast::specs::Words::after_long_comment))]
fn after_long_comment<'a>(bytes: &'a [u8], clear: &mut usize) -> Option<&'a [u8]>
    requires { IsClear clear.old bytes.now }
    ensures value { option_map (λ r. r.now) result ≡ w.after_long_comment bytes.now }
    ensures clear { IsClear clear.new bytes.now }
{
    let inner = after_either(b"{{!--", b"{{~!--", bytes)?;
    if inner.len() <= *clear {
        return None;
    }
    match from_first(Sign::LongEnd, inner) {
        Some(end) => after_either(b"--}}", b"--~}}", end),
        None => {
            *clear = inner.len();
            None
        }
    }
}

#[tactic(auto, unfolding(gl_ast::specs::Words::after_short_comment))]
fn after_short_comment(bytes: &[u8]) -> Option<&[u8]>
    ensures { option_map (λ r. r.now) result ≡ w.after_short_comment bytes.now }
{
    let inner = after_either(b"{{!", b"{{~!", bytes)?;
    let end = from_first(Sign::ShortEnd, inner)?;
    after(b"}}", end)
}

/// After a mustache comment. In the last `clear` bytes no comment of the long form ends.
#[tactic(auto, unfolding(gl_ast::specs::Words::after_comment))]
pub fn after_comment<'a>(bytes: &'a [u8], clear: &mut usize) -> Option<&'a [u8]>
    requires { IsClear clear.old bytes.now }
    ensures value { option_map (λ r. r.now) result ≡ w.after_comment bytes.now }
    ensures clear { IsClear clear.new bytes.now }
{
    match after_long_comment(bytes, clear) {
        Some(rest) => Some(rest),
        None => after_short_comment(bytes),
    }
}

/// After `{{` or `{{~`.
#[tactic(auto, unfolding(gl_ast::specs::Words::after_opening))]
pub fn after_opening(bytes: &[u8]) -> Option<&[u8]>
    ensures { option_map (λ r. r.now) result ≡ w.after_opening bytes.now }
{
    let rest = after(b"{{", bytes)?;
    Some(after_any(b"~", rest))
}

/// After `}}` or `~}}`.
#[tactic(auto, unfolding(gl_ast::specs::Words::after_mustache))]
pub fn after_mustache(bytes: &[u8]) -> Option<&[u8]>
    ensures { option_map (λ r. r.now) result ≡ w.after_mustache bytes.now }
{
    after_either(b"}}", b"~}}", bytes)
}
