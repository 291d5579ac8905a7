// The first and the last node of what was rendered, of those that stand in no other of its nodes.
ghost use Rattle.std.specs.Prelude.{◌≡◌, map};
ghost use Rattle.gl_nodes.specs.Flat.{head_of, stamp_of};
ghost use Rattle.gl_code.specs.Hung.{tops};
ghost use Rattle.gl_seats.specs.Parts.{code_nest, codes_nest, body_nest, items_nest};
ghost use Rattle.gl_seats.specs.Seats.{last_of};

use gl_code::{Code, Codes, ItemCode};
use gl_nodes::NodeId;

/// The first one of a body, or else its comment.
#[cycle(first)]
#[inline(never)]
pub(crate) fn first_top(body: &Codes, comment: &Option<NodeId>) -> Option<NodeId>
    ensures { (n : _) → stamp_of result ≡ head_of (tops (body_nest n body.now comment.now)) }
{
    match first_of_body(body) {
        Some(node) => Some(node),
        None => *comment,
    }
}

#[cycle(first)]
#[inline(never)]
fn first_of_body(body: &Codes) -> Option<NodeId>
    ensures { (n : _) → stamp_of result ≡ head_of (tops (codes_nest n body.now)) }
{
    for code in body.list.as_slice() {
        let node = first_of_code(code);
        if node.is_some() {
            return node;
        }
    }
    None
}

#[cycle(first)]
#[inline(never)]
fn first_of_code(code: &Code) -> Option<NodeId>
    ensures { (n : _) → stamp_of result ≡ head_of (tops (code_nest n code.now)) }
{
    match code {
        Code::Still { node } => Some(*node),
        Code::Put { node, .. } => Some(*node),
        Code::Element { node, .. } => Some(*node),
        Code::Branch { comment, body, .. } => first_top(body, comment),
        Code::Listed { items, .. } => first_of_items(items.as_slice()),
        Code::Unlisted { comment, body, .. } => first_top(body, comment),
        Code::Let { body, .. } => first_of_body(body),
        Code::Component { body, .. } => first_of_body(body),
        Code::Root { body, .. } => first_of_body(body),
        Code::Yield { body, .. } => first_of_body(body),
    }
}

#[cycle(first)]
#[inline(never)]
fn first_of_items(items: &[ItemCode]) -> Option<NodeId>
    ensures { (n : _) → stamp_of result ≡ head_of (tops (items_nest n items.now)) }
{
    for item in items {
        let node = first_top(&item.body, &item.comment);
        if node.is_some() {
            return node;
        }
    }
    None
}

/// The comment of a body, or else the last one of it.
#[cycle(last)]
#[inline(never)]
pub(crate) fn last_top(body: &Codes, comment: &Option<NodeId>) -> Option<NodeId>
    ensures { (n : _) → stamp_of result ≡ last_of (tops (body_nest n body.now comment.now)) }
{
    match comment {
        Some(node) => Some(*node),
        None => last_of_body(body),
    }
}

#[cycle(last)]
#[inline(never)]
fn last_of_body(body: &Codes) -> Option<NodeId>
    ensures { (n : _) → stamp_of result ≡ last_of (tops (codes_nest n body.now)) }
{
    for code in body.list.as_slice().iter().rev() {
        let node = last_of_code(code);
        if node.is_some() {
            return node;
        }
    }
    None
}

#[cycle(last)]
#[inline(never)]
fn last_of_code(code: &Code) -> Option<NodeId>
    ensures { (n : _) → stamp_of result ≡ last_of (tops (code_nest n code.now)) }
{
    match code {
        Code::Still { node } => Some(*node),
        Code::Put { node, .. } => Some(*node),
        Code::Element { node, .. } => Some(*node),
        Code::Branch { comment, body, .. } => last_top(body, comment),
        Code::Listed { items, .. } => last_of_items(items.as_slice()),
        Code::Unlisted { comment, body, .. } => last_top(body, comment),
        Code::Let { body, .. } => last_of_body(body),
        Code::Component { body, .. } => last_of_body(body),
        Code::Root { body, .. } => last_of_body(body),
        Code::Yield { body, .. } => last_of_body(body),
    }
}

#[cycle(last)]
#[inline(never)]
fn last_of_items(items: &[ItemCode]) -> Option<NodeId>
    ensures { (n : _) → stamp_of result ≡ last_of (tops (items_nest n items.now)) }
{
    for item in items.iter().rev() {
        let node = last_top(&item.body, &item.comment);
        if node.is_some() {
            return node;
        }
    }
    None
}
