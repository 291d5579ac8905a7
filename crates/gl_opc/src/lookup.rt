// Looking names up.
ghost use Rattle.std.specs.Prelude.{◌≡◌, suc, [], ◌∷◌, IfOk, MatchOption, codes};
ghost use Rattle.std.specs.Str.{bytes_eq, chars};
ghost use Rattle.gl_meaning.specs.View.{kind_view};
ghost use Rattle.gl_opc.specs.Linked.{Meets, known, argument_name};
ghost use Rattle.gl_opc.specs.Numbers.{number_in, keys, class_number, modifier_number, helper_number, member_op};
ghost use Rattle.gl_opc.specs.State.{context_view};

use crate::LinkFault;
use crate::context::Context;
use crate::linker::number32;
use crate::names::place;
use gl_meaning::Kind;
use gl_names::helpers;
use gl_ops::Op;
use gl_value::Text;
use std::alloc::{AllocError, Global};

/// What is looked up of a name in a statement, or the name as unknown.
pub fn known<T>(place: u64, kind: Kind, name: &Text, found: Option<T>) -> Result<T, LinkFault>
    ensures { Meets (λ x. x) result (known place (kind_view kind) name.now found) }
{
    match found {
        Some(thing) => Ok(thing),
        None => Err(LinkFault::UnknownName {
            kind,
            name: name.copy()?,
            place,
        }),
    }
}

// The place in 32 bits.
fn number(place: Option<usize>) -> Result<Option<u32>, AllocError>
    ensures { IfOk result (λ n. n ≡ place) }
{
    match place {
        Some(place) => Ok(Some(number32(place)?)),
        None => Ok(None),
    }
}

/// The number of a class.
pub fn class_number(context: &Context, name: &Text) -> Result<Option<u32>, AllocError>
    ensures { IfOk result (λ n. n ≡ class_number (context_view context.now).manifest name.now) }
{
    number(place(context.manifest.classes.as_slice(), context.rise, name))
}

/// The number after another.
pub fn next(number: u32) -> Result<u32, AllocError>
    ensures { IfOk result (λ n. n ≡ suc number) }
{
    number.checked_add(1).ok_or(AllocError)
}

fn is_on(name: &Text) -> bool
    ensures { result ≡ bytes_eq name.now (codes "on") }
{
    name.as_str() == "on"
}

/// The number of a modifier: `on` is 0, and the manifest's are from 1 on.
pub fn modifier_number(context: &Context, name: &Text) -> Result<Option<u32>, AllocError>
    ensures { IfOk result (λ n. n ≡ modifier_number (context_view context.now).manifest name.now) }
{
    if is_on(name) {
        return Ok(Some(0));
    }
    match number(context.modifiers.place(&context.manifest.modifiers, name))? {
        Some(number) => Ok(Some(next(number)?)),
        None => Ok(None),
    }
}

/// The number of a helper.
pub fn helper_number(name: &Text) -> Option<u32>
    ensures { result ≡ helper_number name.now }
{
    helpers().find(name.as_str()).map(|number| number as u32)
}

fn field_number(context: &Context, name: &Text) -> Result<Option<u32>, AllocError>
    ensures { IfOk result (λ n. n ≡ number_in (keys (context_view context.now).class.fields) name.now) }
{
    number(place(context.class.fields.as_slice(), context.rise, name))
}

fn getter_number(context: &Context, name: &Text) -> Result<Option<u32>, AllocError>
    ensures { IfOk result (λ n. n ≡ number_in (keys (context_view context.now).class.getters) name.now) }
{
    number(place(context.class.getters.as_slice(), context.rise, name))
}

fn action_number(context: &Context, name: &Text) -> Result<Option<u32>, AllocError>
    ensures { IfOk result (λ n. n ≡ number_in (keys (context_view context.now).class.actions) name.now) }
{
    number(place(context.class.actions.as_slice(), context.rise, name))
}

/// The opcode of a member of `this`.
pub fn member_op(context: &Context, name: &Text) -> Result<Option<Op>, AllocError>
    ensures { IfOk result (λ o. o ≡ member_op (context_view context.now).class name.now) }
{
    if let Some(a) = field_number(context, name)? {
        return Ok(Some(Op::Field { a }));
    }
    if let Some(a) = getter_number(context, name)? {
        return Ok(Some(Op::Getter { a }));
    }
    match action_number(context, name)? {
        Some(a) => Ok(Some(Op::Action { a })),
        None => Ok(None),
    }
}

// The first character of a text, and what stands after it.
fn first_of(text: &Text) -> (Option<char>, &str)
    ensures { MatchOption result.0 ((text.now ≡ []) × (chars result.1.now ≡ [])) (λ c. text.now ≡ c ∷ chars result.1.now) }
{
    let mut left = text.as_str().chars();
    let first = left.next();
    (first, left.as_str())
}

/// The name of an argument, where the symbol is one's.
pub fn argument_name(alloc: Global, symbol: &Text) -> Result<Option<Text>, AllocError>
    ensures { IfOk result (λ o. o ≡ argument_name symbol.now) }
{
    let first = first_of(symbol);
    match first.0 {
        Some('@') => Ok(Some(Text::from_str(alloc, first.1)?)),
        _ => Ok(None),
    }
}
