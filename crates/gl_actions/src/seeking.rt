// Instances of the updating program.
ghost use Rattle.std.specs.Prelude.{◌≡◌, [], IfOk, Some, nat_eq, if◌then◌else◌, map, option_map};
ghost use Rattle.gl_code.specs.View.{seen_owner};
ghost use Rattle.gl_vm.specs.View.{name_stamps};
ghost use Rattle.gl_machine.specs.Code.{live_of, lives_of, items_of};
ghost use Rattle.gl_code.specs.CodeView.{seen_code, seen_codes, seen_item_code, all_items};
ghost use Rattle.gl_actions.specs.Found.{instance_in, instance_among, instance_of_items};
ghost use Rattle.gl_actions.specs.FoundView.{seen_found};

use gl_code::{Code, Codes, ItemCode, Owner};
use gl_scope::Args;
use std::alloc::AllocError;

/// An instance of the updating program with its arguments.
#[derive(Clone, Copy)]
pub struct Found<'a> {
    pub owner: &'a Owner,
    pub args: &'a Args,
}

/// What is sought: the instance with a number. The root has no arguments, which are lent.
#[derive(Clone, Copy)]
pub struct Sought<'a> {
    pub number: u64,
    pub none: &'a Args,
}

/// Whether an instance has the number.
fn is_it(sought: &Sought, owner: &Owner) -> bool
    ensures { result ≡ nat_eq sought.now.number owner.now.id.1 }
{
    sought.number == owner.id.number()
}

/// The first instance with the number in what was rendered of a body.
#[cycle(seeking)]
fn seek_codes<'a>(sought: &Sought<'a>, codes: &'a Codes) -> Result<Option<Found<'a>>, AllocError>
    requires none { sought.now.none.now ≡ [] }
    ensures { IfOk result (λ o. (n : _) → option_map (seen_found n) o ≡ instance_among sought.now.number (lives_of (seen_codes n codes.now))) }
{
    for code in codes.list.as_slice() {
        let found = seek(sought, code)?;
        if found.is_some() {
            return Ok(found);
        }
    }
    Ok(None)
}

/// The first instance with the number in what was rendered of items.
#[cycle(seeking)]
fn seek_items<'a>(
    sought: &Sought<'a>,
    items: &'a Vec<ItemCode>,
) -> Result<Option<Found<'a>>, AllocError>
    requires none { sought.now.none.now ≡ [] }
    ensures { IfOk result (λ o. (n : _) → option_map (seen_found n) o ≡ instance_of_items sought.now.number (items_of (all_items (map (seen_item_code n) items.now.items)))) }
{
    for item in items.as_slice() {
        let found = seek_codes(sought, &item.body)?;
        if found.is_some() {
            return Ok(found);
        }
    }
    Ok(None)
}

/// The first instance with the number: this one, or one in its body.
#[cycle(seeking)]
fn seek_owner<'a>(
    sought: &Sought<'a>,
    owner: &'a Owner,
    args: &'a Args,
    body: &'a Codes,
) -> Result<Option<Found<'a>>, AllocError>
    requires none { sought.now.none.now ≡ [] }
    ensures { IfOk result (λ o. (n : _) → option_map (seen_found n) o ≡ (if nat_eq sought.now.number owner.now.id.1 then Some (seen_owner n owner.now, name_stamps args.now) else instance_among sought.now.number (lives_of (seen_codes n body.now)))) }
{
    if is_it(sought, owner) {
        return Ok(Some(Found { owner, args }));
    }
    seek_codes(sought, body)
}

/// The first instance with the number in what was rendered of a statement.
#[cycle(seeking)]
pub fn seek<'a>(sought: &Sought<'a>, code: &'a Code) -> Result<Option<Found<'a>>, AllocError>
    requires none { sought.now.none.now ≡ [] }
    ensures { IfOk result (λ o. (n : _) → option_map (seen_found n) o ≡ instance_in sought.now.number (live_of (seen_code n code.now))) }
{
    match code {
        Code::Still { .. } | Code::Put { .. } => Ok(None),
        Code::Element { body, .. } => seek_codes(sought, body),
        Code::Branch { body, .. } => seek_codes(sought, body),
        Code::Listed { items, .. } => seek_items(sought, items),
        Code::Unlisted { body, .. } => seek_codes(sought, body),
        Code::Let { body, .. } => seek_codes(sought, body),
        Code::Component {
            owner,
            args,
            body,
            ..
        } => seek_owner(sought, owner.as_ref(), args.as_ref(), body),
        Code::Root { owner, body } => seek_owner(sought, owner.as_ref(), sought.none, body),
        Code::Yield { body, .. } => seek_codes(sought, body),
    }
}
