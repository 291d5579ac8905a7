// What names name in a class and in the scope of an action.
ghost use Rattle.std.specs.Prelude.{◌≡◌, position, option_map};
ghost use Rattle.std.specs.Str.{bytes_eq};
ghost use Rattle.gl_value.specs.View.{view, seen_entries};
ghost use Rattle.gl_base.specs.Names.{named, last_named};
ghost use Rattle.gl_ast.specs.View.{expr_view, seen_pairs};
ghost use Rattle.gl_meaning.specs.View.{action_view, seen_actions, class_view, seen_classes};
ghost use Rattle.gl_actions.specs.Classes.{entry_named};

use gl_ast::{Expr, NamedExpr};
use gl_meaning::{Action, Class};
use gl_value::{Text, Value};

/// The first class of a name.
pub fn class_of<'a>(classes: &'a [Class], name: &Text) -> Option<&'a Class>
    ensures { option_map (λ c. class_view c.now) result ≡ entry_named name.now (seen_classes classes.now) }
{
    for class in classes {
        if name.same(&class.name) {
            return Some(class);
        }
    }
    None
}

/// The place of the first field of a name.
pub fn field_place(fields: &[(Text, Value)], name: &Text) -> Option<usize>
    ensures { result ≡ position (λ e. bytes_eq name.now e.0) fields.now }
{
    fields.iter().position(|field| name.same(&field.0))
}

/// The expression of the first getter of a name.
pub fn getter_of<'a>(getters: &'a [NamedExpr], name: &Text) -> Option<&'a Expr>
    ensures { option_map (λ e. expr_view e.now) result ≡ named name.now (seen_pairs getters.now) }
{
    for getter in getters {
        if name.same(&getter.name) {
            return Some(&getter.value);
        }
    }
    None
}

/// The first action of a name.
pub fn action_of<'a>(actions: &'a [Action], name: &Text) -> Option<&'a Action>
    ensures { option_map (λ x. (action_view x.now).1) result ≡ named name.now (seen_actions actions.now) }
{
    for action in actions {
        if name.same(&action.name) {
            return Some(action);
        }
    }
    None
}

/// The value of the last parameter of a name.
pub fn parameter_of<'a>(params: &'a [(Text, Value)], name: &Text) -> Option<&'a Value>
    ensures { option_map (λ v. view v.now) result ≡ last_named name.now (seen_entries params.now) }
{
    let mut found = None;
    for param in params {
        if name.same(&param.0) {
            found = Some(&param.1);
        }
    }
    found
}
