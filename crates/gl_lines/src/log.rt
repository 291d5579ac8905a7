// The log of a turn.
ghost use Rattle.std.specs.Prelude.{◌≡◌, ◌++◌, ◌∷◌, [], OnOk, codes, flat_map};
ghost use Rattle.gl_value.specs.Value.{text_of};
ghost use Rattle.gl_value.specs.Quote.{quoted};
ghost use Rattle.gl_value.specs.View.{view};
ghost use Rattle.gl_meaning.specs.Print.{line};
ghost use Rattle.gl_meaning.specs.Signs.{blank, equals};
ghost use Rattle.gl_lines.specs.Lines.{values_text, told, told_with, modifier_line};

use gl_value::{List, NamedValues, Text, Value, push_quoted};
use std::alloc::{AllocError, Global};

// The quoted text of a value.
fn push_value(out: &mut Text, alloc: Global, value: &Value) -> Result<(), AllocError>
    ensures { OnOk result (out.new ≡ out.old ++ quoted (text_of (view value.now))) }
{
    let text = value.text_of(alloc)?;
    push_quoted(out, text.as_str())
}

fn push_positional(out: &mut Text, alloc: Global, value: &Value) -> Result<(), AllocError>
    ensures { OnOk result (out.new ≡ out.old ++ blank ∷ quoted (text_of (view value.now))) }
{
    out.push_ascii(" ")?;
    push_value(out, alloc, value)
}

fn push_named(out: &mut Text, alloc: Global, name: &Text, value: &Value) -> Result<(), AllocError>
    ensures { OnOk result (out.new ≡ out.old ++ blank ∷ (name.now ++ equals ∷ quoted (text_of (view value.now)))) }
{
    out.push_ascii(" ")?;
    out.push_text(name)?;
    out.push_ascii("=")?;
    push_value(out, alloc, value)
}

fn push_values(out: &mut Text, alloc: Global, values: &[Value]) -> Result<(), AllocError>
    ensures { OnOk result (out.new ≡ out.old ++ flat_map (λ v. blank ∷ quoted (text_of (view v))) values.now) }
{
    for value in values {
        push_positional(out, alloc, value)?;
    }
    Ok(())
}

fn push_entries(out: &mut Text, alloc: Global, entries: &[(Text, Value)]) -> Result<(), AllocError>
    ensures { OnOk result (out.new ≡ out.old ++ flat_map (λ n. blank ∷ (n.0 ++ equals ∷ quoted (text_of (view n.1)))) entries.now) }
{
    for entry in entries {
        push_named(out, alloc, &entry.0, &entry.1)?;
    }
    Ok(())
}

fn push_args(out: &mut Text, alloc: Global, args: &List) -> Result<(), AllocError>
    ensures { OnOk result (out.new ≡ out.old ++ flat_map (λ v. blank ∷ quoted (text_of v)) args.now) }
{
    push_values(out, alloc, args.as_slice())
}

fn push_named_args(out: &mut Text, alloc: Global, named: &NamedValues) -> Result<(), AllocError>
    ensures { OnOk result (out.new ≡ out.old ++ flat_map (λ n. blank ∷ (n.0 ++ equals ∷ quoted (text_of n.1))) named.now) }
{
    push_entries(out, alloc, named.as_slice())
}

// The number of a node, and a name.
#[tactic(auto, unfolding(crate::specs::Lines::told))]
fn push_told(out: &mut Text, number: u128, name: &Text) -> Result<(), AllocError>
    ensures { OnOk result (out.new ≡ out.old ++ told number name.now) }
{
    out.push_ascii("#")?;
    out.push_number(number)?;
    out.push_ascii(" ")?;
    out.push_text(name)
}

// .. and values.
#[tactic(auto, unfolding(crate::specs::Lines::told_with))]
fn push_with_values(
    out: &mut Text,
    alloc: Global,
    number: u128,
    name: &Text,
    args: &List,
    named: &NamedValues,
) -> Result<(), AllocError>
    ensures { OnOk result (out.new ≡ out.old ++ told_with number name.now (values_text args.now named.now)) }
{
    push_told(out, number, name)?;
    push_args(out, alloc, args)?;
    push_named_args(out, alloc, named)?;
    out.push_ascii("\n")
}

/// That a modifier was installed: the number of its node, its name, and the values of its arguments.
#[tactic(auto, unfolding(crate::specs::Lines::modifier_line))]
pub fn push_installed(
    out: &mut Text,
    alloc: Global,
    number: u128,
    name: &Text,
    args: &List,
    named: &NamedValues,
) -> Result<(), AllocError>
    ensures { OnOk result (out.new ≡ out.old ++ modifier_line (codes "install ") number name.now (values_text args.now named.now)) }
{
    out.push_ascii("install ")?;
    push_with_values(out, alloc, number, name, args, named)
}

/// That a modifier was updated: the number of its node, its name, and the values of its arguments.
#[tactic(auto, unfolding(crate::specs::Lines::modifier_line))]
pub fn push_updated(
    out: &mut Text,
    alloc: Global,
    number: u128,
    name: &Text,
    args: &List,
    named: &NamedValues,
) -> Result<(), AllocError>
    ensures { OnOk result (out.new ≡ out.old ++ modifier_line (codes "update ") number name.now (values_text args.now named.now)) }
{
    out.push_ascii("update ")?;
    push_with_values(out, alloc, number, name, args, named)
}

/// That a modifier was destroyed, by the number that its node had and its name.
#[tactic(auto, unfolding(crate::specs::Lines::modifier_line, crate::specs::Lines::told_with))]
pub fn push_destroyed_modifier(out: &mut Text, number: u128, name: &Text) -> Result<(), AllocError>
    ensures { OnOk result (out.new ≡ out.old ++ modifier_line (codes "destroy ") number name.now []) }
{
    out.push_ascii("destroy ")?;
    push_told(out, number, name)?;
    out.push_ascii("\n")
}

/// That an instance was destroyed, by the name of its class.
pub fn push_destroyed_instance(out: &mut Text, class: &Text) -> Result<(), AllocError>
    ensures { OnOk result (out.new ≡ out.old ++ line (codes "destroy " ++ class.now)) }
{
    out.push_ascii("destroy ")?;
    out.push_text(class)?;
    out.push_ascii("\n")
}
