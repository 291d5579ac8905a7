// The spelling of what stands in a tag.
ghost use Rattle.std.specs.Prelude.{◌≡◌, ◌∷◌, ◌++◌, ◌<◌, OnOk, codes};
ghost use Rattle.gl_ast.specs.Canon.{part_text, parts_text, arguments_text, names_text, parameters_text};
ghost use Rattle.gl_ast.specs.View.{part_view};

use crate::expression::{write_exprs, write_named};
use crate::value::write_given;
use gl_ast::{Args, Names, Part, Parts};
use gl_value::Text;
use std::alloc::AllocError;

// Adds a part of a tag.
fn write_part(part: &Part, out: &mut Text) -> Result<(), AllocError>
    ensures { OnOk result (out.new ≡ out.old ++ part_text (part_view part.now)) }
{
    match part {
        Part::Attr { name, value } => {
            out.push_text(name)?;
            write_given(value, out)
        }
        Part::Mod { name, args, named } => {
            out.push_ascii("{{")?;
            out.push_text(name)?;
            write_exprs(args, out)?;
            write_named(&**named, out)?;
            out.push_ascii("}}")
        }
        Part::Spread => out.push_ascii("...attributes"),
    }
}

/// Adds the parts of a tag, each after a blank.
pub fn write_parts(parts: &Parts, out: &mut Text) -> Result<(), AllocError>
    ensures { OnOk result (out.new ≡ out.old ++ parts_text parts.now) }
{
    for part in parts.as_slice() {
        out.push_ascii(" ")?;
        write_part(part, out)?;
    }
    Ok(())
}

/// Adds the arguments of a component, each after a blank.
pub fn write_args(args: &Args, out: &mut Text) -> Result<(), AllocError>
    ensures { OnOk result (out.new ≡ out.old ++ arguments_text args.now) }
{
    for arg in args.as_slice() {
        out.push_ascii(" @")?;
        out.push_text(&arg.name)?;
        write_given(&arg.value, out)?;
    }
    Ok(())
}

// Adds names with one blank between.
fn write_names(names: &[Text], out: &mut Text) -> Result<(), AllocError>
    ensures { OnOk result (out.new ≡ out.old ++ names_text names.now) }
{
    let mut rest = names;
    while let [name, tail @ ..] = rest {
        out.push_text(name)?;
        if !tail.is_empty() {
            out.push_ascii(" ")?;
        }
        rest = tail;
    }
    Ok(())
}

/// Adds parameters after a blank, where there are any.
pub fn write_parameters(params: &Names, out: &mut Text) -> Result<(), AllocError>
    ensures { OnOk result (out.new ≡ out.old ++ parameters_text params.now) }
{
    let names = params.as_slice();
    if names.is_empty() {
        return Ok(());
    }
    out.push_ascii(" as |")?;
    write_names(names, out)?;
    out.push_ascii("|")
}
