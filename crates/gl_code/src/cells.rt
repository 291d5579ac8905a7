// The cells that a rendering begins with.
ghost use Rattle.std.specs.Prelude.{◌≡◌, ◌∷◌, ◌++◌, [], IfOk, OnOk, OnErr, option_map};
ghost use Rattle.gl_value.specs.Value.{same, plain};
ghost use Rattle.gl_value.specs.View.{view};
ghost use Rattle.gl_meaning.specs.Path.{no_owners, step_eq, path_eq};
ghost use Rattle.gl_meaning.specs.View.{path_view, path_step_view, seen_path_steps};
ghost use Rattle.gl_code.specs.Cells.{seen_cells, cells_at};

use gl_meaning::{Path, PathStep};
use gl_value::{List, Value};
use std::alloc::{AllocError, Global};
use std::marker::Model;

/// Values of the fields of instances, by the paths of these, in the order of the fields of the class. Of several that
/// were put for one instance the last ones count.
#[derive(Drop)]
pub struct Cells {
    list: Vec<(Path, List)>,
}

impl Model for Cells {
    ghost use Rattle.std.specs.Coded.{coded_list, coded×};
    ghost use Rattle.gl_value.specs.Code.{value_code};
    ghost use Rattle.gl_meaning.specs.PathCode.{path_step_code};
    ghost use Rattle.gl_code.specs.Cells.{CellList};

    ghost Value = { CellList };

    ghost coded = { coded_list (coded× (coded_list path_step_code) (coded_list value_code)) };

    ghost use Rattle.gl_code.specs.Cells.{seen_cells};

    ghost view = { λ c. seen_cells c.list.items };
}

// Whether two keys have the same plain form.
fn same_key(one: &Value, with: &Value) -> Result<bool, AllocError>
    ensures { IfOk result (λ r. r ≡ same no_owners (plain (view one.now)) (plain (view with.now))) }
{
    let one = one.data_of()?;
    let with = with.data_of()?;
    Ok(one.same(&with))
}

fn same_step(one: &PathStep, with: &PathStep) -> Result<bool, AllocError>
    ensures { IfOk result (λ r. r ≡ step_eq (path_step_view one.now) (path_step_view with.now)) }
{
    match (one, with) {
        (PathStep::At(one), PathStep::At(with)) | (PathStep::Mod(one), PathStep::Mod(with)) => {
            Ok(*one == *with)
        }
        (PathStep::Then, PathStep::Then)
        | (PathStep::Else, PathStep::Else)
        | (PathStep::Items, PathStep::Items)
        | (PathStep::Empty, PathStep::Empty) => Ok(true),
        (
            PathStep::Item {
                key: one,
                occurrence,
            },
            PathStep::Item {
                key: with,
                occurrence: other,
            },
        ) => {
            let same = same_key(one, with)?;
            Ok(same && *occurrence == *other)
        }
        (PathStep::Into(one), PathStep::Into(with))
        | (PathStep::Slot(one), PathStep::Slot(with))
        | (PathStep::Attr(one), PathStep::Attr(with)) => Ok(one.same(with)),
        _ => Ok(false),
    }
}

// The outermost steps are compared first.
fn same_steps(one: &[PathStep], with: &[PathStep]) -> Result<bool, AllocError>
    ensures { IfOk result (λ r. r ≡ path_eq (seen_path_steps one.now) (seen_path_steps with.now)) }
{
    if one.len() != with.len() {
        return Ok(false);
    }
    for (step, other) in one.iter().zip(with) {
        if !same_step(step, other)? {
            return Ok(false);
        }
    }
    Ok(true)
}

fn same_path(one: &Path, with: &Path) -> Result<bool, AllocError>
    ensures { IfOk result (λ r. r ≡ path_eq (path_view one.now) (path_view with.now)) }
{
    same_steps(one.steps.as_slice(), with.steps.as_slice())
}

impl Cells {
    /// No values. It takes no memory.
    pub fn new(alloc: Global) -> Cells
        ensures { result ≡ [] }
    {
        Cells {
            list: Vec::new(alloc),
        }
    }

    /// Puts the values of the fields of an instance.
    pub fn put(&mut self, path: Path, fields: List) -> Result<(), AllocError>
        ensures ok { OnOk result (self.new ≡ self.old ++ (path_view path, fields) ∷ []) }
        ensures err { OnErr result (self.new ≡ self.old) }
    {
        self.list.push((path, fields))?;
        Ok(())
    }

    /// The values that were put for an instance.
    pub fn at(&self, path: &Path) -> Result<Option<&List>, AllocError>
        ensures { IfOk result (λ o. option_map (λ l. l.now) o ≡ cells_at (path_view path.now) self.now) }
    {
        last_of(self.list.as_slice(), path)
    }
}

fn last_of<'a>(entries: &'a [(Path, List)], path: &Path) -> Result<Option<&'a List>, AllocError>
    ensures { IfOk result (λ o. option_map (λ l. l.now) o ≡ cells_at (path_view path.now) (seen_cells entries.now)) }
{
    let mut found = None;
    for entry in entries {
        if same_path(path, &entry.0)? {
            found = Some(&entry.1);
        }
    }
    Ok(found)
}
