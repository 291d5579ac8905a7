// Key paths: the places of a rendering.
use gl_value::{Text, Value};
use std::marker::Model;

/// A step of a key path: the statement of a body with a number from 0, the main or the `else` body, the items of
/// an `each`, an item by its key and by how many items before it have an equal key, the template of a component
/// by its class, a yielded block by its name, the comment of a branch or an item without a node, an attribute by
/// its name, or a modifier by its number among the element's modifiers, from 0.
#[derive(Drop)]
pub enum PathStep {
    At(u64),
    Then,
    Else,
    Items,
    Item { key: Value, occurrence: u64 },
    Into(Text),
    Slot(Text),
    Empty,
    Attr(Text),
    Mod(u64),
}

/// A list of steps, the innermost last. Contracts see the steps as definitions see them.
#[derive(Drop)]
pub struct PathSteps {
    pub(crate) list: Vec<PathStep>,
}

/// A key path: the place of a node, an instance, an item or a modifier, which stays the same from one rendering
/// to the next.
#[derive(Drop)]
pub struct Path {
    pub steps: PathSteps,
}

impl Model for PathSteps {
    ghost use Rattle.std.specs.Prelude.{List};
    ghost use Rattle.std.specs.Coded.{coded_list};
    ghost use Rattle.gl_meaning.specs.Path as p;
    ghost use Rattle.gl_meaning.specs.PathCode.{path_step_code};

    ghost Value = { List p.PathStep };

    ghost coded = { coded_list path_step_code };

    ghost use Rattle.gl_meaning.specs.View.{seen_path_steps};

    ghost view = { λ a. seen_path_steps a.list.items };
}
