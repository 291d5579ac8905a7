// Manifests: classes, their actions, and the steps of these.
use gl_ast::{Expr, Exprs, Pairs};
use gl_value::{NamedValues, Text, Texts};
use std::marker::Model;

/// Fields by their names, with their first values.
pub type Fields = NamedValues;

/// Getters by their names, with their expressions.
pub type Getters = Pairs;

/// The expressions that an action is called with.
pub type ExprList = Exprs;

/// What a step does: it sets a field, or calls the action that is found in an argument along further names.
#[derive(Drop)]
pub enum StepKind {
    Set {
        field: Text,
        to: Expr,
    },
    Call {
        name: Text,
        rest: Texts,
        args: ExprList,
    },
}

/// A step of an action. One with a `when` runs only where that is true.
#[derive(Drop)]
pub struct Step {
    pub when: Option<Expr>,
    pub kind: StepKind,
}

/// A list of steps. Contracts see the steps as definitions see them.
#[derive(Drop)]
pub struct Steps {
    pub(crate) list: Vec<Step>,
}

/// An action of a class.
#[derive(Drop)]
pub struct Action {
    pub name: Text,
    pub params: Texts,
    pub steps: Steps,
}

/// A list of actions. Contracts see names with actions as definitions see them.
#[derive(Drop)]
pub struct Actions {
    pub(crate) list: Vec<Action>,
}

/// A component's class, without its template: `file` names the file of that.
#[derive(Drop)]
pub struct Class {
    pub name: Text,
    pub file: Text,
    pub fields: Fields,
    pub getters: Getters,
    pub actions: Actions,
    pub teardown: bool,
}

/// A list of classes. Contracts see the classes as definitions see them.
#[derive(Drop)]
pub struct Classes {
    pub(crate) list: Vec<Class>,
}

/// A manifest: the name of the class that is rendered, how deep components may nest (the root counts as 1), the
/// modifiers besides `on`, and the classes, which are to be in the byte order of their names.
#[derive(Drop)]
pub struct Manifest {
    pub root: Text,
    pub limit: u32,
    pub modifiers: Texts,
    pub classes: Classes,
}

impl Model for Steps {
    ghost use Rattle.std.specs.Prelude.{List};
    ghost use Rattle.std.specs.Coded.{coded_list};
    ghost use Rattle.gl_meaning.specs.App as a;
    ghost use Rattle.gl_meaning.specs.AppCode.{step_code};

    ghost Value = { List a.Step };

    ghost coded = { coded_list step_code };

    ghost use Rattle.gl_meaning.specs.View.{seen_steps};

    ghost view = { λ a. seen_steps a.list.items };
}

impl Model for Actions {
    ghost use Rattle.std.specs.Prelude.{ℕ, List};
    ghost use Rattle.std.specs.Coded.{coded_list, coded×, coded_ℕ};
    ghost use Rattle.gl_meaning.specs.App as a;
    ghost use Rattle.gl_meaning.specs.AppCode.{action_code};

    ghost Value = { List (List ℕ × a.Action) };

    ghost coded = { coded_list (coded× (coded_list coded_ℕ) action_code) };

    ghost use Rattle.gl_meaning.specs.View.{seen_actions};

    ghost view = { λ a. seen_actions a.list.items };
}

impl Model for Classes {
    ghost use Rattle.std.specs.Prelude.{List};
    ghost use Rattle.std.specs.Coded.{coded_list};
    ghost use Rattle.gl_meaning.specs.Manifest as m;
    ghost use Rattle.gl_meaning.specs.AppCode.{class_code};

    ghost Value = { List m.ClassEntry };

    ghost coded = { coded_list class_code };

    ghost use Rattle.gl_meaning.specs.View.{seen_classes};

    ghost view = { λ a. seen_classes a.list.items };
}
