//! What an application means: what is rendered from its templates and cells, what an event sets, and
//! what a session writes turn by turn.
//!
//! The definitions stand in `specs/`, over plain lists, numbers and texts, and each is computed on
//! worked cases in `proofs/`. They render the whole tree anew at each turn, and know nothing of how a
//! program does it. `docs/MEANING.md` tells them in plain words. The module `laws` has what follows
//! from them.
//!
//! Beside them stand the types of manifests, scripts and key paths, which `specs/View.antt` maps to
//! what the definitions speak of.
#![tactic(auto)]

mod actions;
mod classes;
mod events;
mod kind;
pub mod laws;
mod manifest;
mod path;
mod path_steps;
mod script;
mod steps;

pub use kind::Kind;
pub use manifest::{
    Action, Actions, Class, Classes, ExprList, Fields, Getters, Manifest, Step, StepKind, Steps,
};
pub use path::{Path, PathStep, PathSteps};
pub use script::{Event, Events, Script};
