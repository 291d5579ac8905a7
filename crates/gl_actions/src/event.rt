// What an event of a node sets.
ghost use Rattle.std.specs.Prelude.{◌≡◌, [], map, IfOk, OnOk};
ghost use Rattle.std.specs.Str.{chars};
ghost use Rattle.gl_value.specs.View.{view, seen_items};
ghost use Rattle.gl_meaning.specs.View.{manifest_view};
ghost use Rattle.gl_actions.specs.World.{World, value_in, sets_in};
ghost use Rattle.gl_actions.specs.Steps.{runs_all};
ghost use Rattle.gl_actions.specs.Reads.{Reads, OnlyOn};
ghost use Rattle.gl_actions.specs.Fired.{Answers, AnswersOwn};
ghost use Rattle.gl_actions.specs.Own.{AddsOwn};

use crate::hearing::{Heard, heard_on};
use crate::run::run_value;
use crate::sets::Sets;
use crate::turn::Turn;
use gl_code::Page;
use gl_opc::App;
use gl_scope::Args;
use gl_value::Value;
use std::alloc::{AllocError, Global};

/// What an event answers: the sets so far with those that its actions add, or that nothing listens.
#[derive(Drop)]
pub enum Fired {
    Ran(Sets),
    NoListener,
}

/// Calls what the modifiers `on` of the node with a number call at an event, in their order and with the payload in plain form. While they
/// run, a field reads as it was set last, a getter is worked out over these fields, and an argument reads as at the last rendering. The page
/// is only read, and nothing is set on it yet. What the page doesn't have, as an instance that is gone, is told as want of memory. No modifier
/// of the manifest is `on`, as each application keeps.
#[tactic(auto, using(crate::proofs::Rules::only_on))]
pub fn fire(
    alloc: Global,
    page: &Page,
    app: &App,
    sofar: &Sets,
    number: u64,
    event: &str,
    payload: &Value,
) -> Result<Fired, AllocError>
    ensures sets { IfOk result (λ f. Answers app.now page.now sofar.now number (chars event.now) (view payload.now) f) }
    ensures own { IfOk result (λ f. AnswersOwn app.now page.now sofar.now f) }
    ensures only { OnlyOn (manifest_view app.now.manifest) }
{
    app.keeps();
    let heard = Heard {
        alloc,
        vm: &page.vm,
        number,
        event,
    };
    let acts = heard_on(&heard, &page.code)?;
    if acts.is_empty() {
        return Ok(Fired::NoListener);
    }
    let none = Args::new(alloc);
    let turn = Turn {
        alloc,
        page,
        app,
        none: &none,
    };
    let payload = payload.data_of()?;
    let mut sets = sofar.copy()?;
    run_values(&turn, acts.as_slice(), &payload, &mut sets)?;
    Ok(Fired::Ran(sets))
}

/// Each of these values called, in order.
fn run_values(
    turn: &Turn,
    values: &[Value],
    payload: &Value,
    sets: &mut Sets,
) -> Result<(), AllocError>
    requires none { turn.now.none.now ≡ [] }
    ensures sets { OnOk result ((w : World) → Reads turn.now.app.now turn.now.page.now w → sets_in w sets.new ≡ runs_all w (map (value_in w) (seen_items values.now)) (value_in w (view payload.now)) (sets_in w sets.old)) }
    ensures own { OnOk result (AddsOwn turn.now.app.now turn.now.page.now sets.old sets.new) }
{
    for value in values {
        run_value(turn, value, payload, sets)?;
    }
    Ok(())
}
