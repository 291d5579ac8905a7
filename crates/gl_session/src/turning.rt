// Turns of a page.
ghost use Rattle.std.specs.Prelude.{◌≡◌, ◌-◌, List, [], Some, None, IfOk, OnOk, IfErr, length};
ghost use Rattle.gl_meaning.specs.Order.{NamesRise};
ghost use Rattle.gl_append.specs.Page.{Appends};
ghost use Rattle.gl_session.specs.Telling.{Tells};
ghost use Rattle.gl_ast.specs.Template.{Body};
ghost use Rattle.gl_meaning.specs.Session as session;
ghost use Rattle.gl_meaning.specs.View.{event_view, manifest_view};
ghost use Rattle.gl_opc.specs.IsApp.{IsAppWith};
ghost use Rattle.gl_plain.specs.Naming.{by_number};
ghost use Rattle.gl_machine.specs.Code.{Code as PlainCode, live_of};
ghost use Rattle.gl_guards.specs.Along.{along_root_code_as};
ghost use Rattle.gl_guards.specs.AlongAsks.{along_asks_root};
ghost use Rattle.gl_guards.specs.Once.{KeysOnce};
ghost use Rattle.gl_machine.specs.Shape.{nest};
ghost use Rattle.gl_kept.specs.Between.{moved_between};
ghost use Rattle.gl_vm.specs.View.{Calm};
ghost use Rattle.gl_code.specs.CodeView.{seen_code};
ghost use Rattle.gl_code.specs.Hung.{nest_of};
ghost use Rattle.gl_code.specs.Renewing.{Renews, RenewFails};
ghost use Rattle.gl_standing.specs.Standing.{StandsIn};
ghost use Rattle.gl_session.specs.Standing.{Goes, TurnFails, TurnAsks};
ghost use Rattle.gl_update.specs.Questions.{Asks};

use crate::laying::{begin_turn, givens_for, lay};
use crate::turn::{Made, Turn, Work};
use crate::writing::{front, push_committed};
use gl_append::{Opcodes, append};
use gl_code::{Cells, Page, VmFault};
use gl_events::{Applied, apply};
use gl_gone::{Standing, push_destroyed, standing};
use gl_meaning::Event;
use gl_opc::App;
use gl_update::{Moved, update};
use gl_value::Text;
use std::alloc::{AllocError, Global};

/// The page that is rendered first, and that turn.
pub(crate) fn first_turn(alloc: Global, app: &App) -> Result<(Page, Turn), VmFault>
    ensures ok { IfOk result (λ r. (templates : List Body) → IsAppWith (manifest_view app.now.manifest) templates app.now.programs → Goes app.now templates session.first_state None r.0 r.1) }
    ensures fails { IfErr result (λ f. (templates : List Body) → IsAppWith (manifest_view app.now.manifest) templates app.now.programs → TurnFails app.now templates session.first_state None f) }
    ensures calm { IfOk result (λ r. Calm r.0.vm) }
{
    app.keeps();
    let cells = Cells::new(alloc);
    match append(alloc, app, &cells) {
        Ok(page) => Ok(first_made(alloc, app, page)?),
        Err(fault) => Err(fault),
    }
}

/// The work of a turn of a page, at the beginning of which this was the number of the next node, and in which so many items were moved.
fn work_of(page: &Page, first: u128, moved: u128) -> Work
    ensures evaluated { result.evaluated ≡ length page.now.vm.refs.evaluated }
    ensures made { result.made ≡ page.now.vm.tree.nodes.made - first }
    ensures moved { result.moved ≡ moved }
{
    let evaluated = page.vm.refs.evaluated().len() as u128;
    let made = page.vm.tree.upcoming().saturating_sub(first);
    Work {
        evaluated,
        made,
        moved,
    }
}

/// The first turn of a page that was appended.
fn first_made(alloc: Global, app: &App, page: Page) -> Result<(Page, Turn), AllocError>
    requires appended { Appends app.now [] page.vm page.code }
    requires nodes { (n : _) → nest_of page.vm.tree.forest ≡ nest (live_of (seen_code n page.code)) }
    requires calm { Calm page.vm }
    ensures ok { IfOk result (λ r. (templates : List Body) → NamesRise (manifest_view app.now.manifest) → IsAppWith (manifest_view app.now.manifest) templates app.now.programs → Goes app.now templates session.first_state None r.0 r.1) }
    ensures calm { IfOk result (λ r. Calm r.0.vm) }
{
    let mut page = page;
    let work = work_of(&page, 1, 0);
    page.vm.tree.flat();
    page.vm.mods.sound();
    let mut text = front(alloc, &page.vm.tree, 0, None, &[])?;
    push_committed(&mut text, alloc, app, &mut page.vm)?;
    Ok((page, Turn { text, work }))
}

/// A page that is updated: where its nodes stood in the tree as they were rendered, they do so then. It answers how many items were moved,
/// where no key of a list stood twice, and how many questions were answered.
fn renew(alloc: Global, app: &App, page: &mut Page) -> Result<Moved, VmFault>
    requires calm { Calm page.old.vm }
    ensures ok { OnOk result (Renews app.now [] (λ n run. along_root_code_as by_number app.now.manifest.limit run (seen_code n page.old.code)) page.old.vm (λ n. seen_code n page.new.code) page.new.vm) }
    ensures nodes { OnOk result ((n : _) → nest_of page.old.vm.tree.forest ≡ nest (live_of (seen_code n page.old.code)) → nest_of page.new.vm.tree.forest ≡ nest (live_of (seen_code n page.new.code))) }
    ensures fails { IfErr result (RenewFails {A = PlainCode} app.now [] (λ n run. along_root_code_as by_number app.now.manifest.limit run (seen_code n page.old.code)) page.old.vm) }
    ensures moved { IfOk result (λ m. (n : _) → KeysOnce (live_of (seen_code n page.old.code)) → m.items ≡ moved_between (live_of (seen_code n page.old.code)) (live_of (seen_code n page.new.code))) }
    ensures asked { IfOk result (λ m. Asks app.now [] (λ n run. along_asks_root by_number app.now.manifest.limit run (seen_code n page.old.code)) page.old.vm 0 m.asked) }
    ensures calm { Calm page.new.vm }
{
    let cells = Cells::new(alloc);
    match update::<Opcodes>(alloc, app, &cells, page) {
        Ok(moved) => Ok(moved),
        Err(fault) => Err(fault),
    }
}

/// The text of a turn of a page that was updated, of which this is what stood in it before.
fn next_text(
    alloc: Global,
    app: &App,
    page: &mut Page,
    turn: u128,
    event: &Event,
    missing: &[u64],
    before: &Standing,
) -> Result<Text, AllocError>
    ensures ok { IfOk result (Tells app.now page.old before.now.list.items turn (event_view event.now) missing.now page.new) }
    ensures calm { Calm page.old.vm → Calm page.new.vm }
{
    page.vm.tree.flat();
    page.vm.mods.sound();
    let mut text = front(alloc, &page.vm.tree, turn, Some(event), missing)?;
    push_destroyed(&mut text, alloc, before, page, app)?;
    push_committed(&mut text, alloc, app, &mut page.vm)?;
    Ok(text)
}

/// A page after the turn of an event, and that turn, with the questions that were answered: at most as many as the meaning's turn has.
pub(crate) fn next_turn(
    alloc: Global,
    app: &App,
    page: &mut Page,
    turn: u128,
    event: &Event,
) -> Result<Made, VmFault>
    requires calm { Calm page.old.vm }
    ensures ok { IfOk result (λ r. (templates : List Body) (s : session.State) → IsAppWith (manifest_view app.now.manifest) templates app.now.programs → StandsIn app.now templates page.old s → turn ≡ s.turn → Goes app.now templates s (Some (event_view event.now)) page.new r.turn) }
    ensures asked { IfOk result (λ r. (templates : List Body) (s : session.State) → IsAppWith (manifest_view app.now.manifest) templates app.now.programs → StandsIn app.now templates page.old s → TurnAsks app.now templates s (event_view event.now) r.asked) }
    ensures fails { IfErr result (λ f. (templates : List Body) (s : session.State) → IsAppWith (manifest_view app.now.manifest) templates app.now.programs → StandsIn app.now templates page.old s → TurnFails app.now templates s (Some (event_view event.now)) f) }
    ensures calm { Calm page.new.vm }
{
    app.keeps();
    let first = page.vm.tree.upcoming();
    let Applied { sets, missing } = apply(alloc, page, app, event)?;
    let givens = givens_for(alloc, page, app, sets)?;
    let before = standing(alloc, page)?;
    begin_turn(&mut page.vm)?;
    lay(&mut page.vm, givens)?;
    match renew(alloc, app, page) {
        Ok(moved) => {
            let work = work_of(page, first, moved.items);
            let text = next_text(alloc, app, page, turn, event, missing.as_slice(), &before)?;
            Ok(Made {
                turn: Turn { text, work },
                asked: moved.asked,
            })
        }
        Err(fault) => Err(fault),
    }
}
