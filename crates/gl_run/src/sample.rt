// Plays the session of the sample application, and writes how much it is.
ghost use Rattle.std.specs.Prelude.{◌≡◌, ◌≤◌, ◌+◌, ◌∷◌, [], List, Ok, IfOk};
ghost use Rattle.std.specs.Str.{chars};
ghost use Rattle.gl_base.specs.Texts.{bytes_of};
ghost use Rattle.gl_outside.specs.Shelf.{Entry};
ghost use Rattle.gl_meaning.specs.Manifest.{app_of};
ghost use Rattle.gl_meaning.specs.Session.{session};
ghost use Rattle.gl_meaning.specs.View.{manifest_view, script_view, event_view};
ghost use Rattle.gl_opc.specs.IsApp.{IsAppWith};
ghost use Rattle.gl_session.specs.Standing.{IsReady};
ghost use Rattle.gl_load.specs.View.{whole_view};
ghost use Rattle.gl_commands.specs.Command.{sample_command};
ghost use Rattle.gl_run.specs.Holds.{EndsAt, EndsWith};
ghost use Rattle.gl_run.specs.Plays.{IsStart, IsTurn};
ghost use Rattle.gl_run.specs.Reached.{Counted};
ghost use Rattle.gl_ast.specs.Template.{Body};
ghost use Rattle.gl_opc.specs.declared.app.App.{App};
ghost use Rattle.gl_commands.specs.Output.{outcome_of, output_or, written};
ghost use Rattle.gl_commands.specs.Sample.{sample_files, sample_whole, byte_count, sums_line};
ghost use Rattle.gl_run.specs.Sample.{Tallies, Sums};

use gl_gen::sample;
use gl_load::{Loaded, load};
use gl_meaning::{Event, Script};
use gl_opc::App;
use gl_outside::{CalmShelf, File, Files};
use gl_session::{Session, Turn};
use gl_value::Text;
use std::alloc::{AllocError, Global};

// A text as a file.
fn file_of(alloc: Global, name: &str, text: &Text) -> Result<File, AllocError>
    ensures { IfOk result (λ f. f ≡ (name.now, bytes_of text.now)) }
{
    Ok(File::new(
        String::from_str(alloc, name)?,
        Vec::from_slice(alloc, text.as_str().as_bytes())?,
    ))
}

// The files of the sample of so many rows.
#[tactic(auto, unfolding(gl_commands::specs::Sample::sample_files), using(std::proofs::lemmas::List::append_assoc))]
fn files_of(alloc: Global, rows: u32) -> Result<Files, AllocError>
    requires some { 1 ≤ rows }
    requires most { rows ≤ 10000 }
    ensures { IfOk result (λ f. f ≡ sample_files rows) }
{
    let made = sample(alloc, rows)?;
    let manifest = file_of(alloc, "m.json", &made.manifest)?;
    let script = file_of(alloc, "s.json", &made.script)?;
    let mut files = made.templates;
    files.push(manifest)?;
    files.push(script)?;
    Ok(files)
}

// The sample of so many rows with its script, loaded from its files. No proof says that none of them is refused: a refusal would be told
// as want of memory.
#[tactic(auto, unfolding(gl_commands::specs::Sample::sample_whole))]
fn load_sample(alloc: Global, rows: u32) -> Result<Loaded, AllocError>
    requires some { 1 ≤ rows }
    requires most { rows ≤ 10000 }
    ensures told { IfOk result (λ l. sample_whole rows ≡ Ok (whole_view l)) }
    ensures made { IfOk result (λ l. IsAppWith (manifest_view l.app.manifest) l.templates l.app.programs) }
{
    let mut shelf = CalmShelf::new(files_of(alloc, rows)?);
    match load(alloc, &mut shelf, "m.json", "s.json") {
        Ok(loaded) => Ok(loaded),
        Err(_) => Err(AllocError),
    }
}

// How many turns there were, the bytes of all their texts, and those of the last.
#[derive(Clone, Copy)]
struct Tally {
    turns: u64,
    bytes: u64,
    last: u64,
}

impl Tally {
    // Of one turn.
    fn of(text: &Text) -> Tally
        ensures { Tallies result (text.now ∷ []) }
    {
        let count = text.as_str().len() as u64;
        Tally {
            turns: 1,
            bytes: count,
            last: count,
        }
    }

    // With one turn more.
    fn after(self, text: &Text) -> Result<Tally, AllocError>
        ensures turns { IfOk result (λ t. t.turns ≡ self.turns + 1) }
        ensures bytes { IfOk result (λ t. t.bytes ≡ self.bytes + byte_count text.now) }
        ensures last { IfOk result (λ t. t.last ≡ byte_count text.now) }
    {
        let count = text.as_str().len() as u64;
        Ok(Tally {
            turns: self.turns.checked_add(1).ok_or(AllocError)?,
            bytes: self.bytes.checked_add(count).ok_or(AllocError)?,
            last: count,
        })
    }

    // What it says in a line.
    fn line(&self, alloc: Global) -> Result<Text, AllocError>
        ensures { IfOk result (λ t. t ≡ sums_line self.now.turns self.now.bytes self.now.last) }
    {
        let mut text = Text::new(alloc);
        text.push_ascii("turns ")?;
        text.push_number(self.turns as u128)?;
        text.push_ascii(" bytes ")?;
        text.push_number(self.bytes as u128)?;
        text.push_ascii(" last ")?;
        text.push_number(self.last as u128)?;
        text.push_ascii("\n")?;
        Ok(text)
    }
}

// Starts a session, which gives turn 0.
fn start(alloc: Global, app: App) -> Result<(Session, Turn), AllocError>
    ensures starts { IfOk result (λ r. IsStart app r.0 r.1) }
    ensures ready { IfOk result (λ r. IsReady r.0) }
{
    match Session::start(alloc, app) {
        Ok(started) => Ok(started),
        Err(_) => Err(AllocError),
    }
}

// The turn of an event.
fn turn_of(session: &mut Session, event: &Event) -> Result<Turn, AllocError>
    requires { IsReady session.old }
    ensures turns { IfOk result (λ t. IsTurn session.old (event_view event.now) session.new t) }
    ensures ready { IsReady session.new }
{
    match session.event(event) {
        Ok(made) => Ok(made),
        Err(_) => Err(AllocError),
    }
}

// Goes along the events of a script, and tallies the turns too.
fn tally_events(session: &mut Session, script: &Script, tally: Tally) -> Result<Tally, AllocError>
    requires { IsReady session.old }
    ensures { IfOk result (λ t. (app : App) (templates : List Body) → Counted app templates (script_view script.now) (script_view script.now) session.old tally
        → Counted app templates (script_view script.now) [] session.new t) }
{
    let mut tally = tally;
    for event in script.events.as_slice() {
        let made = turn_of(session, event)?;
        tally = tally.after(&made.text)?;
    }
    Ok(tally)
}

// Plays the session of an application over the events of a script, and tallies its turns. No proof says that components of the sample
// don't nest too deep: it would be told as want of memory.
fn play_tallied(alloc: Global, app: App, script: &Script) -> Result<(Session, Tally), AllocError>
    ensures sums { IfOk result (λ r. (templates : _) → IsAppWith (manifest_view app.manifest) templates app.programs
        → Sums r.1 (session (app_of (manifest_view app.manifest) templates) (script_view script.now))) }
    ensures ends { IfOk result (λ r. (templates : _) → IsAppWith (manifest_view app.manifest) templates app.programs → EndsAt r.0 app templates (script_view script.now)) }
{
    let (mut session, turn) = start(alloc, app)?;
    match tally_events(&mut session, script, Tally::of(&turn.text)) {
        Ok(tally) => Ok((session, tally)),
        Err(fault) => Err(fault),
    }
}

/// Plays the session of the sample of so many rows, and gives it with the line that says how many turns there were, how many bytes
/// they are, and how many the last is.
pub fn play_sample(alloc: Global, rows: u32) -> Result<(Session, Text), AllocError>
    requires some { 1 ≤ rows }
    requires most { rows ≤ 10000 }
    ensures told { IfOk result (λ r. (files : List Entry) → output_or (outcome_of (sample_command rows) files) ≡ written (r.1 ∷ [])) }
    ensures ends { IfOk result (λ r. EndsWith r.0 (sample_whole rows)) }
{
    let loaded = load_sample(alloc, rows)?;
    drop(loaded.templates);
    let (session, tally) = play_tallied(alloc, loaded.app, &loaded.script)?;
    let line = tally.line(alloc)?;
    Ok((session, line))
}
