// The top call: what the program does.
ghost use Rattle.std.specs.Prelude.{◌≡◌, ◌<◌, ◌≤◌, ◌↔◌, ℕ, [], List, Some, None, Err, OnOk, OnErr, IsErrOf, map};
ghost use Rattle.std.specs.Str.{chars};
ghost use Rattle.gl_outside.specs.Shelf.{Entry};
ghost use Rattle.gl_commands.specs.Lines.{Says};
ghost use Rattle.gl_commands.specs.Command.{run_command, sample_command, command_of, IsPlay};
ghost use Rattle.gl_load.specs.Load.{whole_in, whole_fetched};
ghost use Rattle.gl_run.specs.Holds.{HoldsOf, Holds};
ghost use Rattle.gl_commands.specs.Sample.{sample_whole};
ghost use Rattle.gl_commands.specs.Output.{outcome_of, output_or, output_of, Answers};
ghost use Rattle.gl_commands.specs.Run.{Ending, status_of, line_of, HasCause, Tells, Completes, Untouched, fetched_by};

use crate::Last;
use crate::command::{Command, command_of};
use crate::playing::play;
use crate::sample::play_sample;
use gl_commands::{
    RunFault, Status, Told, check_app, migrate_wire, put_text, say_line, show_template, status_of,
    wire_template,
};
use gl_load::load;
use gl_outside::{Shelf, Sink};
use std::alloc::Global;

// Loads an application with its script and plays its session, of which so much is told and which is left behind.
fn play_app<S: Shelf, K: Sink>(
    alloc: Global,
    told: Told,
    manifest: &str,
    script: &str,
    shelf: &mut S,
    out: &mut K,
    last: &mut Last,
) -> Result<(), RunFault>
    ensures told { (files : List Entry) → S.holds shelf.old ≡ Some files
        → Answers (status_of result) (K.took out.old) (K.took out.new) (output_or (outcome_of (run_command told (chars manifest.now) (chars script.now)) files)) }
    ensures tells { (files : List Entry) → S.holds shelf.old ≡ Some files
        → Tells result (output_or (outcome_of (run_command told (chars manifest.now) (chars script.now)) files)) (whole_fetched files (chars manifest.now) (chars script.now)) }
    ensures causes { HasCause result (S.misses shelf.old) (S.misses shelf.new) (S.faults shelf.old) (S.faults shelf.new) (K.faults out.old) (K.faults out.new) }
    ensures untouched { Untouched result (K.took out.old) (K.took out.new) }
    ensures used { IsErrOf result RunFault.Usage → ⊥ }
    ensures holds { (files : List Entry) → S.holds shelf.old ≡ Some files
        → OnOk result (HoldsOf last.new.session (whole_in files (chars manifest.now) (chars script.now))) }
    ensures kept { OnErr result (last.new ≡ last.old) }
{
    let loaded = load(alloc, shelf, manifest, script)?;
    drop(loaded.templates);
    let session = play(alloc, told, loaded.app, &loaded.script, out)?;
    last.hold(session);
    Ok(())
}

// Plays the session of the sample of so many rows, which is left behind, and writes how much it is, in one put.
fn sum_sample<K: Sink>(
    alloc: Global,
    rows: u32,
    out: &mut K,
    last: &mut Last,
) -> Result<(), RunFault>
    requires some { 1 ≤ rows }
    requires most { rows ≤ 10000 }
    ensures told { (files : List Entry) → Answers (status_of result) (K.took out.old) (K.took out.new) (output_or (outcome_of (sample_command rows) files)) }
    ensures tells { (files : List Entry) → Tells result (output_or (outcome_of (sample_command rows) files)) [] }
    ensures causes { (misses faults : ℕ) → HasCause result misses misses faults faults (K.faults out.old) (K.faults out.new) }
    ensures untouched { Untouched result (K.took out.old) (K.took out.new) }
    ensures used { IsErrOf result RunFault.Usage → ⊥ }
    ensures holds { OnOk result (HoldsOf last.new.session (sample_whole rows)) }
    ensures kept { OnErr result (last.new ≡ last.old) }
{
    let (session, line) = play_sample(alloc, rows)?;
    put_text(out, &line)?;
    last.hold(session);
    Ok(())
}

// Does what the words say, but for the line on the error sink.
fn attempt<S: Shelf, K: Sink>(
    alloc: Global,
    words: &[&str],
    shelf: &mut S,
    out: &mut K,
    last: &mut Last,
) -> Result<(), RunFault>
    ensures told { (files : List Entry) → S.holds shelf.old ≡ Some files
        → Answers (status_of result) (K.took out.old) (K.took out.new) (output_of (map (λ w. chars w.now) words.now) files) }
    ensures tells { (files : List Entry) → S.holds shelf.old ≡ Some files
        → Tells result (output_of (map (λ w. chars w.now) words.now) files) (fetched_by (command_of (map (λ w. chars w.now) words.now)) files) }
    ensures causes { HasCause result (S.misses shelf.old) (S.misses shelf.new) (S.faults shelf.old) (S.faults shelf.new) (K.faults out.old) (K.faults out.new) }
    ensures untouched { Untouched result (K.took out.old) (K.took out.new) }
    ensures used { (result ≡ Err RunFault.Usage) ↔ (command_of (map (λ w. chars w.now) words.now) ≡ None) }
    ensures holds { (files : List Entry) → S.holds shelf.old ≡ Some files
        → OnOk result (Holds (command_of (map (λ w. chars w.now) words.now)) files last.new.session) }
    ensures kept { OnErr result (last.new ≡ last.old) }
    ensures others { (IsPlay (command_of (map (λ w. chars w.now) words.now)) → ⊥) → last.new ≡ last.old }
    ensures limit { status_of result ≡ Status.NestingLimit → IsPlay (command_of (map (λ w. chars w.now) words.now)) }
{
    match command_of(words) {
        Some(
            Command::Run {
                told,
                manifest,
                script,
            },
        ) => play_app(alloc, told, manifest, script, shelf, out, last),
        Some(Command::Show { template }) => show_template(alloc, template, shelf, out),
        Some(Command::Wire { template }) => wire_template(alloc, template, shelf, out),
        Some(Command::Check { manifest }) => check_app(alloc, manifest, shelf, out),
        Some(Command::Migrate { file }) => migrate_wire(alloc, file, shelf, out),
        Some(Command::Sample { rows }) => sum_sample(alloc, rows, out, last),
        None => Err(RunFault::Usage),
    }
}

/// Does what the words say, over a shelf of files and two sinks, and gives the status.
///
/// The words are `run MANIFEST SCRIPT`, `work MANIFEST SCRIPT`, `check MANIFEST`, `show TEMPLATE`, `wire TEMPLATE`, `migrate WIRE` or
/// `sample N`, where N is a number from 1 to 10,000 in decimal; all else is [`Status::Usage`]. For
/// `run`, `work` and `check` the manifest is fetched and read, then the template of each class, then unknown names are sought, and
/// then cycles of getters. `check` then writes how many classes there are. For `run` and `work` the script is fetched and read,
/// before anything is written; then `out` gets the text of the first turn and of the turn of each event, for `work` with the line of its
/// work after it, one put each, up to a turn that components nest too deep for, which is [`Status::NestingLimit`]. For `show` and `wire` the template is fetched and read, and
/// `out` gets its canonical spelling, or the text of its wire, and a line feed, in one put. For `migrate` a file is fetched and its JSON
/// read as that of a wire in version 1 or 2, and `out` gets the text of the wire's JSON in version 2 and a line feed, in one put. For `sample` nothing is fetched: the session
/// of the sample application of N rows is played, and `out` gets how many turns it has, how many bytes they are and how many the last is,
/// in one line and one put. `err` gets the line of the status,
/// which is none at [`Status::Done`]. After a whole `run`, `work` or `sample` the session that made the turns is left in `last`, which is as before
/// after all else.
pub fn run<S: Shelf, K: Sink, E: Sink>(
    alloc: Global,
    words: &[&str],
    shelf: &mut S,
    out: &mut K,
    err: &mut E,
    last: &mut Last,
) -> Status
    // Over a shelf that tells its files, `out` took the texts of the output, or by the status a part of them.
    ensures told { (files : List Entry) → S.holds shelf.old ≡ Some files
        → Answers result (K.took out.old) (K.took out.new) (output_of (map (λ w. chars w.now) words.now) files) }
    ensures complete { (files : List Entry) → S.holds shelf.old ≡ Some files
        → S.faults shelf.new ≡ S.faults shelf.old → K.faults out.new ≡ K.faults out.old
        → Completes result (K.took out.old) (K.took out.new) (output_of (map (λ w. chars w.now) words.now) files) }

    // Why it ended so: the line on `err`, and the counts that rose. A fault of `err` changes nothing else.
    ensures ending { (why : Ending) × (result ≡ status_of why)
        × Says (E.took err.old) (E.took err.new) (E.faults err.old) (E.faults err.new) (E.wants err.old) (E.wants err.new) (line_of why)
        × HasCause why (S.misses shelf.old) (S.misses shelf.new) (S.faults shelf.old) (S.faults shelf.new) (K.faults out.old) (K.faults out.new)
        × Untouched why (K.took out.old) (K.took out.new)
        × ((files : List Entry) → S.holds shelf.old ≡ Some files
        → Tells why (output_of (map (λ w. chars w.now) words.now) files) (fetched_by (command_of (map (λ w. chars w.now) words.now)) files)) }

    ensures usage { (result ≡ Status.Usage) ↔ (command_of (map (λ w. chars w.now) words.now) ≡ None) }
    ensures read { result ≡ Status.ReadFault → S.faults shelf.old < S.faults shelf.new }
    ensures write { result ≡ Status.WriteFault → K.faults out.old < K.faults out.new }
    ensures refused { result ≡ Status.Refused → K.took out.new ≡ K.took out.old }
    ensures limit { result ≡ Status.NestingLimit → IsPlay (command_of (map (λ w. chars w.now) words.now)) }

    // What is left behind: after a whole session the one that made the turns, and else what was there.
    ensures holds { (files : List Entry) → S.holds shelf.old ≡ Some files → result ≡ Status.Done
        → Holds (command_of (map (λ w. chars w.now) words.now)) files last.new.session }
    ensures kept { (result ≡ Status.Done → ⊥) → last.new ≡ last.old }
    ensures others { (IsPlay (command_of (map (λ w. chars w.now) words.now)) → ⊥) → last.new ≡ last.old }
{
    let ending = attempt(alloc, words, shelf, out, last);
    say_line(err, &ending);
    status_of(&ending)
}
