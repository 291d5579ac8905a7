// The commands, and the words that give them.
ghost use Rattle.std.specs.Prelude.{◌≡◌, ◌↔◌, ◌≤◌, IsTrue, IfSome, MatchOption, codes, map, option_map};
ghost use Rattle.std.specs.Str.{chars, bytes_eq};
ghost use Rattle.gl_value.specs.Index.{HasPlainStart};
ghost use Rattle.gl_commands.specs.Command.{command_of, sample_command, rows_in};
ghost use Rattle.gl_run.specs.Command.{seen_command, IsSized};

use gl_commands::Told;

/// What the words ask for; files are given by their names.
#[derive(Clone, Copy)]
pub enum Command<'a> {
    /// Plays the session of a manifest and a script, and tells so much of each turn.
    Run {
        told: Told,
        manifest: &'a str,
        script: &'a str,
    },
    /// Shows the canonical spelling of a template.
    Show {
        template: &'a str,
    },
    /// Writes the wire of a template.
    Wire {
        template: &'a str,
    },
    /// Checks the application of a manifest.
    Check {
        manifest: &'a str,
    },
    /// Writes the JSON of the wire of a file in version 2.
    Migrate {
        file: &'a str,
    },
    /// Plays the session of the sample application of so many rows.
    Sample {
        rows: u32,
    },
}

// Whether the word is the command `run`.
#[tactic(auto, using(crate::proofs::Words::word_is))]
fn is_run(word: &str) -> bool
    ensures { result ≡ bytes_eq (chars word.now) (codes "run") }
{
    word == "run"
}

// Whether the word is the command `work`.
#[tactic(auto, using(crate::proofs::Words::word_is))]
fn is_work(word: &str) -> bool
    ensures { result ≡ bytes_eq (chars word.now) (codes "work") }
{
    word == "work"
}

// Whether the word is the command `show`.
#[tactic(auto, using(crate::proofs::Words::word_is))]
fn is_show(word: &str) -> bool
    ensures { result ≡ bytes_eq (chars word.now) (codes "show") }
{
    word == "show"
}

// Whether the word is the command `wire`.
#[tactic(auto, using(crate::proofs::Words::word_is))]
fn is_wire(word: &str) -> bool
    ensures { result ≡ bytes_eq (chars word.now) (codes "wire") }
{
    word == "wire"
}

// Whether the word is the command `check`.
#[tactic(auto, using(crate::proofs::Words::word_is))]
fn is_check(word: &str) -> bool
    ensures { result ≡ bytes_eq (chars word.now) (codes "check") }
{
    word == "check"
}

// Whether the word is the command `migrate`.
#[tactic(auto, using(crate::proofs::Words::word_is))]
fn is_migrate(word: &str) -> bool
    ensures { result ≡ bytes_eq (chars word.now) (codes "migrate") }
{
    word == "migrate"
}

// Whether the word is the command `sample`.
#[tactic(auto, using(crate::proofs::Words::word_is))]
fn is_sample(word: &str) -> bool
    ensures { result ≡ bytes_eq (chars word.now) (codes "sample") }
{
    word == "sample"
}

// Whether a text begins with no sign, and with no zero before another digit.
fn has_plain_start(text: &str) -> bool
    ensures { IsTrue result ↔ HasPlainStart text.now }
{
    let bytes = text.as_bytes();
    !bytes.is_empty() && bytes[0] != b'+' && (bytes[0] != b'0' || bytes.len() == 1)
}

// The number, where a sample may have so many rows.
fn within(number: u64) -> Option<u32>
    ensures { MatchOption result ((1 ≤ number → number ≤ 10000 → ⊥)) (λ n. (n ≡ number) × (1 ≤ n) × (n ≤ 10000)) }
{
    if number >= 1 && number <= 10000 {
        Some(number as u32)
    } else {
        None
    }
}

// How many rows a text asks for.
fn rows_in(text: &str) -> Option<u32>
    ensures told { result ≡ rows_in (chars text.now) }
    ensures sized { IfSome result (λ n. (1 ≤ n) × (n ≤ 10000)) }
{
    if !has_plain_start(text) {
        return None;
    }
    match text.parse::<u64>() {
        Ok(number) => within(number),
        Err(_) => None,
    }
}

// The command for a sample of so many rows as a text asks for.
fn sample_of<'a>(text: &str) -> Option<Command<'a>>
    ensures told { option_map seen_command result ≡ option_map sample_command (rows_in (chars text.now)) }
    ensures sized { IsSized result }
{
    match rows_in(text) {
        Some(rows) => Some(Command::Sample { rows }),
        None => None,
    }
}

/// The command that the words give, if they give one. It takes no memory.
#[tactic(auto, unfolding(gl_commands::specs::Command::command_of))]
pub fn command_of<'a>(words: &[&'a str]) -> Option<Command<'a>>
    ensures told { option_map seen_command result ≡ command_of (map (λ w. chars w.now) words.now) }
    ensures sized { IsSized result }
{
    match words {
        [word, template] if is_show(word) => Some(Command::Show {
            template: *template,
        }),
        [word, template] if is_wire(word) => Some(Command::Wire {
            template: *template,
        }),
        [word, manifest] if is_check(word) => Some(Command::Check {
            manifest: *manifest,
        }),
        [word, file] if is_migrate(word) => Some(Command::Migrate { file: *file }),
        [word, rows] if is_sample(word) => sample_of(*rows),
        [word, manifest, script] if is_run(word) => Some(Command::Run {
            told: Told::Alone,
            manifest: *manifest,
            script: *script,
        }),
        [word, manifest, script] if is_work(word) => Some(Command::Run {
            told: Told::WithWork,
            manifest: *manifest,
            script: *script,
        }),
        _ => None,
    }
}
