// Why a run ends before all was written, its status and its line.
ghost use Rattle.std.specs.Prelude.{◌≡◌, ◌++◌, IsTrue, codes, true};
ghost use Rattle.gl_base.specs.Texts.{is_ascii_text};
ghost use Rattle.gl_value.specs.Quote.{quoted};
ghost use Rattle.gl_meaning.specs.View.{kind_view};
ghost use Rattle.gl_commands.specs.Lines.{Says, SaysOn};
ghost use Rattle.gl_commands.specs.Output.{grammar_line, unknown_matter, cycle_line, field_line, limit_line};
ghost use Rattle.gl_commands.specs.Run.{file_status, status_of, cause_line, line_of};

use crate::line::{say, say_ascii, say_number, say_quoted};
use crate::{PlayFault, Status};
use gl_load::{LoadCause, LoadFault};
use gl_meaning::Kind;
use gl_outside::Sink;
use gl_value::Text;
use std::alloc::AllocError;
use thiserror::Error;

/// Why a run ends before all was written.
#[derive(Debug, Drop, Error)]
pub enum RunFault {
    #[error("bad command line")]
    Usage,
    /// A file is refused or can't be read, or memory is wanting.
    #[error("{0}")]
    Load(LoadFault),
    /// No wire has the JSON of the file.
    #[error("bad wire")]
    BadWire { file: Text },
    /// A component would stand deeper than the application's limit says, in the turn of that number.
    #[error("turn {turn}: nesting limit {limit}")]
    NestingLimit { turn: u64, limit: u32 },
    #[error("write fault")]
    WriteFault,
    #[error("out of memory")]
    Memory,
}

impl From<LoadFault> for RunFault {
    ghost use Rattle.gl_commands.specs.declared.ending.RunFault.TheVariants.{Load};

    ghost from_gives = { λ fault e. e ≡ Load fault };

    fn from(fault: LoadFault) -> Self {
        RunFault::Load(fault)
    }
}

impl From<AllocError> for RunFault {
    ghost use Rattle.gl_commands.specs.declared.ending.RunFault.TheVariants.{Memory};

    ghost from_gives = { λ _ e. e ≡ Memory };

    fn from(_: AllocError) -> Self {
        RunFault::Memory
    }
}

impl From<PlayFault> for RunFault {
    ghost use Rattle.gl_commands.specs.Run.{play_ending};

    ghost from_gives = { λ fault e. e ≡ play_ending fault };

    fn from(fault: PlayFault) -> Self {
        match fault {
            PlayFault::NestingLimit { turn, limit } => RunFault::NestingLimit { turn, limit },
            PlayFault::WriteFault => RunFault::WriteFault,
            PlayFault::Memory => RunFault::Memory,
        }
    }
}

// The status of a run that ended so for a file.
fn status_of_file(cause: &LoadCause) -> Status
    ensures { result ≡ file_status cause.now }
{
    match cause {
        LoadCause::ReadFault => Status::ReadFault,
        LoadCause::Memory => Status::NoMemory,
        _ => Status::Refused,
    }
}

/// The status of a run that ended so.
pub fn status_of(ending: &Result<(), RunFault>) -> Status
    ensures { result ≡ status_of ending.now }
{
    match ending {
        Ok(()) => Status::Done,
        Err(RunFault::Usage) => Status::Usage,
        Err(RunFault::Load(fault)) => status_of_file(&fault.cause),
        Err(RunFault::BadWire { .. }) => Status::Refused,
        Err(RunFault::NestingLimit { .. }) => Status::NestingLimit,
        Err(RunFault::WriteFault) => Status::WriteFault,
        Err(RunFault::Memory) => Status::NoMemory,
    }
}

// Says the name of a file and what is the matter with it.
fn say_of_file<E: Sink>(err: &mut E, file: &Text, matter: &str) -> bool
    requires { IsTrue (is_ascii_text matter.now) }
    ensures { SaysOn true result (E.took err.old) (E.took err.new) (E.faults err.old) (E.faults err.new) (E.wants err.old) (E.wants err.new) (quoted file.now ++ matter.now) }
{
    let whole = say_quoted(err, true, file.as_str());
    say_ascii(err, whole, matter)
}

// Says the name of a template and the byte at which it is not in the grammar.
fn say_of_grammar<E: Sink>(err: &mut E, file: &Text, offset: u64) -> bool
    ensures { SaysOn true result (E.took err.old) (E.took err.new) (E.faults err.old) (E.faults err.new) (E.wants err.old) (E.wants err.new) (grammar_line file.now offset) }
{
    let whole = say_of_file(err, file, ": not in the grammar at byte ");
    let whole = say_number(err, whole, offset);
    say_ascii(err, whole, "\n")
}

// Says the name of a file, what is the matter with it, and a text between quotation marks.
fn say_quoted_of_file<E: Sink>(err: &mut E, file: &Text, matter: &str, text: &Text) -> bool
    requires { IsTrue (is_ascii_text matter.now) }
    ensures { SaysOn true result (E.took err.old) (E.took err.new) (E.faults err.old) (E.faults err.new) (E.wants err.old) (E.wants err.new) (quoted file.now ++ (matter.now ++ (quoted text.now ++ codes "\n"))) }
{
    let whole = say_of_file(err, file, matter);
    let whole = say_quoted(err, whole, text.as_str());
    say_ascii(err, whole, "\n")
}

// What is the matter with a file in which a name of this kind is not known.
fn unknown_matter(kind: Kind) -> &'static str
    ensures said { result.now ≡ unknown_matter (kind_view kind) }
    ensures ascii { IsTrue (is_ascii_text result.now) }
{
    match kind {
        Kind::Component => ": unknown component ",
        Kind::Helper => ": unknown helper ",
        Kind::Modifier => ": unknown modifier ",
        Kind::Member => ": unknown member ",
        Kind::Local => ": unknown local ",
        Kind::Field => ": unknown field ",
    }
}

// Says the name of a manifest and the first getter that reaches itself.
fn say_of_cycle<E: Sink>(err: &mut E, file: &Text, class: &Text, getter: &Text) -> bool
    ensures { SaysOn true result (E.took err.old) (E.took err.new) (E.faults err.old) (E.faults err.new) (E.wants err.old) (E.wants err.new) (cycle_line file.now class.now getter.now) }
{
    let whole = say_of_file(err, file, ": getter cycle through ");
    let whole = say(err, whole, class.as_str());
    let whole = say_ascii(err, whole, ".");
    let whole = say(err, whole, getter.as_str());
    say_ascii(err, whole, "\n")
}

// Says the name of a script, the place of the event that sets what is no field, and the name that it sets.
fn say_of_field<E: Sink>(err: &mut E, file: &Text, index: u64, name: &Text) -> bool
    ensures { SaysOn true result (E.took err.old) (E.took err.new) (E.faults err.old) (E.faults err.new) (E.wants err.old) (E.wants err.new) (field_line file.now index name.now) }
{
    let whole = say_of_file(err, file, ": event ");
    let whole = say_number(err, whole, index);
    let whole = say_ascii(err, whole, ": unknown field ");
    let whole = say_quoted(err, whole, name.as_str());
    say_ascii(err, whole, "\n")
}

// Says the line of a file that is refused or can't be read.
fn say_cause<E: Sink>(err: &mut E, file: &Text, cause: &LoadCause) -> bool
    ensures { SaysOn true result (E.took err.old) (E.took err.new) (E.faults err.old) (E.faults err.new) (E.wants err.old) (E.wants err.new) (cause_line file.now cause.now) }
{
    match cause {
        LoadCause::Absent => say_of_file(err, file, ": absent\n"),
        LoadCause::TooLong { taken: _ } => say_of_file(err, file, ": longer than 16777216 bytes\n"),
        LoadCause::BadJson => say_of_file(err, file, ": not JSON\n"),
        LoadCause::BadShape { pointer } => say_quoted_of_file(
            err,
            file,
            ": bad shape at ",
            pointer,
        ),
        LoadCause::BadExpression { pointer } => {
            say_quoted_of_file(err, file, ": bad expression at ", pointer)
        }
        LoadCause::NotInGrammar { offset } => say_of_grammar(err, file, *offset),
        LoadCause::UnknownName { kind, name } => {
            say_quoted_of_file(err, file, unknown_matter(*kind), name)
        }
        LoadCause::GetterCycle { class, getter } => say_of_cycle(err, file, class, getter),
        LoadCause::UnknownField { index, name } => say_of_field(err, file, *index, name),
        LoadCause::ReadFault => say_of_file(err, file, ": read fault\n"),
        LoadCause::Memory => say_ascii(err, true, "out of memory\n"),
    }
}

// Says the turn that components nest too deep for, and the limit.
fn say_limit<E: Sink>(err: &mut E, turn: u64, limit: u32) -> bool
    ensures { SaysOn true result (E.took err.old) (E.took err.new) (E.faults err.old) (E.faults err.new) (E.wants err.old) (E.wants err.new) (limit_line turn limit) }
{
    let whole = say_ascii(err, true, "turn ");
    let whole = say_number(err, whole, turn);
    let whole = say_ascii(err, whole, ": nesting limit ");
    let whole = say_number(err, whole, limit as u64);
    say_ascii(err, whole, "\n")
}

// Says the line of a run that ended so, which is none where all was written, and tells whether all was taken.
fn say_ending<E: Sink>(err: &mut E, ending: &Result<(), RunFault>) -> bool
    ensures { SaysOn true result (E.took err.old) (E.took err.new) (E.faults err.old) (E.faults err.new) (E.wants err.old) (E.wants err.new) (line_of ending.now) }
{
    match ending {
        Ok(()) => true,
        Err(RunFault::Usage) => say_ascii(err, true, "bad command line\n"),
        Err(RunFault::Load(fault)) => say_cause(err, &fault.file, &fault.cause),
        Err(RunFault::BadWire { file }) => say_of_file(err, file, ": bad wire\n"),
        Err(RunFault::NestingLimit { turn, limit }) => say_limit(err, *turn, *limit),
        Err(RunFault::WriteFault) => say_ascii(err, true, "write fault\n"),
        Err(RunFault::Memory) => say_ascii(err, true, "out of memory\n"),
    }
}

/// Says the line of a run that ended so. What the sink does not take changes nothing else.
pub fn say_line<E: Sink>(err: &mut E, ending: &Result<(), RunFault>)
    ensures { Says (E.took err.old) (E.took err.new) (E.faults err.old) (E.faults err.new) (E.wants err.old) (E.wants err.new) (line_of ending.now) }
{
    let _whole = say_ending(err, ending);
}
