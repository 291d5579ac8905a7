// What is told of a turn.
ghost use Rattle.std.specs.Prelude.{◌≡◌, IfOk};
ghost use Rattle.gl_meaning.specs.Session.{work_line};
ghost use Rattle.gl_session.specs.Turn.{work_view};
ghost use Rattle.gl_run.specs.Told.{seen_text};

use gl_commands::Told;
use gl_session::{Turn, Work};
use gl_value::Text;
use std::alloc::{AllocError, Global};

// The line of the work of a turn.
fn work_line(alloc: Global, work: &Work) -> Result<Text, AllocError>
    ensures { IfOk result (λ t. t ≡ work_line (work_view work.now)) }
{
    let mut line = Text::new(alloc);
    line.push_ascii("work ")?;
    line.push_number(work.evaluated)?;
    line.push_ascii(" made ")?;
    line.push_number(work.made)?;
    line.push_ascii(" moved ")?;
    line.push_number(work.moved)?;
    line.push_ascii("\n")?;
    Ok(line)
}

/// What is written of a turn.
pub fn text_of(alloc: Global, told: Told, turn: Turn) -> Result<Text, AllocError>
    ensures { IfOk result (λ t. t ≡ seen_text told turn) }
{
    let work = turn.work;
    let mut text = turn.text;
    match told {
        Told::Alone => Ok(text),
        Told::WithWork => {
            let line = work_line(alloc, &work)?;
            text.push_text(&line)?;
            Ok(text)
        }
    }
}
