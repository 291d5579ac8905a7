// The log of what was destroyed.
ghost use Rattle.std.specs.Prelude.{◌≡◌, [], ◌∷◌, ◌++◌, IfOk, OnOk, OnErr, map, filter, length};
ghost use Rattle.gl_destroy.specs.What.{is_logged};
ghost use Rattle.gl_destroy.specs.View.{seen_what};

use crate::What;
use gl_arena::DestroyId;
use std::alloc::{AllocError, Global};
use std::marker::Model;

/// The modifiers and the instances with teardown that were destroyed, in the order in which their lines are printed.
#[derive(Drop)]
pub struct Log {
    list: Vec<What>,
}

impl Model for Log {
    ghost use Rattle.std.specs.Prelude.{List, map};
    ghost use Rattle.std.specs.Coded.{coded_list};
    ghost use Rattle.gl_destroy.specs.What as w;
    ghost use Rattle.gl_destroy.specs.View.{seen_what};

    ghost Value = { List w.What };

    ghost coded = { coded_list w.what_code };

    ghost view = { λ a. map seen_what a.list.items };
}

impl Log {
    /// The empty log.
    pub fn new(alloc: Global) -> Result<Log, AllocError>
        ensures { IfOk result (λ l. l ≡ []) }
    {
        Ok(Log {
            list: Vec::new(alloc),
        })
    }

    /// What was destroyed, in order.
    pub fn as_slice(&self) -> &[What]
        ensures { map seen_what result.now ≡ self.now }
    {
        self.list.as_slice()
    }

    // Tells of what was destroyed, in that order.
    pub(crate) fn tell(&mut self, order: &[(DestroyId, What)]) -> Result<(), AllocError>
        ensures ok { OnOk result (self.new ≡ self.old ++ filter is_logged (map (λ e. seen_what e.1) order.now)) }
        ensures err { OnErr result (self.new ≡ self.old) }
    {
        let lines = lines_of(*self.list.allocator(), order)?;
        if self.list.is_empty() {
            self.list = lines;
        } else {
            self.list.extend_from_slice(lines.as_slice())?;
        }
        Ok(())
    }
}

fn lines_of(alloc: Global, order: &[(DestroyId, What)]) -> Result<Vec<What>, AllocError>
    ensures { IfOk result (λ v. map seen_what v.items ≡ filter is_logged (map (λ e. seen_what e.1) order.now)) }
{
    let mut lines = Vec::with_capacity(alloc, order.len())?;
    for entry in order {
        if entry.1.is_logged() {
            lines.push(entry.1)?;
        }
    }
    Ok(lines)
}
