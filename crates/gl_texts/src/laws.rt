//! The laws of the text of a turn. Each function does nothing: its contract is the law.

ghost use Rattle.gl_texts.specs.Laws.{TreeLines, InstallLines, UpdateLines, DestroyLines, FirstText, NextText, PutsText};

/// The nodes of a machine that follows a state of a session are written as its rendering is.
pub fn tree()
    ensures { TreeLines }
{}

/// What a turn installed, updated and destroyed is written as its log has it.
pub fn logs()
    ensures installed { InstallLines }
    ensures updated { UpdateLines }
    ensures destroyed { DestroyLines }
{}

/// So the whole text of a turn can be read off the machine: of the first one, of the next one after an event, and through the words.
pub fn texts()
    ensures first { FirstText }
    ensures next { NextText }
    ensures puts { PutsText }
{}
