// Fetches files, and reads the trees of templates in them.
ghost use Rattle.std.specs.Prelude.{◌≡◌, ◌≤◌, ◌∷◌, [], ℕ, List, Some, IfErr, length};
ghost use Rattle.std.specs.Str.{chars};
ghost use Rattle.gl_base.specs.Texts.{Text};
ghost use Rattle.gl_ast.specs.Template.{body_of};
ghost use Rattle.gl_outside.specs.Shelf.{Entry};
ghost use Rattle.gl_parse.specs.ReadStmt.{template_of};
ghost use Rattle.gl_load.specs.Load.{small_file, spelled, template_in};
ghost use Rattle.gl_parse.specs.FaultPlace.{template_place};
ghost use Rattle.gl_load.specs.Loads.{Gives, HasCause};

use crate::LoadCause;
use gl_ast::Template;
use gl_outside::{Shelf, ShelfFault};
use gl_parse::{ParseFault, template};
use std::alloc::Global;

const MOST: usize = 16_777_216;

/// The bytes of a file that is there and isn't too long. One byte more than the most is asked for, to see it.
#[tactic(auto, unfolding(crate::specs::Load::small_file))]
pub fn fetch_small<S: Shelf>(alloc: Global, shelf: &mut S, name: &str) -> Result<Vec<u8>, LoadCause>
    ensures keeps { S.holds shelf.new ≡ S.holds shelf.old }
    ensures told { (files : List Entry) → S.holds shelf.old ≡ Some files → Gives (λ v. v.items) result (small_file files (chars name.now)) }
    ensures causes { IfErr result (λ e. HasCause e (S.misses shelf.old) (S.misses shelf.new) (S.faults shelf.old) (S.faults shelf.new)) }
    ensures misses_stay { S.misses shelf.old ≤ S.misses shelf.new }
    ensures faults_stay { S.faults shelf.old ≤ S.faults shelf.new }
{
    let mut bytes = Vec::new(alloc);
    match shelf.fetch(name, MOST + 1, &mut bytes) {
        Ok(()) => {
            if bytes.len() > MOST {
                return Err(LoadCause::TooLong {
                    taken: bytes.len() as u64,
                });
            }
            Ok(bytes)
        }
        Err(ShelfFault::Absent) => Err(LoadCause::Absent),
        Err(ShelfFault::Failed) => Err(LoadCause::ReadFault),
        Err(ShelfFault::Memory) => Err(LoadCause::Memory),
    }
}

// The template that the bytes spell.
fn spelled(alloc: Global, bytes: &[u8]) -> Result<Template, LoadCause>
    ensures told { Gives (λ t. body_of t.body) result (spelled (template_place bytes.now) (template_of bytes.now)) }
    ensures causes { IfErr result (λ e. (misses misses_now faults faults_now : ℕ) → HasCause e misses misses_now faults faults_now) }
{
    match template(alloc, bytes) {
        Ok(template) => Ok(template),
        Err(ParseFault::NotInGrammar { offset }) => Err(LoadCause::NotInGrammar { offset }),
        Err(ParseFault::Memory) => Err(LoadCause::Memory),
    }
}

/// The template that a file spells, or why there is none. Contracts see its tree.
#[tactic(auto, unfolding(crate::specs::Load::template_in))]
pub fn template_in<S: Shelf>(
    alloc: Global,
    shelf: &mut S,
    name: &str,
) -> Result<Template, LoadCause>
    ensures keeps { S.holds shelf.new ≡ S.holds shelf.old }
    ensures told { (files : List Entry) → S.holds shelf.old ≡ Some files → Gives (λ t. body_of t.body) result (template_in files (chars name.now)) }
    ensures causes { IfErr result (λ e. HasCause e (S.misses shelf.old) (S.misses shelf.new) (S.faults shelf.old) (S.faults shelf.new)) }
    ensures misses_stay { S.misses shelf.old ≤ S.misses shelf.new }
    ensures faults_stay { S.faults shelf.old ≤ S.faults shelf.new }
{
    let bytes = fetch_small(alloc, shelf, name)?;
    spelled(alloc, &bytes)
}
