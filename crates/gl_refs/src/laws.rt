//! What references mean, and what keeps it. Each function does nothing: its contract is the law. The words of
//! the contracts stand in `specs/Laws.antt`, each with its sentence.

ghost use Rattle.gl_refs.specs.Laws.{MeaningIs, UntouchedStays, ApartStays, KeptIsNow, SetKeeps, BindKeeps, EvaluationKeeps, FreeKeeps, KeptLike, ValidByTag, SourcesAreNamed, ReadLeaves, SetLeaves, MakeLeaves, SourceLeaves, FreeLeaves, SetKeepsMarks, LeavingKeepsMarks, FormsByStamp, MeansProper};

/// What a reference means is one equation, whatever stands in the others.
pub fn meaning_is()
    ensures { MeaningIs }
{}

/// A reference of which no source was touched means the same; so do references that name none whose form changed.
pub fn meaning_stays()
    ensures untouched { UntouchedStays }
    ensures apart { ApartStays }
{}

/// What is kept, and may be used by the tags, is what the reference means now.
pub fn kept_is_now()
    ensures { KeptIsNow }
{}

/// A set, a new reference, an evaluation and an end leave every other reference as it is, with what is kept of it.
pub fn changes_keep()
    ensures set { SetKeeps }
    ensures bind { BindKeeps }
    ensures evaluation { EvaluationKeeps }
    ensures free { FreeKeeps }
{}

/// What tags tell: the sources of what is kept and may be used, and whether a reference is valid.
pub fn tags_tell()
    ensures sources { KeptLike }
    ensures valid { ValidByTag }
{}

/// What a reference means has no other sources than those that are named for it.
pub fn sources_are_named()
    ensures { SourcesAreNamed }
{}

/// A call on one reference leaves every other alone that doesn't read it, with what is kept of it and since when it is
/// valid: a read and an evaluation those that are not read for it, a set and a give those for which the cell or the item
/// is not named, a making and an end all others.
pub fn leaves_alone()
    ensures read { ReadLeaves }
    ensures set { SetLeaves }
    ensures make { MakeLeaves }
    ensures source { SourceLeaves }
    ensures free { FreeLeaves }
{}

/// What is kept for a tag with a mark, the count of dirtyings at that time, stays right: where the mark is the present
/// count, it is the tag's value.
pub fn marks_stay()
    ensures set { SetKeepsMarks }
    ensures leaving { LeavingKeepsMarks }
{}

/// For whoever speaks of references by stamps: a read and an evaluation leave the form at each stamp.
pub fn forms_by_stamp()
    ensures { FormsByStamp }
{}

/// Where constants, cells and items hold proper values, what a reference means is proper, and so is what a read, an
/// evaluation and a look give.
pub fn meaning_is_proper()
    ensures { MeansProper }
{}
