// Two cells, what is computed of them, and the values at each step.
ghost use Rattle.std.specs.Prelude.{IfOk, IsSome, ◌≡◌, ◌≢◌, true};
ghost use Rattle.gl_tags.specs.Tags.{tag_at, is_dirtyable};

use gl_tags::{TagId, Tags};
use std::alloc::{AllocError, Global};
use std::process::Abort;
use std::test::Fail;

// Whether the tag has the value, and is valid just for snapshots from there on.
fn check_value(rt: &impl Abort, tags: &mut Tags, tag: TagId, value: u128)
    requires { IsSome (tag_at tags.old tag) }
    ensures { tags.new ≡ tags.old }
{
    let found = tags.value(tag);
    assert_eq!(rt; found, value);
    let valid = tags.validate(tag, value);
    assert!(rt; valid);
    if value > 0 {
        let before = tags.validate(tag, value - 1);
        assert!(rt; !before);
    }
}

#[derive(Drop)]
struct Made {
    tags: Tags,
    first: TagId,
    both: TagId,
}

// Two cells at the revisions 0 and 1, and what is computed of both and of the constant tag.
fn make(alloc: Global) -> Result<Made, AllocError>
    ensures first { IfOk result (λ m. is_dirtyable (tag_at m.tags m.first) ≡ true) }
    ensures apart { IfOk result (λ m. m.first ≢ m.both) }
    ensures both { IfOk result (λ m. IsSome (tag_at m.tags m.both)) }
    ensures room { IfOk result (λ m. m.tags.count ≡ 0) }
    ensures clock { IfOk result (λ m. m.tags.clock ≡ 1) }
{
    let mut tags = Tags::new(alloc)?;
    let first = tags.dirtyable()?;
    tags.advance();
    let second = tags.dirtyable()?;
    let both = tags.combine(&[first, second, tags.constant()])?;
    Ok(Made { tags, first, both })
}

#[test]
fn follows(rt: HostRuntime) -> Result<(), Fail> {
    let mut m = make(rt.alloc())?;
    assert!(rt; m.tags.room());
    check_value(&rt, &mut m.tags, m.both, 1);
    m.tags.advance();
    m.tags.dirty(m.first);
    check_value(&rt, &mut m.tags, m.both, 2);
    Ok(())
}

#[test]
fn starts(rt: HostRuntime) -> Result<(), Fail> {
    let mut tags = Tags::new(rt.alloc())?;
    let still = tags.constant();
    check_value(&rt, &mut tags, still, 0);
    Ok(())
}
