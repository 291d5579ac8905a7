// References that end, where no live one reads them.
ghost use Rattle.std.specs.Prelude.{◌≡◌, OnOk, IsSome, [], ◌∷◌};
ghost use Rattle.gl_refs.specs.Refs.{forms_of};
ghost use Rattle.gl_refs.specs.Forms.{IsUnread};
ghost use Rattle.gl_plain.specs.Ids.{ref as ref_id, hit, occurs};
ghost use Rattle.gl_vm.specs.Led.{Led};
ghost use Rattle.gl_vm.specs.View.{Calm};
ghost use Rattle.gl_code.specs.View.{refs_made};
ghost use Rattle.gl_code.specs.CodeView.{seen_spot};
ghost use Rattle.gl_ends.specs.Ending.{Ends};

use gl_code::Spot;
use gl_refs::{Ids, RefId};
use gl_vm::Vm;
use std::alloc::AllocError;

// Ends a reference. Where it is not live, or a live one reads it, it answers as for want of memory.
fn end_reference(vm: &mut Vm, id: RefId) -> Result<(), AllocError>
    ensures ends { (n : _) → OnOk result (Ends n (λ q. hit q (ref_id id.1)) vm.old vm.new) }
    ensures calm { Calm vm.old → Calm vm.new }
    ensures led { Led vm.old.refs → Led vm.new.refs }
    ensures tree { OnOk result (vm.new.tree ≡ vm.old.tree) }
{
    if !vm.refs.unread(id) {
        return Err(AllocError);
    }
    vm.end_reference(id);
    Ok(())
}

/// Ends references, from the last to the first.
pub(crate) fn end_references(vm: &mut Vm, ids: &Ids) -> Result<(), AllocError>
    ensures ends { (n : _) → OnOk result (Ends n (λ q. occurs q (refs_made ids.now)) vm.old vm.new) }
    ensures calm { Calm vm.old → Calm vm.new }
    ensures led { Led vm.old.refs → Led vm.new.refs }
    ensures tree { OnOk result (vm.new.tree ≡ vm.old.tree) }
{
    let mut left = ids.as_slice();
    while let Some(parts) = left.split_last() {
        end_reference(vm, *parts.0)?;
        left = parts.1;
    }
    Ok(())
}

/// Ends a position, and then what was made for it.
pub(crate) fn end_spot(vm: &mut Vm, spot: &Spot) -> Result<(), AllocError>
    ensures ends { (n : _) → OnOk result (Ends n (λ q. occurs q (seen_spot spot.now).made) vm.old vm.new) }
    ensures calm { Calm vm.old → Calm vm.new }
    ensures led { Led vm.old.refs → Led vm.new.refs }
    ensures tree { OnOk result (vm.new.tree ≡ vm.old.tree) }
{
    end_reference(vm, spot.id)?;
    end_references(vm, &spot.made)
}

/// Ends the references of an item's value and index.
pub(crate) fn end_pair(vm: &mut Vm, value: RefId, index: RefId) -> Result<(), AllocError>
    ensures ends { (n : _) → OnOk result (Ends n (λ q. occurs q (ref_id value.1 ∷ ref_id index.1 ∷ [])) vm.old vm.new) }
    ensures calm { Calm vm.old → Calm vm.new }
    ensures led { Led vm.old.refs → Led vm.new.refs }
    ensures tree { OnOk result (vm.new.tree ≡ vm.old.tree) }
{
    end_reference(vm, index)?;
    end_reference(vm, value)
}
