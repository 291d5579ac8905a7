//! The laws of what references mean. Each function does nothing: its contract is the law.

ghost use Rattle.std.specs.Prelude.{IsSome};
ghost use Rattle.gl_refs.specs.State.{IsKept};
ghost use Rattle.gl_refs.specs.Refs.{rows_of, forms_of};
ghost use Rattle.gl_vm.specs.Led.{Led};
ghost use Rattle.gl_means.specs.Laws.{ExpressionMeans, ExpressionsMean, PositionsKeep, PositionsStill, FreshStands, PositionsStand, MeansExpression, KeepsExpression, EvaluatesPositions, FreshPositions};

use gl_refs::RefId;
use gl_vm::Vm;

/// In the plain state a reference that was bound for an expression means what the expression gives, value and sources.
pub fn expressions()
    ensures one { ExpressionMeans }
    ensures all { ExpressionsMean }
{}

/// In the plain state each position of a tree that stands was evaluated to what the meaning gives for it.
pub fn plain_positions()
    ensures kept { PositionsKeep }
    ensures still { PositionsStill }
    ensures fresh { FreshStands }
    ensures stand { PositionsStand }
{}

/// In the machine a reference that was bound for an expression means what the expression gives.
pub fn means(vm: &Vm, id: RefId)
    requires { IsSome (forms_of vm.now.refs id) }
    ensures { MeansExpression vm.now id }
{
    vm.refs.sound();
}

/// What is kept of its last evaluation and may be used is that: the value, and the sources, which are those to whose
/// tags its tag leads.
pub fn keeps(vm: &Vm, id: RefId)
    requires { IsKept vm.now.refs.tags (rows_of vm.now.refs) id }
    ensures { KeepsExpression vm.now id }
{
    vm.keeps_meaning(id);
}

/// In the machine each position of a tree that follows a state of a session was evaluated, and would be again, to what
/// the meaning gives for it in the state's rendering. So it is, after the sets of an event, of those that aren't stale.
pub fn positions(vm: &Vm)
    requires { Led vm.now.refs }
    ensures follows { EvaluatesPositions vm.now }
    ensures fresh { FreshPositions vm.now }
{
    vm.refs.sound();
}
