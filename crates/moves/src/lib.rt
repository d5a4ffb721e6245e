// One move of a working: a choice in whatever stage. For the crates above, which prove what they require. `Roomy` says that the counts do not
// overflow at one move more; it is no invariant, since what a move leaves need not be roomy.
#![tactic(auto)]

ghost use Rattle.std.specs.Prelude.{◌≡◌};
ghost use Rattle.roommates.specs.declared.Stage.TheVariants.{Proposing, Cutting};
ghost use Rattle.moves.specs.Moved.{Moved, Roomy};

use cuts::{cut, may_cut};
use proposals::{may_step, step};
use refusals::Refusal;
use roommates::Stage;
use stages::Working;

// The choice of x in phase one: x steps.
fn move_one(working: &mut Working, x: usize) -> Result<(), Refusal>
    requires { Roomy working.old × (working.old.stage ≡ Proposing) }
    ensures { Moved x working.old working.new result }
{
    let n = working.task.joints;
    if !may_step(n, &working.lists, &working.made.reach, x) {
        return Err(Refusal::ChoiceDoesNotWait);
    }
    step(n, &mut working.lists, &mut working.made, x);
    working.in_one();
    Ok(())
}

// The choice of x in phase two: a cut at x.
fn move_two(working: &mut Working, x: usize) -> Result<(), Refusal>
    requires { Roomy working.old × (working.old.stage ≡ Cutting) }
    ensures { Moved x working.old working.new result }
{
    let n = working.task.joints;
    if !may_cut(n, &working.lists, x) {
        return Err(Refusal::ChoiceHasNoList);
    }
    working.cuts += 1;
    if cut(n, &working.aside, &mut working.lists, x) {
        working.in_two();
    } else {
        working.end(Stage::NoneTwo);
    }
    Ok(())
}

// One move: the choice of x, in whatever stage. A refused choice leaves the working as it stood.
pub fn make_move(working: &mut Working, x: usize) -> Result<(), Refusal>
    requires { Roomy working.old }
    ensures { Moved x working.old working.new result }
{
    match working.stage {
        Stage::Proposing => move_one(working, x),
        Stage::Cutting => move_two(working, x),
        // an arm for each end: one for all would be proved by the same three cases, and the edits change one end alone
        Stage::NoneOne => Err(Refusal::ChoiceLeftOver),
        Stage::NoneTwo => Err(Refusal::ChoiceLeftOver),
        Stage::Paired => Err(Refusal::ChoiceLeftOver),
    }
}
