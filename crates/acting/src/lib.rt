// One record acts on a working and its marks. For the crates above, which prove what they require. The two go beside each other and not in a
// struct: so `save`'s signature says that it changes the marks alone, and `restore`'s that it changes the working alone.
#![tactic(auto)]

ghost use Rattle.std.specs.Prelude.{◌≡◌};
ghost use Rattle.refusals.specs.Numbers.{fault_in};
ghost use Rattle.records.specs.Records.{acted, acts};
ghost use Rattle.records.specs.Choices.{recorded};
ghost use Rattle.acting.specs.Marks.{marked_at, AllLawful};

use marks::{restore, save};
use moves::make_move;
use records::{Choice, Record};
use refusals::Refusal;
use stages::Working;

fn choose(
    choice: Choice,
    working: &mut Working,
    marks: &mut [Option<Working>; 8],
) -> Result<(), Refusal>
    requires { AllLawful working.old marks.old }
    ensures acts { acted (fault_in result) (marked_at working.new marks.new)
        ≡ acts working.old.task.whole working.old.task.joints.count (marked_at working.old marks.old) (recorded choice) }
    ensures task { working.new.task ≡ working.old.task }
    ensures lawful { AllLawful working.new marks.new }
{
    match choice {
        Choice::Step(x) => make_move(working, usize::from(x)),
        Choice::Set(m) => save(usize::from(m), working, marks),
        Choice::Return(m) => restore(usize::from(m), working, marks),
    }
}

// A refused record leaves both as they stood.
pub fn act(
    met: Record,
    working: &mut Working,
    marks: &mut [Option<Working>; 8],
) -> Result<(), Refusal>
    requires { AllLawful working.old marks.old }
    ensures acts { acted (fault_in result) (marked_at working.new marks.new)
        ≡ acts working.old.task.whole working.old.task.joints.count (marked_at working.old marks.old) met }
    ensures task { working.new.task ≡ working.old.task }
    ensures lawful { AllLawful working.new marks.new }
{
    let choice = Choice::try_from(met)?;
    choose(choice, working, marks)
}
