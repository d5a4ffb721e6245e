// Whole workings: the records of the choices, then the rule's moves to the end. For the crates above, which prove what they require.
#![tactic(auto)]

ghost use Rattle.std.specs.Prelude.{◌≡◌, Bool, ℕ};
ghost use Rattle.refusals.specs.Numbers.{fault_in};
ghost use Rattle.roommates.specs.Lists.{Square};
ghost use Rattle.roommates.specs.Moves.{outcome, turns};
ghost use Rattle.records.specs.Records.{marked, unmarked, worked_by};
ghost use Rattle.stages.specs.Workings.{work_of, Begun};
ghost use Rattle.stages.specs.Lawful.{Lawful};
ghost use Rattle.steering.specs.Ends.{ended, followed};

use acting::act;
use moves::make_move;
use records::Record;
use refusals::Refusal;
use roommates::Stage;
use stages::Working;

// The records, up to the first that is refused. Where there is none nothing is cleared for the marks.
fn follow(working: &mut Working, records: &[[u8; 2]]) -> Result<(), Refusal>
    requires { Lawful working.old }
    ensures followed { outcome (fault_in result) (work_of working.new)
        ≡ followed working.old (marked (work_of working.old) unmarked) records.now }
    ensures task { working.new.task ≡ working.old.task }
    ensures lawful { Lawful working.new }
{
    if records.is_empty() {
        return Ok(());
    }
    let mut marks = [None; 8];
    for record in records {
        act(Record::from(*record), working, &mut marks)?;
    }
    Ok(())
}

// The rule's moves, one by one, to the end. As many turns as the definition has, and more than there are: a `while let` would want a measure, and
// the count of turns is one.
fn go_on(working: &mut Working)
    requires { Lawful working.old }
    ensures { work_of working.new ≡ ended (turns working.old.task.joints.count) working.old }
{
    let n = working.task.joints.count;
    for _ in 0..n * n + n * n + 1 {
        let Some(x) = working.next else {
            return;
        };
        make_move(working, x).unwrap();
    }
}

// The rule's moves, to the end; those of phase one at once, without a look at the stage before each.
fn conclude(working: &mut Working)
    requires { Lawful working.old }
    ensures { work_of working.new ≡ ended (turns working.old.task.joints.count) working.old }
{
    if working.stage == Stage::Proposing {
        working.propose_on();
    }
    go_on(working);
}

// The choices steer a working that has begun, and unless one is refused the rule then ends it. A refused choice leaves it as it stood.
pub fn steer(working: &mut Working, choices: &[u8]) -> Result<(), Refusal>
    requires { Lawful working.old }
    ensures { (whole : Bool) (n : ℕ) (t : Square) → Begun whole n t working.old
        → outcome (fault_in result) (work_of working.new) ≡ worked_by whole n t choices.now }
{
    let (records, rest) = choices.as_chunks::<2>();
    if !rest.is_empty() {
        return Err(Refusal::BadRecord);
    }
    follow(working, records)?;
    conclude(working);
    Ok(())
}
