// A working in code: its lists, its stage after a step or a cut, and the joint that the rule names. For the crates above, which prove
// what they require.
#![tactic(auto)]

ghost use Rattle.std.specs.Prelude.{◌≡◌, ◌≤◌, None};
ghost use Rattle.roommates.specs.declared.Stage.TheVariants.{Proposing};
ghost use Rattle.roommates.specs.PhaseOne.{phase_one};
ghost use Rattle.roommates.specs.Moves.{in_two, end_one, in_one};
ghost use Rattle.stages.specs.Workings.{work_of, Ruled, Becomes, Begun};
ghost use Rattle.stages.specs.Lawful.{Lawful};
ghost use Rattle.sheet.specs.Square.{SquarePromise};

use cuts::set_aside;
use lists::rows::list_length;
use proposals::{Progress, nothing_made, run_on, some_emptied};
use roommates::Stage;
use ruling::{longest_list, lowest_waiting};
use sections::Joints;

// What is worked on: how many joints, and settle's working if `whole`, else shorten's. A flag, as the definitions and C's call of the counts
// have it: an enum would be turned into it in each clause.
#[derive(Clone, Copy)]
pub struct Task {
    pub joints: Joints,
    pub whole: bool,
}

// next: the joint that the rule names, if any; aside: 1 for a joint set aside, else 0, bytes as those that say who received. The stage
// is the definitions' own, so the joint stands beside it and not in it. `Lawful` is what a working is that may go on; it is no invariant, since a
// move changes the lists first and then the stage.
#[derive(Clone, Copy)]
pub struct Working {
    pub task: Task,
    pub stage: Stage,
    pub next: Option<usize>,
    pub lists: [[u8; 128]; 128],
    pub made: Progress,
    pub aside: [u8; 128],
    pub cuts: usize,
}

impl Working {
    // Another stage, in which the rule names this joint, or none.
    fn stand(&mut self, stage: Stage, next: Option<usize>)
        ensures { self.new ≡ record self.old { stage = stage; next = next } }
    {
        self.stage = stage;
        self.next = next;
    }

    // An end: the rule names no joint.
    pub fn end(&mut self, stage: Stage)
        ensures { self.new ≡ record self.old { stage = stage; next = None } }
    {
        self.stand(stage, None);
    }

    // Phase two runs while some list is longer than one: so while the longest is.
    pub fn in_two(&mut self)
        ensures { Becomes self.old (in_two self.old.task.joints.count (work_of self.old)) self.new }
    {
        let n = self.task.joints;
        let longest = longest_list(n, &self.lists);
        match list_length(n, &self.lists[longest]) {
            0 | 1 => self.end(Stage::Paired),
            _ => self.stand(Stage::Cutting, Some(longest)),
        }
    }

    // Phase one ends: none, shorten's lists, or phase two with joints set aside.
    fn end_one(&mut self)
        ensures { Becomes self.old (end_one self.old.task.whole self.old.task.joints.count (work_of self.old)) self.new }
    {
        let n = self.task.joints;
        if some_emptied(n, &self.lists, &self.made.received) {
            self.end(Stage::NoneOne);
        } else if self.task.whole {
            self.aside = set_aside(n, &self.lists);
            self.in_two();
        } else {
            self.end(Stage::Paired);
        }
    }

    // Phase one runs while somebody waits. The stage goes as a clause, here and in the moves: with a type for each stage a move would make a working
    // anew.
    pub fn in_one(&mut self)
        requires { self.old.stage ≡ Proposing }
        ensures { Becomes self.old (in_one self.old.task.whole self.old.task.joints.count (work_of self.old)) self.new }
    {
        match lowest_waiting(self.task.joints, &self.lists, &self.made.reach) {
            Some(low) => self.stand(Stage::Proposing, Some(low)),
            None => self.end_one(),
        }
    }

    // A working of these lists begins.
    pub fn begin(task: Task, lists: &[[u8; 128]; 128]) -> Working
        ensures begun { Begun task.whole task.joints.count lists.now result }
        ensures ruled { Ruled result }
        ensures lawful { SquarePromise task.joints.count lists.now → Lawful result }
    {
        let mut begun = Working {
            task,
            stage: Stage::Proposing,
            next: None,
            lists: *lists,
            made: nothing_made(),
            aside: [0; 128],
            cuts: 0,
        };
        begun.in_one();
        begun
    }

    // Phase one by the rule, to its end, at once.
    pub fn propose_on(&mut self)
        requires { (self.old.made.proposals ≤ 65536) × (self.old.stage ≡ Proposing) }
        ensures { Becomes self.old (in_one self.old.task.whole self.old.task.joints.count (phase_one self.old.task.joints.count (work_of self.old))) self.new }
    {
        run_on(self.task.joints, &mut self.lists, &mut self.made);
        self.in_one();
    }
}
