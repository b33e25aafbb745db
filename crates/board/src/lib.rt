// The dispatcher's record, which is stepped where it stands.
#![tactic(auto)]

ghost use Rattle.std.specs.Prelude.{◌≡◌};
ghost use Rattle.dispatch.specs.Tick.{tick as ticked};
ghost use Rattle.board.specs.Ran.{ran_of};

use dispatch::{State, Ticked};
use jobs::Tasks;
use plans::Plan;
use tasks::{Refusal, TaskNo};

// What a tick shows: its answer, and what runs on each core in it.
// Fields and no `Result`: what a refused tick runs is told too, as the edit `runs_from_the_record` asks.
#[derive(Clone, Copy)]
pub struct Ran {
    pub answer: Result<(), Refusal>,
    pub runs: [Option<TaskNo>; 16],
}

impl From<Ticked> for Ran {
    ghost from_gives = { λ ticked ran. ran ≡ ran_of ticked };

    // By a `let`: the proof does not take an array of another value straight into a literal.
    fn from(ticked: Ticked) -> Ran {
        let runs = ticked.runs;
        Ran {
            answer: ticked.answer,
            runs,
        }
    }
}

// One tick of the record where it stands, for any plan, any record and any two sets. On a refusal the record is as it was.
pub fn step(state: &mut State, plan: Plan, finished: Tasks, released: Tasks) -> Ran
    ensures { (result ≡ ran_of (ticked plan state.old finished released)) × (state.new ≡ (ticked plan state.old finished released).state) }
{
    let here = *state;
    let ticked = dispatch::tick(plan, here, finished, released);
    let next = ticked.state;
    *state = next;
    Ran::from(ticked)
}
