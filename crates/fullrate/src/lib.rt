// Ticks at full rate: the tasks that may be released, runs that release them as soon as allowed, and what is seen in them.
#![tactic(auto)]

ghost use Rattle.std.specs.Prelude.{◌≡◌, true, false, eqb};
ghost use Rattle.jobs.specs.Jobs.{by_phase};
ghost use Rattle.fullrate.specs.Allowed.{no_tasks, allowed_set};
ghost use Rattle.fullrate.specs.FullRate.{full_tick};
ghost use Rattle.fullrate.specs.Watched.{ran_in, watched};
ghost use Rattle.fullrate.specs.Watching.{saw, watched_at, watched_from};

use board::Ran;
use dispatch::{State, Ticked};
use jobs::{Job, NO_TASKS, Phase, Tasks};
use plans::Plan;
use tasks::{Task, TaskNo};

// ---- The tasks that may be released.

// Rule 3: ended or never released, and in the first case of age p.
fn may_be_released(task: Task, job: Job) -> bool
    ensures { result ≡ by_phase job.phase true false (eqb job.age task.period) }
{
    match job.phase {
        Phase::Never => true,
        Phase::Active => false,
        Phase::Ended => job.age == task.period,
    }
}

// Every task that may be released in the next tick.
pub fn all_allowed(plan: Plan, state: State) -> Tasks
    ensures { result ≡ allowed_set plan state }
{
    let mut set = NO_TASKS;
    for i in 0..plan.count.min(64) {
        if may_be_released(plan.tasks[i], state.jobs[i]) {
            set.members[set.count] = TaskNo(i as u8);
            set.count += 1;
        }
    }
    set
}

// One tick with every task released that may be, and no finishes.
pub fn full_tick(plan: Plan, state: State) -> Ticked
    ensures { result ≡ full_tick plan state }
{
    dispatch::tick(plan, state, NO_TASKS, all_allowed(plan, state))
}

// ---- Runs, and the longest response seen.

// The state after a run, and the longest response that was seen of each task.
#[derive(Clone, Copy)]
pub struct Watched {
    pub state: State,
    pub longest: [u32; 64],
}

// Did this task run on one of the first cores?
fn ran_in(cores: usize, runs: [Option<TaskNo>; 16], task: TaskNo) -> bool
    ensures { result ≡ ran_in cores runs task.0 }
{
    runs[..cores.min(16)].contains(&Some(task))
}

// The longest response seen of each task so far.
#[derive(Clone, Copy)]
struct Seen {
    longest: [u32; 64],
}

// What `watch_from` asks and sees in each tick, and what it ends with, stand in functions of their own: so its code is that of which `keeps_meet` (`board`) speaks.

// No task is finished.
fn none_finished(_seen: Seen, _plan: Plan, _state: State) -> Tasks
    ensures { result ≡ no_tasks }
{
    NO_TASKS
}

// Every task is released that may be.
fn all_released(_seen: Seen, plan: Plan, state: State) -> Tasks
    ensures { result ≡ allowed_set plan state }
{
    all_allowed(plan, state)
}

// What is seen in a tick: the longest response of each task so far, with a job's age if it ran.
fn see(seen: Seen, plan: Plan, ran: Ran, state: State) -> Seen
    ensures { result ≡ saw seen plan ran state }
{
    let mut longest = [0; 64];
    for i in 0..plan.count.min(64) {
        let runs = ran_in(plan.cores, ran.runs, TaskNo(i as u8));
        let response = if runs { state.jobs[i].age } else { 0 };
        longest[i] = seen.longest[i].max(response);
    }
    Seen { longest }
}

// What was seen, and the last state.
fn watched_at(seen: Seen, state: State) -> Watched
    ensures { result ≡ watched_at seen state }
{
    let longest = seen.longest;
    Watched { state, longest }
}

// So many ticks at full rate from a state, which is the record that is kept here and stepped where it stands.
fn watch_from(mut seen: Seen, plan: Plan, mut state: State, ticks: usize) -> Watched
    ensures { result ≡ watched_from seen plan state ticks }
{
    let mut n: usize = 0;
    while n < ticks {
        let finished = none_finished(seen, plan, state);
        let released = all_released(seen, plan, state);
        let ran = board::step(&mut state, plan, finished, released);
        seen = see(seen, plan, ran, state);
        n += 1;
    }
    watched_at(seen, state)
}

// So many ticks from a fresh state at full rate.
pub fn watch(plan: Plan, ticks: usize) -> Watched
    ensures { result ≡ watched plan ticks }
{
    let seen = Seen { longest: [0; 64] };
    watch_from(seen, plan, dispatch::fresh(), ticks)
}
