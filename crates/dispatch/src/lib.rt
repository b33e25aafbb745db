// The dispatcher: a fresh state, and one tick by the six rules.
#![tactic(auto)]

ghost use Rattle.std.specs.Prelude.{◌≡◌, true, not, ◌&&◌, cond, ℕ, ◌+◌, ◌≤◌, ◌<◌, min};
ghost use Rattle.tasks.specs.Below.{tabulate, padded, first};
ghost use Rattle.tasks.specs.Answers.{Accepted};
ghost use Rattle.plans.specs.Pieces.{task_of, piece_of};
ghost use Rattle.plans.specs.Shape.{is_last, checked_plan};
ghost use Rattle.jobs.specs.Jobs.{no_run, Runs};
ghost use Rattle.jobs.specs.Sets.{member};
ghost use Rattle.dispatch.specs.States.{fresh_state, well_made};
ghost use Rattle.dispatch.specs.Tick.{judged, tick as ticked};
ghost use Rattle.dispatch.specs.Advance.{next_state};
ghost use Rattle.dispatch.specs.Choice.{no_stand, stand_of, StandsOf, found as found_best};
ghost use Rattle.dispatch.specs.Rules.{ended_job, finished_job, finish, mark_late, first_piece, released_job, release, age as aged, chosen, ran_job, run, aged_job, count_preempted};
ghost use Rattle.dispatch.specs.Sound.{Sound, AtPieces, Filled};
ghost use Rattle.dispatch.specs.Refusing.{not_run, too_soon, still_active, lowest_no, judged_sets};

use jobs::{Job, NO_JOB, Phase, Tasks};
use plans::{NO_PIECE, Piece, Plan};
use tasks::{Refusal, Task, TaskNo};

// What a tick answers, what runs on each core in it, and the next state. On a refusal nothing runs and the state is the one given.
// A struct and no `Result`: a refused tick too hands back what runs, which is nothing, and the state given, from which the requests after it go on (`refused` in specs/Tick.antt, `after` in promise).
#[derive(Clone, Copy)]
pub struct Ticked {
    pub answer: Result<(), Refusal>,
    pub runs: [Option<TaskNo>; 16],
    pub state: State,
}

// A fresh state has nothing released and zeros.
pub fn fresh() -> State
    ensures { result ≡ fresh_state }
{
    State {
        jobs: [NO_JOB; 64],
        last: [None; 16],
        late: 0,
        preemptions: 0,
    }
}

// One tick, for any plan, any state and any two sets: the rules in their order, or a refusal.
pub fn tick(plan: Plan, state: State, finished: Tasks, released: Tasks) -> Ticked
    ensures { result ≡ ticked plan state finished released }
{
    match judge(plan, state, finished, released) {
        Ok(()) => {
            let next = state.next(plan, finished, released);
            let runs = next.last;
            Ticked {
                answer: Ok(()),
                runs,
                state: next,
            }
        }
        Err(refusal) => Ticked {
            answer: Err(refusal),
            runs: [None; 16],
            state,
        },
    }
}

// Whether a tick is refused: the plan is looked at first, then the state, then the two sets.
// The four stand apart, as in `tick`: in one struct each clause would name them through it, and `tick` would take them apart.
fn judge(plan: Plan, state: State, finished: Tasks, released: Tasks) -> Result<(), Refusal>
    ensures { result ≡ judged plan state finished released }
{
    plans::check_plan(plan)?;
    if !jobs::well_made(plan, state.jobs, state.last) {
        return Err(Refusal::NotWellMade);
    }
    judge_sets(plan, state, finished, released)
}

// ---- The state and the six rules.

// A job for each task, what ran on each core in the last tick, and two totals.
#[derive(Clone, Copy)]
pub struct State {
    pub jobs: [Job; 64],
    pub last: [Option<TaskNo>; 16],
    pub late: u32,
    pub preemptions: u32,
}

// `Filled`, `Sound` and `count ≤ 64` stand in the clauses of several rules: the state that `tick` is given need not have them, so a type with them would be a second state.
impl State {
    // The state after the rules, in their order.
    fn next(self, plan: Plan, finished: Tasks, released: Tasks) -> State
        requires { (checked_plan plan ≡ Accepted) × (well_made plan self ≡ true) }
        ensures { result ≡ next_state plan finished released self }
    {
        let after = self.finish(plan.count, finished);
        after
            .mark_late(plan.count, plan.tasks)
            .release(plan.count, first_pieces(plan), released)
            .run(plan)
            .count_preempted(plan.cores, after.jobs, after.last)
            .age(plan.count, plan.tasks)
    }

    // Rule 1: a finished task ends its job.
    fn finish(mut self, count: usize, finished: Tasks) -> State
        requires { count ≤ 64 }
        ensures { (p : Plan) → p.count ≡ count → result ≡ finish p finished self }
    {
        let marks = jobs::marks(finished);
        let mut jobs = [NO_JOB; 64];
        for i in 0..count {
            jobs[i] = finished_job(self.jobs[i], marks[i]);
        }
        self.jobs = jobs;
        self
    }

    // Rule 2: each active job with age = d and no late mark is marked and counted late.
    fn mark_late(mut self, count: usize, tasks: [Task; 64]) -> State
        requires { (count ≤ 64) × Filled count self }
        ensures { (p : Plan) → p.count ≡ count → p.tasks ≡ tasks → result ≡ mark_late p self }
    {
        let mut late: u32 = 0;
        for i in 0..count {
            let mut job = self.jobs[i];
            let turns = job.is_active() & (job.age == tasks[i].deadline) & !job.late;
            job.late = turns | job.late;
            self.jobs[i] = job;
            late += turns as u32;
        }
        self.late = self.late.saturating_add(late);
        self
    }

    // Rule 3: each released task becomes active, age 0, first piece.
    fn release(mut self, count: usize, firsts: [u8; 256], released: Tasks) -> State
        requires { (count ≤ 64) × Filled count self }
        ensures { (p : Plan) → p.count ≡ count → firsts ≡ tabulate 256 (first_piece p) → result ≡ release p released self }
    {
        let marks = jobs::marks(released);
        for i in 0..count {
            self.jobs[i] = released_job(self.jobs[i], marks[i], firsts[i]);
        }
        self
    }

    // Rules 4 and 5: all runners are chosen before any of them has run.
    fn run(self, plan: Plan) -> State
        requires { Sound plan × AtPieces plan self × Filled plan.count self }
        ensures { result ≡ run plan self }
    {
        let stands = self.stands(plan);
        let last = choose(plan, stands);
        self.ran(plan, stands, last)
    }

    // Where each job stands.
    fn stands(self, plan: Plan) -> [Stand; 64]
        requires { Sound plan × AtPieces plan self }
        ensures { result ≡ padded 64 plan.count no_stand (stand_of plan self) }
    {
        let mut stands = [NO_STAND; 64];
        for i in 0..plan.count {
            let job = self.jobs[i];
            let place = job.piece as usize;
            let after = place + 1;
            let piece = plan.pieces[place];
            let task = piece.task.index();
            let next = plan.pieces[after.min(127)];
            stands[i] = Stand {
                active: job.is_active(),
                more: (after < plan.placed) & (task == next.task.index()),
                piece,
                deadline: plan.tasks[task].deadline,
            };
        }
        stands
    }

    // The state after those that were chosen have run, the stands being its own.
    fn ran(mut self, plan: Plan, stands: [Stand; 64], last: [Option<TaskNo>; 16]) -> State
        requires { Sound plan × StandsOf plan self stands × (last ≡ padded 16 plan.cores no_run (chosen plan self)) × Filled plan.count self }
        ensures { result ≡ run plan self }
    {
        for i in 0..plan.count {
            let stand = stands[i];
            let runs = last[stand.piece.core.index()] == Some(TaskNo(i as u8));
            self.jobs[i] = ran_job(self.jobs[i], runs, stand);
        }
        self.last = last;
        self
    }

    // The preemptions, `jobs` and `last` being those of the state after rule 1 and this one having what runs now.
    fn count_preempted(mut self, cores: usize, jobs: [Job; 64], last: [Option<TaskNo>; 16]) -> State
        requires { cores ≤ 16 }
        ensures { (p : Plan) (after : State) → p.cores ≡ cores → after.jobs ≡ jobs → after.last ≡ last → result ≡ count_preempted p after self }
    {
        let mut count: u32 = 0;
        for x in 0..cores {
            let before = last[x];
            if let Some(task) = before {
                let t = task.index();
                let job = jobs[t.min(63)];
                let gone = self.last[x] != before;
                count += ((t < 64) & job.is_active() & gone) as u32;
            }
        }
        self.preemptions = self.preemptions.saturating_add(count);
        self
    }

    // Rule 6: ages of all tasks once released rise by 1, up to p.
    fn age(mut self, count: usize, tasks: [Task; 64]) -> State
        requires { (count ≤ 64) × Filled count self }
        ensures { (p : Plan) → p.count ≡ count → p.tasks ≡ tasks → result ≡ aged p self }
    {
        for i in 0..count {
            self.jobs[i] = aged_job(self.jobs[i], tasks[i].period);
        }
        self
    }
}

// ---- The rules for one job.
// Each is told whether its task is among those that it speaks of, as its definition asks by `member`.

// Rule 1 for one job, whose task is among the finished ones or not.
fn finished_job(job: Job, finished: bool) -> Job
    ensures { (fs : Tasks) (i : ℕ) → member fs i ≡ finished → result ≡ finished_job fs i job }
{
    if finished & job.is_active() {
        ended_job(job)
    } else {
        job
    }
}

fn ended_job(job: Job) -> Job
    ensures { result ≡ ended_job job }
{
    Job {
        phase: Phase::Ended,
        age: job.age,
        ..NO_JOB
    }
}

// Rule 3 for one job, whose task is among the released ones or not.
fn released_job(job: Job, released: bool, first: u8) -> Job
    ensures { (p : Plan) (rs : Tasks) (i : ℕ) → member rs i ≡ released → first_piece p i ≡ first → result ≡ released_job p rs i job }
{
    if released {
        Job {
            phase: Phase::Active,
            piece: first,
            ..NO_JOB
        }
    } else {
        job
    }
}

// The first piece of each task, in one walk over the pieces from the last to the first; the plan's count where there is none, as `first_piece` says it.
fn first_pieces(plan: Plan) -> [u8; 256]
    requires { plan.placed ≤ 128 }
    ensures { result ≡ tabulate 256 (first_piece plan) }
{
    let mut firsts = [plan.placed as u8; 256];
    for j in (0..plan.placed).rev() {
        let piece = plan.pieces[j];
        firsts[piece.task.index()] = j as u8;
    }
    firsts
}

// Rules 4 and 5 for one job, which its core runs or not, standing so.
fn ran_job(mut job: Job, runs: bool, stand: Stand) -> Job
    requires { stand.more ≡ true → job.piece < 255 }
    ensures { (p : Plan) → piece_of p job.piece ≡ stand.piece → is_last (piece_of p) p.placed job.piece ≡ not stand.more → result ≡ cond (stand.active && runs) (ran_job p job) job }
{
    if stand.active & runs {
        if (job.ran as u64) + 1 < stand.piece.cost as u64 {
            job.ran += 1;
        } else if stand.more {
            job.piece += 1;
            job.ran = 0;
        } else {
            job = ended_job(job);
        }
    }
    job
}

// Rule 6 for one job, whose task has this period.
fn aged_job(mut job: Job, period: u32) -> Job
    ensures { (p : Plan) (i : ℕ) → (task_of p i).period ≡ period → result ≡ aged_job p i job }
{
    if job.once_released() {
        job.age = job.age.saturating_add(1).min(period);
    }
    job
}

// ---- The choice of what runs on each core.

// Where a job stands, active or not, since a runner is looked up here by its number: whether it is active, its piece, whether its task has one after that, and its task's deadline.
#[derive(Clone, Copy)]
struct Stand {
    active: bool,
    more: bool,
    piece: Piece,
    deadline: u32,
}

// Where no job stands.
const NO_STAND: Stand = Stand {
    active: false,
    more: false,
    piece: NO_PIECE,
    deadline: 0,
};

// What runs on each core, the stands being a state's: one walk over the tasks, each job against the best found so far on its core.
fn choose(plan: Plan, stands: [Stand; 64]) -> [Option<TaskNo>; 16]
    requires { Sound plan × ((s : State) × StandsOf plan s stands) }
    ensures { (s : State) → StandsOf plan s stands → result ≡ padded 16 plan.cores no_run (chosen plan s) }
{
    let mut runs: [Option<TaskNo>; 16] = [None; 16];
    for i in 0..plan.count {
        let stand = stands[i];
        let x = stand.piece.core.index();
        let found = runs[x];
        let held = match found {
            Some(task) => stands[task.index()],
            None => stand,
        };
        runs[x] = better(found, held, stand, TaskNo(i as u8));
    }
    runs
}

// The best on a core, one more job there being looked at: `found` is the best so far, and `held` where its job stands.
fn better(found: Option<TaskNo>, held: Stand, stand: Stand, task: TaskNo) -> Option<TaskNo>
    ensures { (p : Plan) (s : State) → stand ≡ stand_of p s task.0 → found ≡ found_best p s task.0 stand.piece.core.0 → ((t : TaskNo) → found ≡ Runs t → held ≡ stand_of p s t.0) → result ≡ found_best p s (task.0 + 1) stand.piece.core.0 }
{
    let above = plans::outranks(stand.piece, stand.deadline, held.piece, held.deadline);
    if stand.active & (found.is_none() | above) {
        Some(task)
    } else {
        found
    }
}

// ---- What is wrong with the two sets of a tick.

// Refusals 10, 11 and 12, for any plan, any state and any two sets; 11 and 12 are judged after finishes.
// A finish changes neither an age nor whether there was a release, and it ends a job that was active.
fn judge_sets(plan: Plan, state: State, finished: Tasks, released: Tasks) -> Result<(), Refusal>
    ensures { result ≡ judged_sets plan state finished released }
{
    if let Some(task) = lowest_not_run(plan.count, plan.cores, state.last, finished) {
        return Err(Refusal::NotRun(task));
    }
    let (soon, active) = lowest_early(plan, state, finished, released);
    if let Some(task) = soon {
        return Err(Refusal::TooSoon(task));
    }
    if let Some(task) = active {
        return Err(Refusal::StillActive(task));
    }
    Ok(())
}

// The lowest released task that refusal 11 concerns, and the lowest that 12 does.
fn lowest_early(
    plan: Plan,
    state: State,
    finished: Tasks,
    released: Tasks,
) -> (Option<TaskNo>, Option<TaskNo>)
    ensures soon { lowest_no result.0 ≡ first 256 (λ t. member released t && too_soon plan (finish plan finished state) t) }
    ensures active { lowest_no result.1 ≡ first 256 (λ t. member released t && still_active plan (finish plan finished state) t) }
{
    let known = plan.count.min(64);
    let ended = jobs::marks(finished);
    let mut soon = None;
    let mut active = None;
    for task in &released.members[..released.count.min(64)] {
        let t = task.index();
        let i = t % 64;
        let job = state.jobs[i];
        let period = plan.tasks[i].period;
        let young = (t < known) & job.once_released() & (job.age < period);
        let kept = (t < known) & job.is_active() & (job.age == period) & !ended[t];
        soon = lower(soon, *task, (plan.count <= t) | young);
        active = lower(active, *task, kept);
    }
    (soon, active)
}

// The lowest finished task that refusal 10 concerns, if there is one.
fn lowest_not_run(
    count: usize,
    cores: usize,
    last: [Option<TaskNo>; 16],
    finished: Tasks,
) -> Option<TaskNo>
    ensures { (p : Plan) (s : State) → p.count ≡ count → p.cores ≡ cores → s.last ≡ last → lowest_no result ≡ first 256 (λ t. member finished t && not_run p s t) }
{
    let mut wrong = [true; 256];
    for x in 0..cores.min(16) {
        let ran = last[x];
        if let Some(task) = ran {
            let t = task.index();
            wrong[t] = count <= t;
        }
    }
    let mut low = None;
    for task in &finished.members[..finished.count.min(64)] {
        low = lower(low, *task, wrong[task.index()]);
    }
    low
}

// The lower of two tasks, the second being looked at only where it is wrong.
fn lower(low: Option<TaskNo>, task: TaskNo, wrong: bool) -> Option<TaskNo>
    ensures { lowest_no result ≡ cond wrong (min (lowest_no low) task.0) (lowest_no low) }
{
    if wrong & low.is_none_or(|best| task.0 < best.0) {
        Some(task)
    } else {
        low
    }
}
