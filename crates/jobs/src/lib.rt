// Jobs, what runs on a core, sets of tasks, and whether a state's jobs and cores are well made.
#![tactic(auto)]

ghost use Rattle.std.specs.Prelude.{◌≡◌, ◌&&◌, min, length};
ghost use Rattle.tasks.specs.Below.{tabulate};
ghost use Rattle.plans.specs.Pieces.{task_of, piece_of};
ghost use Rattle.jobs.specs.Jobs.{is_active, once_released};
ghost use Rattle.jobs.specs.Sets.{member};
ghost use Rattle.jobs.specs.WellMade.{job_well_made, jobs_well_made, cores_well_made};

use plans::{Piece, Plan};
use tasks::{Task, TaskNo};

#[derive(Clone, Copy, Debug, PartialEq, Eq)]
pub enum Phase {
    Never,
    Active,
    Ended,
}

// One task's job. `piece` is the place in the plan's list of the piece that an active job is at, `ran` the ticks run there.
#[derive(Clone, Copy)]
pub struct Job {
    pub phase: Phase,
    pub late: bool,
    pub piece: u8,
    pub age: u32,
    pub ran: u32,
}

// The job of a task that was never released.
pub const NO_JOB: Job = Job {
    phase: Phase::Never,
    late: false,
    piece: 0,
    age: 0,
    ran: 0,
};

// A set of tasks: order and repeats mean nothing, and a count above 64 reads as 64, as `member` says of any count.
#[derive(Clone, Copy)]
pub struct Tasks {
    pub members: [TaskNo; 64],
    pub count: usize,
}

// No task at all.
pub const NO_TASKS: Tasks = Tasks {
    members: [TaskNo(0); 64],
    count: 0,
};

impl Job {
    // Is the job active?
    pub fn is_active(self) -> bool
        ensures { result ≡ is_active self.phase }
    {
        self.phase == Phase::Active
    }

    // Was the job's task ever released?
    pub fn once_released(self) -> bool
        ensures { result ≡ once_released self.phase }
    {
        self.phase != Phase::Never
    }
}

// Which tasks are in a set.
pub fn marks(tasks: Tasks) -> [bool; 256]
    ensures { result ≡ tabulate 256 (member tasks) }
{
    let mut marks = [false; 256];
    for task in &tasks.members[..tasks.count.min(64)] {
        marks[task.index()] = true;
    }
    marks
}

// ---- Well made.

// Are a state's jobs, and what ran on its cores in the last tick, well made? Any plan and any of them may be given.
pub fn well_made(plan: Plan, jobs: [Job; 64], last: [Option<TaskNo>; 16]) -> bool
    ensures { result ≡ jobs_well_made plan jobs && cores_well_made plan jobs last }
{
    jobs_well_made(plan, jobs) & cores_well_made(plan, jobs, last)
}

// Are all jobs as a well made state has them?
fn jobs_well_made(plan: Plan, jobs: [Job; 64]) -> bool
    ensures { result ≡ jobs_well_made plan jobs }
{
    let mut good = true;
    for i in 0..plan.count.min(64) {
        let job = jobs[i];
        let here = plan.pieces[(job.piece as usize).min(127)];
        good = good & job_well_made(TaskNo(i as u8), plan.tasks[i], job, here, plan.placed);
    }
    good
}

// Is each core's last task none or a task once released, and none on two cores?
fn cores_well_made(plan: Plan, jobs: [Job; 64], last: [Option<TaskNo>; 16]) -> bool
    ensures { result ≡ cores_well_made plan jobs last }
{
    let count = plan.count.min(64);
    let mut seen = [false; 256];
    let mut good = true;
    for x in 0..plan.cores.min(16) {
        let ran = last[x];
        if let Some(task) = ran {
            let t = task.index();
            let released = jobs[t.min(63)].once_released();
            good = good & ((t < count) & released & !seen[t]);
            seen[t] = true;
        }
    }
    good
}

// Is task i's job as a well made state has it, `here` being the piece that it is at or, past the list, any other?
fn job_well_made(i: TaskNo, task: Task, job: Job, here: Piece, placed: usize) -> bool
    ensures { (p : Plan) → length p.pieces ≡ 128 → task_of p i.0 ≡ task → p.placed ≡ placed → piece_of p (min job.piece 127) ≡ here → result ≡ job_well_made p i.0 job }
{
    let place = job.piece as usize;
    let fits = (1 <= job.age) & (job.age <= task.period);
    let exists = (place < placed) & (place < 128) & (here.task.0 == i.0) & (job.ran < here.cost);
    let nowhere = (job.piece == 0) & (job.ran == 0) & !job.late;
    match job.phase {
        Phase::Never => (job.age == 0) & nowhere,
        Phase::Active => fits & exists,
        Phase::Ended => fits & nowhere,
    }
}
