// The vocabulary of task tables: numbers of tasks and cores, tasks, tables, every way to say no, and the check of a table.
#![tactic(auto)]

ghost use Rattle.std.specs.Prelude.{◌≡◌, ◌&&◌, ◌<◌, leb, get_or};
ghost use Rattle.tasks.specs.Places.{further};
ghost use Rattle.tasks.specs.Tables.{values_fit, no_task, checked_tasks, checked_table};

// A task's number in table order: document 004's T. Never a core's.
#[derive(Clone, Copy, Debug, PartialEq, Eq)]
pub struct TaskNo(pub u8);

// A core's number: document 004's P. Never a task's.
#[derive(Clone, Copy, Debug, PartialEq, Eq)]
pub struct CoreNo(pub u8);

// A place in a file, in bytes from its start.
#[derive(Clone, Copy, Debug, PartialEq, Eq)]
pub struct Place(pub usize);

#[derive(Clone, Copy)]
pub struct Task {
    pub cost: u32,
    pub deadline: u32,
    pub period: u32,
}

// The task of all zeros, which stands where a record has none.
pub const NO_TASK: Task = Task {
    cost: 0,
    deadline: 0,
    period: 0,
};

// The first `count` of `tasks` are the table's; the others are not read.
// An array with a count, as in a plan: memory is fixed, and a count above the size is a value that gets its refusal.
#[derive(Clone, Copy)]
pub struct Table {
    pub cores: usize,
    pub count: usize,
    pub tasks: [Task; 64],
}

// A refusal of document 01, with what it tells. 4, 5 and 6 tell a place for a file and a number for a record.
#[derive(Clone, Copy, Debug, PartialEq, Eq)]
pub enum Refusal {
    CutShort(Place),
    WrongTag(Place),
    WrongLength(Place),
    CoresAt(Place),
    CoresGiven(usize),
    ValuesAt(Place),
    ValuesOf(TaskNo),
    TasksAt(Place),
    TasksGiven(usize),
    NotPlaced(TaskNo),
    NoPlanShape,
    NotWellMade,
    NotRun(TaskNo),
    TooSoon(TaskNo),
    StillActive(TaskNo),
    BufferShort(usize),
}

// Two methods of one body, and no trait: the types are two so that neither number is taken for the other, and a trait would need both bodies again.
impl TaskNo {
    // The number as an index into a table's tasks or a state's jobs.
    pub fn index(self) -> usize
        ensures { (result ≡ self.0) × (result < 256) }
    {
        let TaskNo(task) = self;
        usize::from(task)
    }
}

impl CoreNo {
    // The number as an index into a state's cores.
    pub fn index(self) -> usize
        ensures { (result ≡ self.0) × (result < 256) }
    {
        let CoreNo(core) = self;
        usize::from(core)
    }
}

// The place `n` bytes further on, as far as a number tells.
pub fn further(p: usize, n: usize) -> usize
    ensures { result ≡ further p n }
{
    p.saturating_add(n)
}

// 1 ≤ c ≤ d ≤ p ≤ 1,000,000.
pub fn values_fit(t: Task) -> bool
    ensures { result ≡ values_fit t }
{
    1 <= t.cost && t.cost <= t.deadline && t.deadline <= t.period && t.period <= 1000000
}

// ---- The check of a table.

// 1 to `most`.
fn counts(x: usize, most: usize) -> bool
    ensures { result ≡ leb 1 x && leb x most }
{
    1 <= x && x <= most
}

// Core count, number of tasks and values, in this order: 4, 6 and 5.
pub fn check_tasks(cores: usize, count: usize, tasks: [Task; 64]) -> Result<(), Refusal>
    ensures { result ≡ checked_tasks cores count (λ i. get_or tasks i no_task) }
{
    if !counts(cores, 16) {
        return Err(Refusal::CoresGiven(cores));
    }
    if !counts(count, 64) {
        return Err(Refusal::TasksGiven(count));
    }
    for (i, task) in tasks[..count].iter().enumerate() {
        if !values_fit(*task) {
            return Err(Refusal::ValuesOf(TaskNo(i as u8)));
        }
    }
    Ok(())
}

// Is this a good table? Any record at all may be given.
pub fn check_table(table: Table) -> Result<(), Refusal>
    ensures { result ≡ checked_table table }
{
    check_tasks(table.cores, table.count, table.tasks)
}
