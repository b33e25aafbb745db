// The planner: a task table laid out over the cores of a board.
#![tactic(auto)]

ghost use Rattle.std.specs.Prelude.{◌≡◌, not, ◌&&◌, ◌≤◌, ◌<◌, eqb};
ghost use Rattle.tasks.specs.Below.{all, first};
ghost use Rattle.bounds.specs.Leaves.{Moderate};
ghost use Rattle.plans.specs.Pieces.{task_of};
ghost use Rattle.plans.specs.Shape.{is_share};
ghost use Rattle.tasks.specs.Tables.{checked_table};
ghost use Rattle.tasks.specs.Answers.{Accepted};
ghost use Rattle.planner.specs.Layout as layouts;
ghost use Rattle.planner.specs.Layout.{start, lay_first, outcome};
ghost use Rattle.planner.specs.Limit as limits;
ghost use Rattle.planner.specs.Shared.{give_share, share_from};
ghost use Rattle.planner.specs.Whole as whole;
ghost use Rattle.planner.specs.Asked.{Ready, OwnDeadlines, Alone, taker};
ghost use Rattle.planner.specs.Whole.{draft, keeps_bound, takes_whole};

use plans::{Kind, NO_PIECE, Piece, Plan};
use tasks::{CoreNo, NO_TASK, Refusal, Table, TaskNo};

// A plan while it is laid out: its pieces so far, and which cores are closed.
// What is asked of it (`Ready`, `Alone`) stands in the clauses and in no ghost field, since it is asked for the task that is placed next; `Moderate` as the head of `bounds` says.
#[derive(Clone, Copy)]
struct Draft {
    plan: Plan,
    closed: [bool; 16],
}

// Is piece z whole and on this core?
fn whole_on(z: Piece, core: CoreNo) -> bool
    ensures { result ≡ not (is_share z.kind) && eqb z.core.0 core.0 }
{
    (z.kind == Kind::Whole) & (z.core == core)
}

// Does every whole piece on this core keep its bound?
fn all_keep(plan: &Plan, core: CoreNo) -> bool
    requires { Moderate plan.now × OwnDeadlines plan.now }
    ensures { result ≡ all plan.now.placed (keeps_bound plan.now core.0) }
{
    for b in &plan.pieces[..plan.placed] {
        if !whole_on(*b, core) {
            continue;
        }
        let d = plan.tasks[b.task.index()].deadline;
        let load = bounds::load(&plan.tasks, &plan.pieces[..plan.placed], *b, d);
        if d < b.cost + load {
            return false;
        }
    }
    true
}

// What piece q allows a share of a new task of period p.
fn allowance(plan: Plan, p: u32, q: usize) -> u32
    requires { (0 < p) × (p ≤ 1000000) × (q < plan.placed) × Moderate plan }
    ensures { (result ≡ limits.allowance plan p q) × (result ≤ 1000000) }
{
    let b = bounds::bound_of(plan, q);
    if b.deadline <= b.bound {
        return 0;
    }
    (b.deadline - b.bound) / b.deadline.div_ceil(p)
}

impl Draft {
    // The draft with one piece more.
    fn with_piece(mut self, z: Piece) -> Draft
        requires { self.plan.placed < 128 }
        ensures { result ≡ draft (whole.put z self.plan) self.closed }
    {
        self.plan.pieces[self.plan.placed] = z;
        self.plan.placed += 1;
        self
    }

    // The draft with a share of a task on a core.
    fn give(self, task: TaskNo, core: CoreNo, size: u32) -> Draft
        requires { self.plan.placed < 128 }
        ensures { result ≡ give_share self task.0 core.0 size }
    {
        self.with_piece(Piece {
            task,
            core,
            kind: Kind::Share,
            cost: size,
        })
    }

    // The lowest core that takes the task whole, if one does.
    fn lowest_whole(self, task: TaskNo) -> Option<CoreNo>
        requires { (self.plan.placed ≤ 96) × Ready self.plan task.0 × Alone self.plan task.0 }
        ensures { result ≡ taker self.plan.cores (first self.plan.cores (takes_whole self task.0)) }
    {
        let at = self.plan.placed;
        let cost = self.plan.tasks[task.index()].cost;
        let mut w = self.plan;
        w.placed = at + 1;
        for x in 0..self.plan.cores {
            if self.closed[x] {
                continue;
            }
            let core = CoreNo(x as u8);
            w.pieces[at] = Piece {
                task,
                core,
                kind: Kind::Whole,
                cost,
            };
            if all_keep(&w, core) {
                return Some(core);
            }
        }
        None
    }

    // The task shared out over the open cores in rising order, if it finds its place so.
    fn share_out(self, task: TaskNo) -> Option<Draft>
        requires { (self.plan.placed ≤ 80) × Ready self.plan task.0 }
        ensures { result ≡ share_from self task.0 (task_of self.plan task.0).cost 0 self.plan.cores }
    {
        let p = self.plan.tasks[task.index()].period;
        let mut need = self.plan.tasks[task.index()].cost;
        let mut next = self;
        'cores: for x in 0..self.plan.cores {
            if next.closed[x] {
                continue;
            }
            let core = CoreNo(x as u8);
            let mut most: u32 = 1000000;
            for q in 0..next.plan.placed {
                if next.plan.pieces[q].core != core {
                    continue;
                }
                let allowed = allowance(next.plan, p, q);
                if allowed == 0 {
                    continue 'cores;
                }
                most = most.min(allowed);
            }
            if need < most {
                return Some(next.give(task, core, need));
            }
            next = next.give(task, core, most);
            next.closed[x] = true;
            if most == need {
                return Some(next);
            }
            need -= most;
        }
        None
    }

    // The task placed, if it finds its place: whole on the lowest core that takes it, otherwise shared out.
    fn place(self, task: TaskNo) -> Option<Draft>
        requires { (self.plan.placed ≤ 80) × Ready self.plan task.0 × Alone self.plan task.0 }
        ensures { result ≡ layouts.place self task.0 }
    {
        match self.lowest_whole(task) {
            Some(core) => {
                let placed = self.with_piece(Piece {
                    task,
                    core,
                    kind: Kind::Whole,
                    cost: self.plan.tasks[task.index()].cost,
                });
                Some(placed)
            }
            None => self.share_out(task),
        }
    }
}

// The table's tasks with no piece yet, all cores open; entries past the count are 0.
fn begin(table: Table) -> Draft
    requires { table.count ≤ 64 }
    ensures { result ≡ start table }
{
    let mut tasks = [NO_TASK; 64];
    tasks[..table.count].copy_from_slice(&table.tasks[..table.count]);
    Draft {
        plan: Plan {
            cores: table.cores,
            count: table.count,
            tasks,
            placed: 0,
            pieces: [NO_PIECE; 128],
        },
        closed: [false; 16],
    }
}

// The tasks of a good table placed in table order.
fn lay_out(table: Table) -> Result<Plan, Refusal>
    requires { checked_table table ≡ Accepted }
    ensures { result ≡ outcome (lay_first (start table) table.count) }
{
    let mut draft = begin(table);
    for i in 0..table.count {
        let task = TaskNo(i as u8);
        draft = draft.place(task).ok_or(Refusal::NotPlaced(task))?;
    }
    Ok(draft.plan)
}

// The plan of a table, or why there is none. Any record at all may be given.
pub fn plan_table(table: Table) -> Result<Plan, Refusal>
    ensures { result ≡ layouts.planned table }
{
    tasks::check_table(table)?;
    lay_out(table)
}
