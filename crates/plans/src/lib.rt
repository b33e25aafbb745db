// The vocabulary of plans: pieces, plans, interference, rank and margin; and the plan shape with its check.
#![tactic(auto)]

ghost use Rattle.std.specs.Prelude.{◌≡◌, ◌&&◌, cond, ◌≤◌, ◌<◌, ℕ, ◌-◌, leb, ltb};
ghost use Rattle.tasks.specs.Below.{all};
ghost use Rattle.plans.specs.Margins as meaning;
ghost use Rattle.plans.specs.Interference.{interference};
ghost use Rattle.plans.specs.Rank as rank;
ghost use Rattle.plans.specs.Pieces.{task_of, piece_of};
ghost use Rattle.plans.specs.Shape as shaped;
ghost use Rattle.plans.specs.Shape.{is_share, in_order, piece_fits, checked_plan};

use tasks::{CoreNo, Refusal, Task, TaskNo};

#[derive(Clone, Copy, Debug, PartialEq, Eq)]
pub enum Kind {
    Whole,
    Share,
}

#[derive(Clone, Copy)]
pub struct Piece {
    pub task: TaskNo,
    pub core: CoreNo,
    pub kind: Kind,
    pub cost: u32,
}

// The piece of all zeros, which stands where a record has none.
pub const NO_PIECE: Piece = Piece {
    task: TaskNo(0),
    core: CoreNo(0),
    kind: Kind::Whole,
    cost: 0,
};

// The first `count` of `tasks` and the first `placed` of `pieces` are the plan's; the others are not read.
// Arrays with counts, as in a table: memory is fixed, and a count above the size is a value that gets its refusal.
// The table's fields lie flat beside the pieces: each definition names them so, and a reader fills them before there is a table.
#[derive(Clone, Copy)]
pub struct Plan {
    pub cores: usize,
    pub count: usize,
    pub tasks: [Task; 64],
    pub placed: usize,
    pub pieces: [Piece; 128],
}

// A local deadline less a bound: so much is left, or the bound is so much over.
#[derive(Clone, Copy)]
pub enum Margin {
    Left(u32),
    Over(u32),
}

// Interference of a piece (e, p) in length l. For sister crates: it asks for a good task's numbers.
pub fn interferes(e: u32, p: u32, l: u32) -> u32
    requires { (0 < p) × (e ≤ p) × (p ≤ 1000000) × (l ≤ 1000000) }
    ensures { result ≡ interference e p l }
{
    let f = l / p;
    if f * p + e <= l {
        (f + 1) * e
    } else {
        l - f * (p - e)
    }
}

// Does piece a outrank piece b, their tasks' deadlines being given?
// A deadline stands beside its piece, which does not hold it: so the public clause names the two.
pub fn outranks(a: Piece, a_deadline: u32, b: Piece, b_deadline: u32) -> bool
    ensures { result ≡ rank.outranks a.kind a_deadline a.task.0 b.kind b_deadline b.task.0 }
{
    let i = a.task.index();
    let k = b.task.index();
    match (a.kind, b.kind) {
        (Kind::Share, Kind::Share) => k < i,
        (Kind::Share, Kind::Whole) => true,
        (Kind::Whole, Kind::Share) => false,
        (Kind::Whole, Kind::Whole) => (a_deadline, i) < (b_deadline, k),
    }
}

// Margin is D minus bound.
pub fn margin_of(deadline: u32, bound: u32) -> Margin
    ensures { result ≡ meaning.margin deadline bound }
{
    if bound <= deadline {
        Margin::Left(deadline - bound)
    } else {
        Margin::Over(bound - deadline)
    }
}

// ---- The plan shape.

// May b stand right after a?
fn follows(a: Piece, b: Piece) -> bool
    ensures { result ≡ shaped.follows a b }
{
    let i = a.task.index();
    let k = b.task.index();
    let rises = a.core.index() < b.core.index();
    (k == i + 1) | ((i == k) & (a.kind == Kind::Share) & (b.kind == Kind::Share) & rises)
}

// x where it is kept, otherwise 0.
fn kept(keep: bool, x: u64) -> u64
    ensures { (result ≡ cond keep x 0) × (result ≤ x) }
{
    if keep { x } else { 0 }
}

// Has piece z a task below `count`, a core below `cores` and a cost, and is it in order at place j, right after `before`?
fn in_place(cores: usize, count: usize, j: usize, before: Piece, z: Piece) -> bool
    ensures { (pc : ℕ → Piece) → pc (j - 1) ≡ before → pc j ≡ z → result ≡ ltb z.task.0 count && ltb z.core.0 cores && leb 1 z.cost && in_order pc j }
{
    let first = (j == 0) & (z.task.index() == 0);
    let later = (0 < j) & follows(before, z);
    (z.task.index() < count) & (z.core.index() < cores) & (1 <= z.cost) & (first | later)
}

// Are all pieces as the shape asks? `spent` is what a piece's task costs up to and with it.
fn pieces_fit(plan: Plan) -> bool
    requires { (plan.count ≤ 64) × (plan.placed ≤ 128) }
    ensures { result ≡ all plan.placed (piece_fits plan.cores plan.count (task_of plan) (piece_of plan) plan.placed) }
{
    let n = plan.placed;
    let mut before = plan.pieces[0];
    let mut spent: u64 = 0;
    for j in 0..n {
        let z = plan.pieces[j];
        let i = z.task.index();
        let cost = plan.tasks[i.min(63)].cost;
        let next = plan.pieces[(j + 1).min(127)];
        let more = (j + 1 < n) & (i == next.task.index());
        spent = kept((0 < j) & (before.task.index() == i), spent) + z.cost as u64;
        if !(in_place(plan.cores, plan.count, j, before, z) & (more | (spent == cost as u64))) {
            return false;
        }
        before = z;
    }
    true
}

// Has the plan the shape?
fn shape(plan: Plan) -> bool
    requires { plan.count ≤ 64 }
    ensures { result ≡ shaped.shape plan.cores plan.count (task_of plan) (piece_of plan) plan.placed }
{
    let n = plan.placed;
    if n < 1 || 128 < n || !pieces_fit(plan) {
        return false;
    }
    plan.pieces[n - 1].task.index() + 1 == plan.count
}

// Is this a plan, with a good table and the shape? Any record at all may be given.
pub fn check_plan(plan: Plan) -> Result<(), Refusal>
    ensures { result ≡ checked_plan plan }
{
    tasks::check_tasks(plan.cores, plan.count, plan.tasks)?;
    if shape(plan) {
        Ok(())
    } else {
        Err(Refusal::NoPlanShape)
    }
}
