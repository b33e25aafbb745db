// Local deadline and bound of a piece, for sister crates and asked from outside.
// `Moderate` stands in the clauses and in no type: a type with it would be a second plan record.
#![tactic(auto)]

ghost use Rattle.std.specs.Prelude.{◌≡◌, ◌&&◌, cond, ◌≤◌, ◌<◌, eqb, length};
ghost use Rattle.plans.specs.Pieces.{piece_of, task_of};
ghost use Rattle.plans.specs.Pieces as pieces;
ghost use Rattle.plans.specs.Interference.{interference};
ghost use Rattle.plans.specs.Rank as rank;
ghost use Rattle.bounds.specs.Leaves.{Moderate, listed};
ghost use Rattle.bounds.specs.Asking.{bound_asked};
ghost use Rattle.bounds.specs.Bound as meaning;
ghost use Rattle.bounds.specs.Bound.{local_deadline};

use plans::{Margin, Piece, Plan};
use tasks::{Refusal, Task};

// A piece's bound and its margin.
#[derive(Clone, Copy)]
pub struct Bounding {
    pub bound: u32,
    pub margin: Margin,
}

// The costs of the same task's earlier pieces. For sister crates: it asks that the plan's numbers are a good table's.
pub fn earlier(plan: Plan, q: usize) -> u32
    requires { (q < plan.placed) × Moderate plan }
    ensures { result ≡ pieces.earlier (piece_of plan) q }
{
    let b = plan.pieces[q];
    let mut spent: u32 = 0;
    for j in 0..q {
        let z = plan.pieces[j];
        if z.task == b.task {
            spent += z.cost;
        }
    }
    spent
}

// The interference in length l of piece z, of task t, on piece b: 0 unless z is on b's core and ranked above it. For sister crates: it asks for a good task's numbers.
pub fn pressure(z: Piece, t: Task, b: Piece, b_deadline: u32, l: u32) -> u32
    requires { (0 < t.period) × (z.cost ≤ t.period) × (t.period ≤ 1000000) × (l ≤ 1000000) }
    ensures { result ≡ cond (eqb z.core.0 b.core.0 && rank.outranks z.kind t.deadline z.task.0 b.kind b_deadline b.task.0) (interference z.cost t.period l) 0 }
{
    if z.core != b.core {
        return 0;
    }
    if plans::outranks(z, t.deadline, b, b_deadline) {
        plans::interferes(z.cost, t.period, l)
    } else {
        0
    }
}

// ---- The bound of a piece.

// The interference in length l of the pieces of a list that are ranked above piece b on its core. For sister crates: it asks that the numbers are a good table's.
pub fn load(tasks: &[Task; 64], pieces: &[Piece], b: Piece, l: u32) -> u32
    requires { (b.task.0 < 64) × (l ≤ 1000000) × Moderate (listed tasks.now pieces.now) }
    ensures { (result ≡ meaning.load (task_of (listed tasks.now pieces.now)) (piece_of (listed tasks.now pieces.now)) (length pieces.now) b l) × (result ≤ 128000000) }
{
    let d = tasks[b.task.index()].deadline;
    let mut load: u32 = 0;
    for z in pieces {
        load += pressure(*z, tasks[z.task.index()], b, d, l);
    }
    load
}

// A piece's local deadline and its bound.
#[derive(Clone, Copy)]
pub struct Bounded {
    pub deadline: u32,
    pub bound: u32,
}

// Local deadline and bound of piece q. For sister crates: it asks that the plan's numbers are a good table's.
pub fn bound_of(plan: Plan, q: usize) -> Bounded
    requires { (q < plan.placed) × Moderate plan }
    ensures { (result.deadline ≡ local_deadline (task_of plan) (piece_of plan) q) × (result.bound ≡ meaning.bound (task_of plan) (piece_of plan) plan.placed q) }
{
    let b = plan.pieces[q];
    let d = plan.tasks[b.task.index()].deadline;
    let deadline = d.saturating_sub(earlier(plan, q));
    Bounded {
        deadline,
        bound: b.cost + load(&plan.tasks, &plan.pieces[..plan.placed], b, deadline),
    }
}

// The bound and margin of piece q. Any plan record and any place at all may be given: 4, 6, 5 or 8, and 8 for a piece past the list.
pub fn ask_bound(plan: Plan, q: usize) -> Result<Bounding, Refusal>
    ensures { result ≡ bound_asked plan q }
{
    plans::check_plan(plan)?;
    if plan.placed <= q {
        return Err(Refusal::NoPlanShape);
    }
    let b = bound_of(plan, q);
    Ok(Bounding {
        bound: b.bound,
        margin: plans::margin_of(b.deadline, b.bound),
    })
}
