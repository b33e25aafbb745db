// A lent list of piece records, over which a bound is added up.
#![tactic(auto)]

ghost use Rattle.std.specs.Prelude.{◌≡◌, ℕ, ◌≤◌, ◌<◌, length};
ghost use Rattle.lending.specs.Recorded.{recorded, asked_of};
ghost use Rattle.lending.specs.Adding.{lent_piece, up_to, added, Bearable};
ghost use Rattle.lending.specs.Lent.{bound_lent};

use bounds::Bounding;
use plans::{NO_PIECE, Piece, Plan};
use tasks::{Refusal, Table, Task};

// A bound that is being added up: the tasks of the pieces, the piece asked for, its local deadline, and the sum so far.
#[derive(Clone, Copy)]
struct Adding {
    tasks: [Task; 64],
    piece: Piece,
    deadline: u32,
    bound: u32,
}

// A table and a lent list as a plan record. A list longer than a record holds keeps its length, with its first 128 pieces, so it has not the shape.
fn recorded(table: Table, pieces: &[Piece]) -> Plan
    ensures { result ≡ recorded table pieces.now }
{
    let n = pieces.len().min(128);
    let mut first = [NO_PIECE; 128];
    first[..n].copy_from_slice(&pieces[..n]);
    let tasks = table.tasks;
    Plan {
        cores: table.cores,
        count: table.count,
        tasks,
        placed: pieces.len(),
        pieces: first,
    }
}

// The answer on piece q of a plan: the plan's own refusal, or 8 for a piece past the list.
fn asked(plan: Plan, q: usize) -> Result<(), Refusal>
    ensures { result ≡ asked_of plan q }
{
    plans::check_plan(plan)?;
    if q < plan.placed {
        Ok(())
    } else {
        Err(Refusal::NoPlanShape)
    }
}

// The sum with the interference of one more piece.
fn add(mut adding: Adding, piece: Piece) -> Adding
    requires { Bearable adding piece }
    ensures { result ≡ added adding piece }
{
    let held = adding.piece;
    let i = held.task.index();
    let k = piece.task.index();
    let deadline = adding.tasks[i].deadline;
    adding.bound += bounds::pressure(piece, adding.tasks[k], held, deadline, adding.deadline);
    adding
}

// The piece at place j of a lent list.
fn lent_piece(pieces: &[Piece], j: usize) -> Piece
    requires { j < length pieces.now }
    ensures { result ≡ lent_piece pieces.now j }
{
    pieces[j]
}

// A sum to which the first n pieces of a lent list are added one after another. Its code is that of which `sums_meet` (`proofs/Walk.antt`) speaks, so it counts up and calls for each step.
fn add_all(mut adding: Adding, pieces: &[Piece], n: usize) -> Adding
    requires { (n ≤ length pieces.now) × ((j : ℕ) → j < n → Bearable (up_to added j adding pieces.now) (lent_piece pieces.now j)) }
    ensures { result ≡ up_to added n adding pieces.now }
{
    let mut j: usize = 0;
    while j < n {
        adding = add(adding, lent_piece(pieces, j));
        j += 1;
    }
    adding
}

// The bound and margin of piece q, the pieces being read from a lent list. Not by `ask_bound`: a bound is added up over the lent list itself. Any table, any list and any place at all may be given: 4, 6, 5 or 8, and 8 for a piece past the list.
pub fn lent_bound(table: Table, pieces: &[Piece], q: usize) -> Result<Bounding, Refusal>
    ensures { result ≡ bound_lent table pieces.now q }
{
    let plan = recorded(table, pieces);
    asked(plan, q)?;
    let held = plan.pieces[q];
    let d = plan.tasks[held.task.index()].deadline;
    let deadline = d - bounds::earlier(plan, q);
    let tasks = plan.tasks;
    let begun = Adding {
        tasks,
        piece: held,
        deadline,
        bound: held.cost,
    };
    let bound = add_all(begun, pieces, plan.placed).bound;
    Ok(Bounding {
        bound,
        margin: plans::margin_of(deadline, bound),
    })
}
