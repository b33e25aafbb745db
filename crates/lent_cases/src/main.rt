// A case that lends a list: document 01's listing for two cores and (6,10,10) three times. It prints each piece's bound, then a piece past the list and a list without the plan shape.
#![tactic(auto)]

ghost use Rattle.std.specs.Prelude.{◌≡◌};
ghost use Rattle.lending.specs.Lent.{bound_lent};

use bounds::Bounding;
use plans::{Kind, Margin, Piece};
use std::io;
use tasks::{CoreNo, Refusal, Table, Task, TaskNo};

// The bound of piece q, the four pieces being lent.
fn bound_over(table: Table, pieces: [Piece; 4], q: usize) -> Result<Bounding, Refusal>
    ensures { result ≡ bound_lent table pieces q }
{
    lending::lent_bound(table, &pieces, q)
}

fn piece(task: u8, core: u8, kind: Kind, cost: u32) -> Piece {
    Piece {
        task: TaskNo(task),
        core: CoreNo(core),
        kind,
        cost,
    }
}

// A line with a bound and its margin, or with the refusal's number where it is 8.
fn print(rt: &impl Print, answer: Result<Bounding, Refusal>) -> io::Result<()> {
    match answer {
        Ok(Bounding { bound, margin }) => match margin {
            Margin::Left(rest) => println!(rt; "bound {bound} left {rest}"),
            Margin::Over(more) => println!(rt; "bound {bound} over {more}"),
        },
        Err(Refusal::NoPlanShape) => println!(rt; "refused 8"),
        Err(_) => println!(rt; "refused"),
    }
}

fn main(rt: HostRuntime) -> io::Result<()> {
    let task = Task {
        cost: 6,
        deadline: 10,
        period: 10,
    };
    let table = Table {
        cores: 2,
        count: 3,
        tasks: [task; 64],
    };
    let first = piece(0, 0, Kind::Whole, 6);
    let mut pieces = [first; 4];
    pieces[1] = piece(1, 1, Kind::Whole, 6);
    pieces[2] = piece(2, 0, Kind::Share, 4);
    pieces[3] = piece(2, 1, Kind::Share, 2);
    print(&rt, bound_over(table, pieces, 0))?;
    print(&rt, bound_over(table, pieces, 1))?;
    print(&rt, bound_over(table, pieces, 2))?;
    print(&rt, bound_over(table, pieces, 3))?;
    print(&rt, bound_over(table, pieces, 4))?;
    // Shares that do not add up to the cost.
    pieces[3] = piece(2, 1, Kind::Share, 3);
    print(&rt, bound_over(table, pieces, 0))
}
