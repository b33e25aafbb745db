// The worst hour: a slope table on four and on eight cores, planned and run at full rate for 100,000 ticks.
// Prints each plan, the totals, and the longest response seen of each task beside its deadline.
#![tactic(auto)]

use tasks::{Table, Task};
use texts::Text;

fn task(cost: u32, deadline: u32, period: u32) -> Task {
    Task {
        cost,
        deadline,
        period,
    }
}

// What both tables begin with.
fn slope() -> [Task; 64] {
    let mut tasks = [task(12, 20, 20); 64];
    tasks[1] = task(11, 20, 20);
    tasks[2] = task(14, 20, 20);
    tasks
}

// Two heavy jobs, the slope fit and the mask fit, come last: they are shared, and meet on core 1.
fn four_cores() -> Table {
    let mut tasks = slope();
    tasks[4] = task(13, 25, 25);
    tasks[5] = task(11, 30, 30);
    Table {
        cores: 4,
        count: 6,
        tasks,
    }
}

fn eight_cores() -> Table {
    let mut tasks = slope();
    tasks[5] = task(13, 20, 20);
    tasks[6] = task(14, 20, 20);
    tasks[8] = task(13, 25, 25);
    tasks[9] = task(11, 30, 30);
    Table {
        cores: 8,
        count: 10,
        tasks,
    }
}

// The lent bytes have room for every listing and for all of a watched run. The plan is printed before its run begins, and each text stands at their beginning.
fn show(table: Table) {
    let mut bytes = [0u8; 16384];
    let planned = planner::plan_table(table);
    let mut listed = Text {
        bytes: &mut bytes,
        end: 0,
    };
    planlines::planned(&mut listed, planned);
    console::print(listed.said());
    if let Ok(plan) = planned {
        let mut told = Text {
            bytes: &mut bytes,
            end: 0,
        };
        ticklines::watched(&mut told, plan, fullrate::watch(plan, 100000));
        console::print(told.said());
    }
}

fn main() {
    show(four_cores());
    show(eight_cores());
}
