// Our side of the benchmark: a table file planned, and ticks of a plan file at full rate, each told as a checksum.
#![tactic(auto)]

use files::Default;
use plans::Plan;
use tasks::TaskNo;

// One more value in a checksum: sum * 31 + value, which wraps.
fn mix(sum: u64, value: u64) -> u64 {
    sum.wrapping_mul(31).wrapping_add(value)
}

// The checksum of a plan's pieces: task, core, kind and cost of each.
fn of_plan(plan: Plan) -> u64 {
    let mut sum = 0;
    for z in &plan.pieces[..plan.placed.min(128)] {
        let task = mix(sum, z.task.0 as u64);
        let core = mix(task, z.core.0 as u64);
        sum = mix(mix(core, z.kind as u64), z.cost as u64);
    }
    sum
}

// The checksum of what runs on the first cores: 0 for a core that is idle, otherwise the task's number and 1.
fn of_runs(sum: u64, runs: [Option<TaskNo>; 16], cores: usize) -> u64 {
    let mut all = sum;
    for run in &runs[..cores.min(16)] {
        all = mix(all, run.map_or(0, |task| task.0 as u64 + 1));
    }
    all
}

// The checksum of a table file's plan; 0 on a refusal.
#[unsafe(no_mangle)]
pub extern "C" fn bench_ours_plan(table: &[u8]) -> u64 {
    let planned = files::read_table(Default::Eight, table).and_then(|given| planner::plan_table(
        given,
    ));
    planned.map_or(0, |plan| of_plan(plan))
}

// Ticks of the plan file from a fresh state, every task released as soon as allowed; 0 on a refusal.
#[unsafe(no_mangle)]
pub extern "C" fn bench_ours_ticks(plan: &[u8], count: u32) -> u64 {
    files::read_plan(Default::Eight, plan).map_or(0, |plan| of_ticks(plan, count))
}

// The checksum of so many ticks; 0 where one is refused.
fn of_ticks(plan: Plan, count: u32) -> u64 {
    let mut state = dispatch::fresh();
    let mut sum = 0;
    for _ in 0..count {
        let ticked = fullrate::full_tick(plan, state);
        if ticked.answer.is_err() {
            return 0;
        }
        sum = of_runs(sum, ticked.runs, plan.cores);
        state = ticked.state;
    }
    mix(mix(sum, state.late as u64), state.preemptions as u64)
}
