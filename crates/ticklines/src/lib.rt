// The lines of ticks and their totals, what the runner prints, and the responses of a watched run, put into a text. Where the longest text of its kind has no room, nothing is put.
// Each function that puts more than one text asks for its own room first: why, the head of `texts` says.
#![tactic(auto)]

ghost use Rattle.std.specs.Prelude.{◌≡◌};
ghost use Rattle.texts.specs.Puts.{Puts};
ghost use Rattle.ticklines.specs.Lines.{gap_text, runner_text, runs_text, ran_text, ran_most, ticked_text, totals_text, totals_most};
ghost use Rattle.ticklines.specs.Running.{run_text, runner_program_text, runner_most};
ghost use Rattle.ticklines.specs.Responses.{response_text, response_most, watched_text, watched_most};

use board::Ran;
use dispatch::{State, Ticked};
use fullrate::Watched;
use plans::Plan;
use tasks::{Refusal, TaskNo};
use texts::Text;

// ---- A tick, and the totals.

// The task on a core, or `-`.
fn on_core(text: &mut Text, run: Option<TaskNo>)
    ensures { Puts 20 (runner_text run) text.old text.new }
{
    if text.is_short(20) {
        return;
    }
    match run {
        None => text.words(b"-"),
        Some(task) => text.number(task.0 as u64),
    }
}

// The space before every core but core 0.
fn gap(text: &mut Text, x: usize)
    ensures { Puts 1 (gap_text x) text.old text.new }
{
    if 0 < x {
        text.words(b" ");
    }
}

// The task on each core.
fn runs(text: &mut Text, cores: usize, ran: Ran)
    ensures { Puts ran_most (runs_text cores ran.runs) text.old text.new }
{
    if text.is_short(337) {
        return;
    }
    for (x, run) in ran.runs[..cores.min(16)].iter().enumerate() {
        gap(text, x);
        on_core(text, *run);
    }
    text.words(b"\n");
}

// A tick's line: what runs, or its refusal.
pub fn ran(text: &mut Text, cores: usize, ran: Ran)
    ensures { Puts ran_most (ran_text cores ran) text.old text.new }
{
    if text.is_short(337) {
        return;
    }
    match ran.answer {
        Ok(()) => runs(text, cores, ran),
        Err(refusal) => text.refusal(refusal),
    }
}

// The line of a tick that was made.
pub fn ticked(text: &mut Text, cores: usize, ticked: Ticked)
    ensures { Puts ran_most (ticked_text cores ticked) text.old text.new }
{
    ran(text, cores, Ran::from(ticked));
}

// The totals' line: late jobs and preemptions.
pub fn totals(text: &mut Text, state: State)
    ensures { Puts totals_most (totals_text state) text.old text.new }
{
    if text.is_short(59) {
        return;
    }
    text.words(b"late ");
    text.number(state.late as u64);
    text.words(b" preemptions ");
    text.number(state.preemptions as u64);
    text.words(b"\n");
}

// ---- The runner.

// 20 ticks from a fresh state, and the totals.
fn run(text: &mut Text, plan: Plan)
    ensures { Puts runner_most (run_text plan 20) text.old text.new }
{
    if text.is_short(6799) {
        return;
    }
    let mut state = dispatch::fresh();
    for _n in 0..20u32 {
        let made = fullrate::full_tick(plan, state);
        ticked(text, plan.cores, made);
        state = made.state;
    }
    totals(text, state);
}

// What the runner prints for a plan file that was read: 20 ticks from a fresh state with every task released as soon as allowed, and the totals.
pub fn runner(text: &mut Text, read: Result<Plan, Refusal>)
    ensures { Puts runner_most (runner_program_text read) text.old text.new }
{
    if text.is_short(6799) {
        return;
    }
    match read {
        Ok(plan) => run(text, plan),
        Err(refusal) => text.refusal(refusal),
    }
}

// ---- Responses.

// A task's longest response beside its deadline.
fn response(text: &mut Text, task: usize, seen: u32, deadline: u32)
    ensures { Puts response_most (response_text task seen deadline) text.old text.new }
{
    if text.is_short(86) {
        return;
    }
    text.words(b"task ");
    text.number(task as u64);
    text.words(b" response ");
    text.number(seen as u64);
    text.words(b" deadline ");
    text.number(deadline as u64);
    text.words(b"\n");
}

// The totals of a run, and the longest response seen of each task beside its deadline.
pub fn watched(text: &mut Text, plan: Plan, watched: Watched)
    ensures { Puts watched_most (watched_text plan watched) text.old text.new }
{
    if text.is_short(5563) {
        return;
    }
    totals(text, watched.state);
    for i in 0..plan.count.min(64) {
        response(text, i, watched.longest[i], plan.tasks[i].deadline);
    }
}
