// The cases of document 01 that are not proved as examples: each prints what comes of it, and the gate compares.
#![tactic(auto)]

use dispatch::State;
use files::Default;
use force::InForce;
use jobs::{Job, NO_JOB, Tasks};
use plans::{Kind, Piece, Plan};
use tasks::{CoreNo, Refusal, Table, Task, TaskNo};
use texts::Text;

// The file of standard output.
const STDOUT: i32 = 1;

fn say(words: &[u8]) {
    io::write_all(STDOUT, words);
}

fn say_answer(words: &[u8], answer: Result<(), Refusal>) {
    say(words);
    match answer {
        Ok(()) => say(b"accepted\n"),
        Err(refusal) => console::print_refusal(refusal),
    }
}

fn say_read(words: &[u8], read: Result<Table, Refusal>) {
    say_answer(words, read.map(|_| ()));
}

fn say_written(words: &[u8], written: Result<usize, Refusal>) {
    say(words);
    match written {
        Ok(length) => {
            io::print_decimal(STDOUT, length as u64);
            say(b" bytes\n");
        }
        Err(refusal) => console::print_refusal(refusal),
    }
}

// The bytes of a buffer, two hexadecimal digits each.
fn say_bytes(bytes: &[u8]) {
    for byte in bytes {
        io::print_hex(STDOUT, *byte as u64, 2);
        say(b" ");
    }
    say(b"\n");
}

// A table for two cores with so many tasks (6,10,p).
fn table(count: usize, period: u32) -> Table {
    let task = Task {
        cost: 6,
        deadline: 10,
        period,
    };
    Table {
        cores: 2,
        count,
        tasks: [task; 64],
    }
}

// Period 1,000,000 is taken, 1,000,001 refused: in a record and in a file.
fn periods() {
    say_answer(b"period 1000000: ", tasks::check_table(table(1, 1000000)));
    say_answer(b"period 1000001: ", tasks::check_table(table(1, 1000001)));
    say_read(
        b"period 1000000 in a file: ",
        files::read_table(
            Default::Eight,
            &[2, 0, 12, 0, 0, 0, 6, 0, 0, 0, 10, 0, 15, 66, 64],
        ),
    );
    say_read(
        b"period 1000001 in a file: ",
        files::read_table(
            Default::Eight,
            &[2, 0, 12, 0, 0, 0, 6, 0, 0, 0, 10, 0, 15, 66, 65],
        ),
    );
}

// A file of so many tasks, fed field by field and read with this default.
fn fed(default: Default, count: usize) -> Result<Table, Refusal> {
    let mut reader = files::start_table(default);
    for _ in 0..count {
        reader = files::feed(reader, &[2, 0, 12, 0, 0, 0, 6, 0, 0, 0, 10, 0, 0, 0, 10]);
    }
    files::close_table(reader)
}

// 64 tasks are read, 65 not.
fn counts() {
    say_read(b"64 tasks: ", fed(Default::Eight, 64));
    say_read(b"65 tasks: ", fed(Default::Eight, 65));
    say_read(b"no task: ", fed(Default::Eight, 0));
}

// If the core count is absent, it is the default.
fn absent(words: &[u8], default: Default) {
    say(words);
    let mut bytes = [0u8; 16384];
    let mut text = Text {
        bytes: &mut bytes,
        end: 0,
    };
    planlines::lister(&mut text, fed(default, 1));
    console::print(text.said());
}

fn cores() {
    absent(b"no core count, four being the default: ", Default::Four);
    absent(b"no core count, eight being the default: ", Default::Eight);
}

// A table file for two cores and one task is 19 bytes, and the byte past them stays as it was.
fn writing() {
    let mut long = [7u8; 20];
    let written = writing::write_table(table(1, 10), &mut long);
    say_written(b"a table file: ", written);
    say_bytes(&long);
    let mut short = [7u8; 18];
    let refused = writing::write_table(table(1, 10), &mut short);
    say_written(b"a buffer one byte short: ", refused);
    say_bytes(&short);
}

// What is written is read back: the listing of the plan that the file holds.
fn reading_back(plan: Plan) {
    let mut file = io::buffer();
    let written = writing::write_plan(plan, &mut file);
    say_written(b"a plan file: ", written);
    if let Ok(length) = written {
        let mut bytes = [0u8; 16384];
        let mut text = Text {
            bytes: &mut bytes,
            end: 0,
        };
        ticklines::runner(&mut text, console::plan_in(Default::Eight, &file, length));
        console::print(text.said());
    }
}

// How many cores the table in force is for, or why it is not known.
fn cores_in_force<'a>(default: Default, own: &'a [u8], shipped: &'a [u8]) {
    say(b"its cores: ");
    match force::cores_in_force(default, own, shipped) {
        Ok(count) => {
            io::print_decimal(STDOUT, count as u64);
            say(b"\n");
        }
        Err(refusal) => console::print_refusal(refusal),
    }
}

// The table in force: how many bytes of task fields, whose they are or why there are none, and for how many cores.
fn in_force<'a>(words: &'a [u8], default: Default, own: &'a [u8], shipped: &'a [u8]) {
    say(words);
    let part = force::table_in_force(default, own, shipped);
    io::print_decimal(STDOUT, part.len() as u64);
    say(b" bytes of task fields, ");
    match force::which_in_force(default, own, shipped) {
        Ok(InForce::Own) => say(b"the machine's own\n"),
        Ok(InForce::Shipped) => say(b"the shipped ones\n"),
        Err(refusal) => console::print_refusal(refusal),
    }
    cores_in_force(default, own, shipped);
}

fn forces() {
    let good = [1u8, 0, 1, 2, 2, 0, 12, 0, 0, 0, 6, 0, 0, 0, 10, 0, 0, 0, 10];
    let bare = [2u8, 0, 12, 0, 0, 0, 6, 0, 0, 0, 10, 0, 0, 0, 10];
    let bad = [1u8, 0, 1];
    in_force(b"both good: ", Default::Eight, &bare, &good);
    in_force(b"both good, on an old board: ", Default::Four, &bare, &good);
    in_force(b"the machine's own good: ", Default::Eight, &good, &bad);
    in_force(b"the shipped one good: ", Default::Eight, &bad, &good);
    in_force(b"both bad: ", Default::Eight, &bad, &bad);
}

// A plan made by hand that misses deadlines: two tasks (10,10,10) on one core, the first whole.
fn by_hand(second: Kind) -> Plan {
    let task = Task {
        cost: 10,
        deadline: 10,
        period: 10,
    };
    let first = Piece {
        task: TaskNo(0),
        core: CoreNo(0),
        kind: Kind::Whole,
        cost: 10,
    };
    let mut pieces = [first; 128];
    pieces[1] = Piece {
        task: TaskNo(1),
        core: CoreNo(0),
        kind: second,
        cost: 10,
    };
    Plan {
        cores: 1,
        count: 2,
        tasks: [task; 64],
        placed: 2,
        pieces,
    }
}

// The set of one task, or of none.
fn only(task: Option<u8>) -> Tasks {
    Tasks {
        members: [TaskNo(task.unwrap_or(0)); 64],
        count: task.is_some() as usize,
    }
}

// One tick from a state.
fn tick(words: &[u8], plan: Plan, state: State, finished: Option<u8>, released: Option<u8>) {
    say(words);
    let ticked = dispatch::tick(plan, state, only(finished), only(released));
    let mut bytes = [0u8; 337];
    let mut line = Text {
        bytes: &mut bytes,
        end: 0,
    };
    ticklines::ticked(&mut line, plan.cores, ticked);
    console::print(line.said());
}

// What a tick is refused with.
fn ticks(plan: Plan) {
    let fresh = dispatch::fresh();
    tick(b"a finish of a task not run: ", plan, fresh, Some(1), None);
    tick(b"a release of no such task: ", plan, fresh, None, Some(2));
    let first = fullrate::watch(plan, 1);
    tick(
        b"a release at age below p: ",
        plan,
        first.state,
        None,
        Some(0),
    );
    let tenth = fullrate::watch(plan, 10);
    tick(
        b"a release at age p while active: ",
        plan,
        tenth.state,
        None,
        Some(1),
    );
    tick(
        b"a finish and a release in one tick: ",
        plan,
        tenth.state,
        Some(0),
        Some(0),
    );
    let mut aged = fresh;
    aged.jobs[0] = Job { age: 1, ..NO_JOB };
    tick(b"a task never released of age 1: ", plan, aged, None, None);
    say(b"after 40 ticks at full rate: ");
    let seen = fullrate::watch(plan, 40);
    let mut bytes = [0u8; 59];
    let mut line = Text {
        bytes: &mut bytes,
        end: 0,
    };
    ticklines::totals(&mut line, seen.state);
    console::print(line.said());
}

// The bound asked from outside.
fn bounds(plan: Plan) {
    say(b"the bound of a piece past the list: ");
    if let Err(refusal) = bounds::ask_bound(plan, 2) {
        console::print_refusal(refusal);
    }
}

fn main() {
    periods();
    counts();
    cores();
    writing();
    if let Ok(plan) = planner::plan_table(table(3, 10)) {
        reading_back(plan);
    }
    forces();
    let hand = by_hand(Kind::Whole);
    ticks(hand);
    bounds(hand);
    say_answer(
        b"a share that is a task's only piece: ",
        plans::check_plan(by_hand(Kind::Share)),
    );
}
