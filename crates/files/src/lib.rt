// The reading of table and plan files: bytes are taken one after another, so that a file may come in parts.
#![tactic(auto)]

ghost use Rattle.std.specs.Prelude.{◌≡◌, true, false, ◌+◌, ◌≤◌, ◌<◌, IfOk, cond, ltb, get_or, Some, None};
ghost use Rattle.files.specs.Grammar.{number2, number4, length_for, default_cores, kind_of, refusal, empty_plan};
ghost use Rattle.files.specs.Fields.{tag, tag_no, tag_fits, IsTag, task_in, piece_in, values, verdict, hold, next_field, added, read};
ghost use Rattle.files.specs.Reading.{ended, begun, ended_after, table_ended, table_closed, plan_ended, plan_closed};
ghost use Rattle.files.specs.Files.{table_read, plan_read};

use plans::{Kind, NO_PIECE, Piece, Plan};
use tasks::{CoreNo, NO_TASK, Place, Refusal, Table, Task, TaskNo};

// ---- The fields of a file.

// The field that is being read, and what the fields before it leave for it to be judged by.
#[derive(Clone, Copy)]
pub struct Field {
    // pieces may stand after all tasks: it is a plan file
    pub pieces: bool,
    // 0 as long as no field was bad; otherwise the number of the first bad one's refusal
    // a number and no enum, here, in the calls that give it and in `refusal`, which takes it: a reader made by hand may hold any number, and `feed` takes it
    pub bad: usize,
    pub place: usize,
    // the place where the tasks end: the field's own until a piece was read
    pub end: usize,
    // some piece was a 129th or had a kind above 1
    pub misshapen: bool,
    // the first `count` of `bytes` are those of the field that were read so far; memory is fixed, and `hold` speaks of any count
    pub count: usize,
    pub bytes: [u8; 15],
}

// A file that is being read: its next field, and what the fields before that hold.
#[derive(Clone, Copy)]
pub struct Reader {
    pub field: Field,
    pub plan: Plan,
}

// Two numbers and two functions: they differ in the library's call and in the type that it gives, and share no step.

// The number of two bytes from `i` on.
fn number2_at(bytes: [u8; 15], i: usize) -> u16
    requires { i + 2 ≤ 15 }
    ensures { result ≡ number2 bytes i }
{
    u16::from_be_bytes([bytes[i], bytes[i + 1]])
}

// The number of four bytes from `i` on.
fn number4_at(bytes: [u8; 15], i: usize) -> u32
    requires { i + 4 ≤ 15 }
    ensures { result ≡ number4 bytes i }
{
    u32::from_be_bytes([bytes[i], bytes[i + 1], bytes[i + 2], bytes[i + 3]])
}

// What a field names, by its tag.
#[derive(Clone, Copy, Debug, PartialEq, Eq)]
enum Tag {
    Cores,
    Task,
    Piece,
}

impl Tag {
    // The length that belongs to the tag.
    fn length(self) -> usize
        ensures { (result ≡ length_for (tag_no self)) × (result < 13) }
    {
        match self {
            Tag::Cores => 1,
            Tag::Task => 12,
            Tag::Piece => 7,
        }
    }
}

impl Field {
    // The tag, if it is known.
    fn tag(self) -> Option<Tag>
        ensures { IsTag result (tag self) }
    {
        match self.bytes[0] {
            1 => Some(Tag::Cores),
            2 => Some(Tag::Task),
            3 => Some(Tag::Piece),
            _ => None,
        }
    }

    // Is its tag in its order: a core count only as the first field, a task only before any piece, a piece only in plan files?
    #[tactic(auto, unfolding(crate::specs::Fields::tag_fits))]
    fn in_order(self, known: Tag) -> bool
        ensures { tag self ≡ tag_no known → result ≡ tag_fits self }
    {
        match known {
            Tag::Cores => self.place == 0,
            Tag::Task => self.place <= self.end,
            Tag::Piece => self.pieces,
        }
    }

    // The task of a field with tag 2.
    fn task(self) -> Task
        ensures { result ≡ task_in self }
    {
        let bytes = self.bytes;
        Task {
            cost: number4_at(bytes, 3),
            deadline: number4_at(bytes, 7),
            period: number4_at(bytes, 11),
        }
    }

    // The piece of a field with tag 3, if its kind is 0 or 1.
    fn piece(self) -> Option<Piece>
        ensures { result ≡ cond (ltb (get_or self.bytes 5 0) 2) (Some (piece_in self)) None }
    {
        let bytes = self.bytes;
        let kind = match bytes[5] {
            0 => Kind::Whole,
            1 => Kind::Share,
            _ => return None,
        };
        Some(Piece {
            task: TaskNo(bytes[3]),
            core: CoreNo(bytes[4]),
            kind,
            cost: number4_at(bytes, 6),
        })
    }

    // One more byte of the field.
    #[tactic(auto, unfolding(crate::specs::Fields::hold))]
    fn hold(mut self, byte: u8) -> Field
        ensures { result ≡ hold self byte }
    {
        let n = self.count;
        if n < 15 {
            self.bytes[n] = byte;
            self.count = n + 1;
        }
        self
    }

    // Values: 4 or 5.
    #[tactic(auto, unfolding(crate::specs::Grammar::values_fault))]
    fn values(self) -> usize
        ensures { result ≡ values self }
    {
        match self.tag() {
            Some(Tag::Cores) if !(1..=16).contains(&self.bytes[3]) => 4,
            Some(Tag::Task) if !tasks::values_fit(self.task()) => 5,
            _ => 0,
        }
    }

    // Header whole (1), tag (2), 65th task (6), length (3), body whole (1), values (4 or 5), after so many tasks.
    #[tactic(auto, unfolding(crate::specs::Fields::verdict, crate::specs::Fields::tag_fits))]
    fn verdict(self, tasks: usize) -> usize
        ensures { result ≡ verdict self tasks }
    {
        if self.count < 3 {
            return 1;
        }
        let Some(tag) = self.tag() else {
            return 2;
        };
        if !self.in_order(tag) {
            return 2;
        }
        if (tag == Tag::Task) & (64 <= tasks) {
            return 6;
        }
        let length = tag.length();
        if number2_at(self.bytes, 1) as usize != length {
            return 3;
        }
        if self.count < 3 + length {
            return 1;
        }
        self.values()
    }

    // The next field after this good one.
    #[tactic(auto, unfolding(crate::specs::Fields::next_field, crate::specs::Fields::piece_taken))]
    fn next(self, placed: usize) -> Field
        ensures { result ≡ next_field self placed }
    {
        let place = tasks::further(self.place, self.count);
        let mut next = Field {
            bad: 0,
            place,
            count: 0,
            bytes: [0u8; 15],
            ..self
        };
        if let Some(Tag::Piece) = self.tag() {
            let taken = self.piece().is_some() & (placed < 128);
            next.misshapen = self.misshapen | !taken;
        } else {
            next.end = place;
        }
        next
    }

    // What is read so far, with this good field added.
    #[tactic(auto, unfolding(crate::specs::Fields::added, crate::specs::Fields::piece_taken))]
    fn add_to(self, plan: &mut Plan)
        requires { (tag self ≡ 3 → ⊥) → (tag self ≡ 1 → ⊥) → plan.old.count < 64 }
        ensures { plan.new ≡ added self plan.old }
    {
        match self.tag() {
            Some(Tag::Piece) => {
                let n = plan.placed;
                if let Some(piece) = self.piece()
                    && n < 128
                {
                    plan.pieces[n] = piece;
                    plan.placed = n + 1;
                }
            }
            Some(Tag::Cores) => {
                plan.cores = self.bytes[3] as usize;
            }
            _ => {
                let n = plan.count;
                plan.tasks[n] = self.task();
                plan.count = n + 1;
            }
        }
    }
}

// Reads on: the next part of a file, of any length.
pub fn feed(reader: Reader, part: &[u8]) -> Reader
    ensures { result ≡ read reader part.now }
{
    let mut f = reader.field;
    let mut plan = reader.plan;
    for byte in part {
        if f.bad != 0 {
            break;
        }
        f = f.hold(*byte);
        let found = f.verdict(plan.count);
        if found == 0 {
            let placed = plan.placed;
            f.add_to(&mut plan);
            f = f.next(placed);
        } else if found != 1 {
            f.bad = found;
        }
    }
    Reader { field: f, plan }
}

// ---- The reader: where it begins, and what the end of a file is answered with.

// How many cores a file is for that does not name its core count. Whoever has a file read states it.
#[derive(Clone, Copy, Debug, PartialEq, Eq)]
pub enum Default {
    Four,
    Eight,
}

impl Default {
    // So many cores.
    fn cores(self) -> usize
        ensures { result ≡ default_cores self }
    {
        match self {
            Default::Four => 4,
            Default::Eight => 8,
        }
    }
}

// The refusal of this number, which tells a place.
#[tactic(auto, unfolding(crate::specs::Grammar::refusal))]
fn refusal(number: usize, at: usize) -> Refusal
    ensures { result ≡ refusal number at }
{
    let place = Place(at);
    match number {
        1 => Refusal::CutShort(place),
        2 => Refusal::WrongTag(place),
        3 => Refusal::WrongLength(place),
        4 => Refusal::CoresAt(place),
        5 => Refusal::ValuesAt(place),
        _ => Refusal::TasksAt(place),
    }
}

// The field where the file ends, after so many tasks: 1 or 6.
#[tactic(auto, unfolding(crate::specs::Reading::ended))]
fn ended(mut f: Field, tasks: usize) -> Field
    ensures { result ≡ ended f tasks }
{
    if f.bad == 0 && 0 < f.count {
        f.bad = 1;
    } else if f.bad == 0 && tasks == 0 {
        f.bad = 6;
        f.place = f.end;
    }
    f
}

// A plan of all zeros, but for the core count.
fn empty_plan(cores: usize) -> Plan
    ensures { result ≡ empty_plan cores }
{
    Plan {
        cores,
        count: 0,
        tasks: [NO_TASK; 64],
        placed: 0,
        pieces: [NO_PIECE; 128],
    }
}

// A reader that has read nothing yet, of a table file or, with pieces, of a plan file.
fn begun(default: Default, pieces: bool) -> Reader
    ensures { result ≡ begun default pieces }
{
    Reader {
        field: Field {
            pieces,
            bad: 0,
            place: 0,
            end: 0,
            misshapen: false,
            count: 0,
            bytes: [0u8; 15],
        },
        plan: empty_plan(default.cores()),
    }
}

// Two names over one `begun`, and so below for a whole file: callers and the edits tell a table file from a plan file by them.

// Begins to read a table file, with this default.
pub fn start_table(default: Default) -> Reader
    ensures { result ≡ begun default false }
{
    begun(default, false)
}

// Begins to read a plan file, with this default.
pub fn start_plan(default: Default) -> Reader
    ensures { result ≡ begun default true }
{
    begun(default, true)
}

// What the fields are answered with where the file ends, after so many tasks: 1 or 6.
fn fields_ended(f: Field, tasks: usize) -> Result<(), Refusal>
    ensures { result ≡ ended_after f tasks }
{
    let last = ended(f, tasks);
    if last.bad == 0 {
        Ok(())
    } else {
        Err(refusal(last.bad, last.place))
    }
}

// What the end of a table file is answered with: 1, 6 or, for a reader with pieces, 2; then the check of the record.
#[tactic(auto, unfolding(crate::specs::Reading::table_ended))]
fn table_ended(f: Field, plan: Plan) -> Result<(), Refusal>
    ensures answer { result ≡ table_ended f plan }
    ensures room { IfOk result (λ done. plan.count ≤ 64) }
{
    fields_ended(f, plan.count)?;
    if f.pieces | (0 < plan.placed) {
        return Err(Refusal::WrongTag(Place(f.end)));
    }
    tasks::check_tasks(plan.cores, plan.count, plan.tasks)
}

// What the end of a plan file is answered with: 1, 6 or, last, 8.
#[tactic(auto, unfolding(crate::specs::Reading::plan_ended))]
fn plan_ended(f: Field, plan: Plan) -> Result<(), Refusal>
    ensures answer { result ≡ plan_ended f plan }
    ensures room { IfOk result (λ done. (plan.count ≤ 64) × (plan.placed ≤ 128)) }
{
    fields_ended(f, plan.count)?;
    if f.misshapen {
        return Err(Refusal::NoPlanShape);
    }
    plans::check_plan(plan)
}

// Ends the reading of a table file. Any reader may be given; the table handed out is 0 past its count.
#[tactic(auto, unfolding(crate::specs::Reading::table_closed))]
pub fn close_table(reader: Reader) -> Result<Table, Refusal>
    ensures { result ≡ table_closed reader }
{
    let plan = reader.plan;
    table_ended(reader.field, plan)?;
    let mut tasks = plan.tasks;
    tasks[plan.count..].fill(NO_TASK);
    Ok(Table {
        cores: plan.cores,
        count: plan.count,
        tasks,
    })
}

// Ends the reading of a plan file. Any reader may be given; the plan handed out is 0 past its counts.
#[tactic(auto, unfolding(crate::specs::Reading::plan_closed))]
pub fn close_plan(reader: Reader) -> Result<Plan, Refusal>
    ensures { result ≡ plan_closed reader }
{
    let plan = reader.plan;
    plan_ended(reader.field, plan)?;
    let mut tasks = plan.tasks;
    let mut pieces = plan.pieces;
    tasks[plan.count..].fill(NO_TASK);
    pieces[plan.placed..].fill(NO_PIECE);
    Ok(Plan {
        cores: plan.cores,
        count: plan.count,
        tasks,
        placed: plan.placed,
        pieces,
    })
}

// ---- A whole file.

// Reads a table file, with this default: any bytes at all.
#[tactic(auto, unfolding(crate::specs::Files::table_read))]
pub fn read_table(default: Default, bytes: &[u8]) -> Result<Table, Refusal>
    ensures { result ≡ table_read default bytes.now }
{
    close_table(feed(start_table(default), bytes))
}

// Reads a plan file, with this default: any bytes at all.
#[tactic(auto, unfolding(crate::specs::Files::plan_read))]
pub fn read_plan(default: Default, bytes: &[u8]) -> Result<Plan, Refusal>
    ensures { result ≡ plan_read default bytes.now }
{
    close_plan(feed(start_plan(default), bytes))
}
