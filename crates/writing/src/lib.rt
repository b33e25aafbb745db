// The writer of table and plan files.
#![tactic(auto)]

ghost use Rattle.std.specs.Prelude.{List, ◌++◌, ◌≡◌, ℕ, ◌+◌, ◌*◌, ◌≤◌, length, get_or, drop};
ghost use Rattle.std.proofs.lemmas.List.Edits.{sets};
ghost use Rattle.tasks.specs.Below.{row};
ghost use Rattle.writing.specs.Fields.{bytes4, core_field, task_field, piece_field, tasks_bytes, plan_bytes};
ghost use Rattle.writing.specs.Writing.{after, table_written, table_filled, plan_written, plan_filled};
ghost use Rattle.plans.specs.Pieces.{no_piece};
ghost use Rattle.tasks.specs.Tables.{no_task};
ghost use Rattle.writing.specs.Lengths.{task_field_length, piece_field_length};

use plans::{Piece, Plan};
use tasks::{Refusal, Table, Task};

// ---- Fields.

// What a field of a file holds: tag, length and body, in `SIZE` bytes.
trait Field: Copy {
    const SIZE: usize;

    ghost SIZE: { ℕ };

    // What stands where a list of them has ended.
    ghost none: { Self };

    ghost field: { Self → List ℕ };

    // Writes the field into the part that starts at it.
    fn put(self, out: &mut [u8])
        requires { SIZE ≤ length out.old }
        ensures { out.new ≡ sets out.old 0 (field self) };

    ghost each: { (x : Self) → length (field x) ≡ SIZE };
}

impl Field for Task {
    const SIZE: usize = 15;

    ghost SIZE = { 15 };

    ghost none = { no_task };

    ghost field = { task_field };

    ghost each = { task_field_length };

    fn put(self, out: &mut [u8]) {
        out[0] = 2;
        out[1] = 0;
        out[2] = 12;
        put4(out, 3, self.cost);
        put4(out, 7, self.deadline);
        put4(out, 11, self.period);
    }
}

impl Field for Piece {
    const SIZE: usize = 10;

    ghost SIZE = { 10 };

    ghost none = { no_piece };

    ghost field = { piece_field };

    ghost each = { piece_field_length };

    fn put(self, out: &mut [u8]) {
        out[0] = 3;
        out[1] = 0;
        out[2] = 7;
        out[3] = self.task.0;
        out[4] = self.core.0;
        out[5] = self.kind as u8;
        put4(out, 6, self.cost);
    }
}

// Writes the four bytes of a number from `at` on.
fn put4(out: &mut [u8], at: usize, x: u32)
    requires { at + 4 ≤ length out.old }
    ensures { out.new ≡ sets out.old at (bytes4 x) }
{
    out[at..at + 4].copy_from_slice(&x.to_be_bytes());
}

// Writes the core count into the part that starts at its field.
fn put_cores(out: &mut [u8], cores: u8)
    requires { 4 ≤ length out.old }
    ensures { out.new ≡ sets out.old 0 (core_field cores) }
{
    out[..4].copy_from_slice(&[1, 0, 1, cores]);
}

// Writes fields from `start` on, one after another, and reports the length up to their end.
fn put_all<F: Field>(out: &mut [u8], start: usize, fields: &[F]) -> usize
    requires { start + F.SIZE * length fields.now ≤ length out.old }
    ensures { (result ≡ start + F.SIZE * length fields.now) × (out.new ≡ after out.old start result (row (length fields.now) (λ i. F.field (get_or fields.now i F.none)))) }
{
    let mut at = start;
    for field in fields {
        field.put(&mut out[at..]);
        at += F::SIZE;
    }
    at
}

// ---- Files.

// Writes the core count and the tasks, and reports their length.
fn put_table(out: &mut [u8], cores: usize, count: usize, tasks: [Task; 64]) -> usize
    requires { (cores ≤ 16) × (count ≤ 64) × (4 + 15 * count ≤ length out.old) }
    ensures { (result ≡ 4 + 15 * count) × (out.new ≡ tasks_bytes cores count (λ i. get_or tasks i no_task) ++ drop result out.old) }
{
    put_cores(out, cores as u8);
    put_all(out, 4, &tasks[..count])
}

// Two public names for two records; what their writing shares is `put_table` and `put_all`, and what is left differs in the check and in the length.

// Writes a table into a lent buffer: any record and any buffer.
#[tactic(auto, using(crate::proofs::Writing::table_small))]
pub fn write_table(table: Table, out: &mut [u8]) -> Result<usize, Refusal>
    ensures { (result ≡ table_written table out.old) × (out.new ≡ table_filled table out.old) }
{
    tasks::check_table(table)?;
    let length = 4 + 15 * table.count;
    if out.len() < length {
        return Err(Refusal::BufferShort(length));
    }
    Ok(put_table(out, table.cores, table.count, table.tasks))
}

// Writes the fields of a plan, and reports their length.
fn put_plan(out: &mut [u8], plan: Plan) -> usize
    requires { (plan.cores ≤ 16) × (plan.count ≤ 64) × (plan.placed ≤ 128) × (4 + 15 * plan.count + 10 * plan.placed ≤ length out.old) }
    ensures { (result ≡ 4 + 15 * plan.count + 10 * plan.placed) × (out.new ≡ plan_bytes plan ++ drop result out.old) }
{
    let start = put_table(out, plan.cores, plan.count, plan.tasks);
    put_all(out, start, &plan.pieces[..plan.placed])
}

// Writes a plan into a lent buffer: any record and any buffer.
#[tactic(auto, using(crate::proofs::Writing::plan_small))]
pub fn write_plan(plan: Plan, out: &mut [u8]) -> Result<usize, Refusal>
    ensures { (result ≡ plan_written plan out.old) × (out.new ≡ plan_filled plan out.old) }
{
    plans::check_plan(plan)?;
    let length = 4 + 15 * plan.count + 10 * plan.placed;
    if out.len() < length {
        return Err(Refusal::BufferShort(length));
    }
    Ok(put_plan(out, plan))
}
