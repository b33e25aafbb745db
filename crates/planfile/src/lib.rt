// The plan file of a table file that was read.
#![tactic(auto)]

ghost use Rattle.std.specs.Prelude.{◌≡◌};
ghost use Rattle.planfile.specs.PlanFile.{file_written, file_filled};

use tasks::{Refusal, Table};

// Plans the table and writes its plan into lent bytes, or says why not: any answer of a reader and any bytes. On a refusal no byte changes.
pub fn plan_file(read: Result<Table, Refusal>, out: &mut [u8]) -> Result<usize, Refusal>
    ensures { (result ≡ file_written read out.old) × (out.new ≡ file_filled read out.old) }
{
    let table = read?;
    let plan = planner::plan_table(table)?;
    writing::write_plan(plan, out)
}
