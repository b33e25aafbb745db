// The table in force: the machine's own table if it is good, otherwise the shipped one if that is good.
#![tactic(auto)]

ghost use Rattle.std.specs.Prelude.{◌≡◌};
ghost use Rattle.force.specs.InForce.{in_force, cores_in_force, TaskFields, IsInForce};

use files::{Default, read_table};
use tasks::Refusal;

// Which of the two slices is in force.
#[derive(Clone, Copy, Debug, PartialEq, Eq)]
pub enum InForce {
    Own,
    Shipped,
}

// Which of the two slices is in force or, if both are bad, the refusal of the shipped one.
#[tactic(auto, unfolding(crate::specs::InForce::in_force))]
pub fn which_in_force<'a>(
    default: Default,
    own: &'a [u8],
    shipped: &'a [u8],
) -> Result<InForce, Refusal>
    ensures { result ≡ in_force default own.now shipped.now }
{
    if read_table(default, own).is_ok() {
        return Ok(InForce::Own);
    }
    read_table(default, shipped)?;
    Ok(InForce::Shipped)
}

// How many cores the table in force is for: the count that it names, otherwise the default; if both slices are bad, the refusal of the shipped one.
// The part that `table_in_force` gives does not hold it.
#[tactic(auto, unfolding(crate::specs::InForce::cores_in_force))]
pub fn cores_in_force<'a>(
    default: Default,
    own: &'a [u8],
    shipped: &'a [u8],
) -> Result<usize, Refusal>
    ensures { result ≡ cores_in_force default own.now shipped.now }
{
    if let Ok(table) = read_table(default, own) {
        return Ok(table.cores);
    }
    let table = read_table(default, shipped)?;
    Ok(table.cores)
}

// The part of a good table file that holds its task fields, itself and no copy.
fn task_fields<'a>(file: &'a [u8]) -> &'a [u8]
    ensures { TaskFields result file.entry }
{
    match file {
        [1, _, _, _, tasks @ ..] => tasks,
        _ => file,
    }
}

// The part of the slice in force that holds the task fields, both slices lent for as long as the part.
fn part_in_force<'r>(default: Default, own: &'r [u8], shipped: &'r [u8]) -> &'r [u8]
    ensures { IsInForce (in_force default own.now shipped.now) result own.entry shipped.entry }
{
    match which_in_force(default, own, shipped) {
        Ok(InForce::Own) => task_fields(own),
        Ok(InForce::Shipped) => task_fields(shipped),
        Err(_) => &shipped[..0],
    }
}

// The table in force: the part of the machine's own or of the shipped slice that holds the task fields, itself and no copy; empty if both are bad.
pub fn table_in_force<'a: 'r, 'b: 'r, 'r>(
    default: Default,
    own: &'a [u8],
    shipped: &'b [u8],
) -> &'r [u8]
    ensures { IsInForce (in_force default own.now shipped.now) result own.entry shipped.entry }
{
    let own: &'r [u8] = own;
    let shipped: &'r [u8] = shipped;
    part_in_force(default, own, shipped)
}
