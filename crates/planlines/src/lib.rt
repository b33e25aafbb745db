// The listing of a plan, and what the lister prints, put into a text. Where the longest text of its kind has no room, nothing is put.
// Each function that puts more than one text asks for its own room first: why, the head of `texts` says.
#![tactic(auto)]

ghost use Rattle.texts.specs.Puts.{Puts};
ghost use Rattle.planlines.specs.Listing.{head_text, head_most, kind_text, piece_text, piece_most, listing_text, listing_most, planned_text, lister_text};

use plans::{Kind, Piece, Plan};
use tasks::{Refusal, Table};
use texts::Text;

// The word of a kind.
#[tactic(auto, unfolding(texts::specs::Text::ascii))]
fn kind(text: &mut Text, kind: Kind)
    ensures { Puts 7 (kind_text kind) text.old text.new }
{
    match kind {
        Kind::Whole => text.words(b" whole "),
        Kind::Share => text.words(b" share "),
    }
}

// Task, core, kind, cost.
fn piece(text: &mut Text, piece: Piece)
    ensures { Puts piece_most (piece_text piece) text.old text.new }
{
    if text.is_short(69) {
        return;
    }
    text.number(piece.task.0 as u64);
    text.words(b" ");
    text.number(piece.core.0 as u64);
    kind(text, piece.kind);
    text.number(piece.cost as u64);
    text.words(b"\n");
}

// The first line: cores and tasks.
fn head(text: &mut Text, cores: usize, count: usize)
    ensures { Puts head_most (head_text cores count) text.old text.new }
{
    if text.is_short(54) {
        return;
    }
    text.words(b"cores ");
    text.number(cores as u64);
    text.words(b" tasks ");
    text.number(count as u64);
    text.words(b"\n");
}

// The plan's listing: cores and tasks, then each piece.
fn listing(text: &mut Text, plan: Plan)
    ensures { Puts listing_most (listing_text plan) text.old text.new }
{
    if text.is_short(8886) {
        return;
    }
    head(text, plan.cores, plan.count);
    for z in &plan.pieces[..plan.placed.min(128)] {
        piece(text, *z);
    }
}

// The listing of the planner's answer.
pub fn planned(text: &mut Text, planned: Result<Plan, Refusal>)
    ensures { Puts listing_most (planned_text planned) text.old text.new }
{
    if text.is_short(8886) {
        return;
    }
    match planned {
        Ok(plan) => listing(text, plan),
        Err(refusal) => text.refusal(refusal),
    }
}

// What the lister prints for a table file that was read.
pub fn lister(text: &mut Text, read: Result<Table, Refusal>)
    ensures { Puts listing_most (lister_text read) text.old text.new }
{
    if text.is_short(8886) {
        return;
    }
    match read {
        Ok(table) => planned(text, planner::plan_table(table)),
        Err(refusal) => text.refusal(refusal),
    }
}
