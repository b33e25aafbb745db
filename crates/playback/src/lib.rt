// Replays: ticks come as bytes, one request after another; those that are whole are made, and their lines are told.
#![tactic(auto)]

ghost use Rattle.std.specs.Prelude.{◌≡◌, ◌<◌, ◌+◌, ◌≤◌, length, get_or};
ghost use Rattle.tasks.specs.Below.{padded};
ghost use Rattle.playback.specs.Requests.{tasks_at, finished_in, released_in, judged};
ghost use Rattle.playback.specs.Players.{start as begun, last_answer};
ghost use Rattle.playback.specs.Replay.{tick_asked, played_in, beginning, played_from, played_on, lines_in, Comes};

use dispatch::{State, Ticked};
use jobs::Tasks;
use plans::Plan;
use tasks::{Place, Refusal, TaskNo};
use texts::Text;

// ---- A tick's request as bytes.

// Judges any bytes at all, the first of which stands at `start` of the input: how many bytes the request takes, if it is whole and good.
fn judge(bytes: &[u8], start: Place) -> Result<usize, Refusal>
    ensures { result ≡ judged bytes.now start }
{
    let a = byte_at(bytes, 0);
    let b = byte_at(bytes, 1 + a);
    let size = 2 + a + b;
    if (64 < a) | (64 < b) {
        return Err(Refusal::WrongLength(start));
    }
    if bytes.len() < size {
        return Err(Refusal::CutShort(start));
    }
    Ok(size)
}

// The tasks that a request tells as finished.
fn finished(bytes: &[u8]) -> Tasks
    ensures { result ≡ finished_in bytes.now }
{
    tasks_at(bytes, 0)
}

// The tasks that a request releases.
fn released(bytes: &[u8]) -> Tasks
    ensures { result ≡ released_in bytes.now }
{
    tasks_at(bytes, 1 + byte_at(bytes, 0))
}

// The tasks that are counted by the byte at a place, and whose numbers stand after it.
fn tasks_at(bytes: &[u8], at: usize) -> Tasks
    requires { at < 512 }
    ensures { result ≡ tasks_at bytes.now at }
{
    let count = byte_at(bytes, at);
    let mut members = [TaskNo(0); 64];
    for k in 0..count.min(64) {
        members[k] = TaskNo(byte_at(bytes, at + 1 + k) as u8);
    }
    Tasks { members, count }
}

// The byte at a place, or 0 past the end.
fn byte_at(bytes: &[u8], i: usize) -> usize
    ensures { (result ≡ get_or bytes.now i 0) × (result < 256) }
{
    bytes.get(i).copied().unwrap_or(0) as usize
}

// ---- Where a replay stands: how it begins, and what its end tells.

// A replay under way: the state, the bytes at hand, which are the first `count`, and the place of the first of them in the input.
// Memory is fixed, and `at_hand` speaks of any count.
#[derive(Clone, Copy)]
pub struct Player {
    pub state: State,
    pub bytes: [u8; 4096],
    pub count: usize,
    pub place: usize,
}

// A replay that begins at a place of the input.
pub fn start(place: usize) -> Player
    ensures { result ≡ begun place }
{
    Player {
        state: dispatch::fresh(),
        bytes: [0u8; 4096],
        count: 0,
        place,
    }
}

// At the end of the input: accepted if nothing is left, otherwise what the bytes left are judged as.
pub fn last(player: Player) -> Result<(), Refusal>
    ensures { result ≡ last_answer player }
{
    let count = player.count.min(4096);
    if count == 0 {
        return Ok(());
    }
    judge(&player.bytes[..count], Place(player.place))?;
    Ok(())
}

// ---- The requests at hand are played.

// The tick that the next bytes ask for.
fn asked(plan: Plan, state: State, bytes: &[u8]) -> Ticked
    ensures { result ≡ tick_asked plan state bytes.now }
{
    dispatch::tick(plan, state, finished(bytes), released(bytes))
}

// Where playing comes to: the state, where the next request begins among the bytes at hand, and how long the lines are.
#[derive(Clone, Copy)]
struct Reached {
    state: State,
    at: usize,
    length: usize,
}

// Plays the whole requests that some bytes begin with, as long as the longest line has room after the lines so far.
fn advance(out: &mut [u8], bytes: &[u8], plan: Plan, begun: State) -> Reached
    ensures { Comes (length bytes.now) bytes.now (played_in (length bytes.now) plan (length out.old) (beginning begun bytes.now)) out.old out.new result }
{
    let mut text = Text { bytes: out, end: 0 };
    let mut state = begun;
    let mut at = 0;
    while !text.is_short(337) {
        let next = &bytes[at..];
        let Ok(size) = judge(next, Place(0)) else {
            break;
        };
        let made = asked(plan, state, next);
        ticklines::ticked(&mut text, plan.cores, made);
        state = made.state;
        at += size;
    }
    Reached {
        state,
        at,
        length: text.end,
    }
}

// The bytes that are left, moved to the beginning of an empty buffer.
fn left(rest: &[u8]) -> [u8; 4096]
    requires { length rest.now ≤ 4096 }
    ensures { result ≡ padded 4096 (length rest.now) 0 (λ i. get_or rest.now i 0) }
{
    let mut moved = [0u8; 4096];
    moved[..rest.len()].copy_from_slice(rest);
    moved
}

// A player after some requests, and how long their lines are.
#[derive(Clone, Copy)]
pub struct Played {
    pub player: Player,
    pub length: usize,
}

// Plays whole requests at hand as long as the longest line has room: their lines stand at the beginning of the lent bytes, and what is left at the beginning of the player's.
pub fn play(out: &mut [u8], player: Player, plan: Plan) -> Played
    ensures { (result ≡ played_on plan player (length out.old)) × (out.new ≡ lines_in (played_from plan player (length out.old)).said out.old) }
{
    let hand = &player.bytes[..player.count.min(4096)];
    let reached = advance(out, hand, plan, player.state);
    let rest = &hand[reached.at..];
    Played {
        player: Player {
            state: reached.state,
            bytes: left(rest),
            count: rest.len(),
            place: tasks::further(player.place, reached.at),
        },
        length: reached.length,
    }
}
