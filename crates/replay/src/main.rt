// Replays what a unit did: standard input is the length of a plan file in two bytes, high first, that plan file, and then ticks to the end.
#![tactic(auto)]

ghost use Rattle.std.specs.Prelude.{◌≤◌, length};

use files::Default;
use plans::Plan;
use playback::Player;
use std::io::Read;
use tasks::{Place, Refusal};
use texts::Text;

// Reads one part of the input into a buffer, and says how many bytes it has. A read that fails counts as the end of the input.
fn read_some<R: Read>(input: &mut R, bytes: &mut [u8]) -> usize
    ensures { result ≤ length bytes.new }
{
    input.read(bytes).unwrap_or(0)
}

// Reads one part of the input, as far as the player's bytes have room, and says whether the input may go on.
fn feed_some<R: Read>(input: &mut R, player: &mut Player) -> bool {
    let held = player.count;
    if 4096 <= held {
        return false;
    }
    let n = read_some(input, &mut player.bytes[held..]);
    player.count = held + n;
    n > 0
}

// All ticks of the input, from its byte `start` on, and the totals: a part of the input is read, and as much is played as there is room for, until nothing is read and nothing is played.
// A proved loop has to end, and nothing says that an input does: it has more turns than any run uses up.
fn replay<R: Read>(input: &mut R, plan: Plan, start: usize) {
    let mut lines = [0u8; 16384];
    let mut player = playback::start(start);
    for _ in 0..u64::MAX {
        let more = feed_some(input, &mut player);
        let played = playback::play(&mut lines, player, plan);
        console::print(&lines[..played.length.min(16384)]);
        player = played.player;
        if !more && played.length == 0 {
            break;
        }
    }
    if let Err(refusal) = playback::last(player) {
        console::print_refusal(refusal);
    }
    let mut text = Text {
        bytes: &mut lines,
        end: 0,
    };
    ticklines::totals(&mut text, player.state);
    console::print(text.said());
}

// The plan file that the input begins with, read, and the place where the ticks begin.
fn given<R: Read>(input: &mut R) -> Result<(Plan, usize), Refusal> {
    let mut file = io::large_buffer();
    input
        .read_exact(&mut file[..2])
        .map_err(|_| Refusal::CutShort(Place(0)))?;
    let length = u16::from_be_bytes([file[0], file[1]]) as usize;
    input
        .read_exact(&mut file[..length])
        .map_err(|_| Refusal::CutShort(Place(0)))?;
    let plan = console::plan_in(Default::Eight, &file, length)?;
    Ok((plan, 2 + length))
}

fn main(rt: HostRuntime) {
    let mut input = rt.reader();
    match given(&mut input) {
        Ok((plan, start)) => replay(&mut input, plan, start),
        Err(refusal) => console::print_refusal(refusal),
    }
}
