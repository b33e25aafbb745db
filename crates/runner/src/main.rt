// The runner: reads a plan file from standard input and makes 20 ticks, with every task released as soon as allowed.
#![tactic(auto)]

use files::Default;
use texts::Text;

// The lent bytes have room for all lines.
fn main(rt: HostRuntime) {
    let mut bytes = [0u8; 16384];
    let mut text = Text {
        bytes: &mut bytes,
        end: 0,
    };
    ticklines::runner(&mut text, console::read_plan(&rt, Default::Eight));
    console::print(text.said());
}
