// The plan lister: reads a table file from standard input and prints its plan, or why there is none.
#![tactic(auto)]

use files::Default;
use texts::Text;

// The lent bytes have room for every listing.
fn main(rt: HostRuntime) {
    let mut bytes = [0u8; 16384];
    let mut text = Text {
        bytes: &mut bytes,
        end: 0,
    };
    planlines::lister(&mut text, console::read_table(&rt, Default::Eight));
    console::print(text.said());
}
