// The plan writer: reads a table file from standard input and writes its plan file to standard output, or a refusal's line to standard error.
#![tactic(auto)]

use files::Default;

// The lent bytes have room for every plan file.
fn main(rt: HostRuntime) {
    let mut file = [0u8; 2244];
    match planfile::plan_file(console::read_table(&rt, Default::Eight), &mut file) {
        Ok(n) => console::print(&file[..n.min(2244)]),
        Err(refusal) => console::complain(refusal),
    }
}
