// Standard input and standard output of the programs: files that come in parts are read to their end, and what is put into lent bytes is printed.
// A read that fails counts as the end of the input.
#![tactic(auto)]

ghost use Rattle.std.specs.Prelude.{◌≡◌, take};
ghost use Rattle.files.specs.Files.{plan_read};

use files::{Default, Reader};
use plans::Plan;
use std::io::Read;
use tasks::{Refusal, Table};
use texts::Text;

// The files of standard output and of standard error.
const STDOUT: i32 = 1;

const STDERR: i32 = 2;

// Reads the input to its end, in parts of up to 4,096 bytes. A proved loop has to end, and nothing says that an input does:
// it has more turns than any run uses up.
fn feed_all(rt: &impl Input, mut reader: Reader) -> Reader {
    let mut input = rt.reader();
    let mut part = io::buffer();
    for _ in 0..u64::MAX {
        let n = input.read(&mut part).unwrap_or(0);
        if n == 0 {
            break;
        }
        reader = files::feed(reader, &part[..n]);
    }
    reader
}

// The table file on standard input, read with this default.
pub fn read_table(rt: &impl Input, default: Default) -> Result<Table, Refusal> {
    files::close_table(feed_all(rt, files::start_table(default)))
}

// The plan file on standard input, read with this default.
pub fn read_plan(rt: &impl Input, default: Default) -> Result<Plan, Refusal> {
    files::close_plan(feed_all(rt, files::start_plan(default)))
}

// The first n bytes of a buffer, or all that it has, read as a plan file with this default. Its clause speaks of any n, so n stands beside the bytes.
pub fn plan_in(default: Default, bytes: &[u8], n: usize) -> Result<Plan, Refusal>
    ensures { result ≡ plan_read default (take n bytes.now) }
{
    files::read_plan(default, &bytes[..n.min(bytes.len())])
}

// Writes a refusal's line to a file.
fn put_refusal(file: i32, refusal: Refusal) {
    let mut bytes = [0u8; 56];
    let mut line = Text {
        bytes: &mut bytes,
        end: 0,
    };
    line.refusal(refusal);
    io::write_all(file, line.said());
}

// Prints these bytes.
pub fn print(bytes: &[u8]) {
    io::write_all(STDOUT, bytes);
}

// Prints a refusal's line.
pub fn print_refusal(refusal: Refusal) {
    put_refusal(STDOUT, refusal);
}

// Prints a refusal's line to standard error.
pub fn complain(refusal: Refusal) {
    put_refusal(STDERR, refusal);
}
