// The listing program: reads a book's text from standard input and writes its listing to standard output, or nothing where standard
// input cannot be read to its end.
#![tactic(auto)]

use std::process::ExitCode;
use streams::{at_end, read_full, write};

// One byte more than a text may have, so that a longer one is seen to be longer.
fn main(rt: HostRuntime) -> ExitCode {
    let mut text = [0u8; 32769];
    let n = read_full(&rt, &mut text);
    if n < 32769 && !at_end(&rt) {
        return ExitCode::FAILURE;
    }
    let mut out = [0u8; 131072];
    let k = desk::listing(&text[..n], &mut out);
    if !write(&rt, &out[..k]) {
        return ExitCode::FAILURE;
    }
    ExitCode::SUCCESS
}
