// The combinations program: reads m and a book's text from standard input and writes the connected combinations of m sheets to
// standard output, or nothing where standard input cannot be read to its end.
#![tactic(auto)]

use std::process::ExitCode;
use streams::{at_end, read_full, write};

// The line with m has at most 6 bytes; behind it one byte more than a text may have, so that a longer one is seen to be longer.
fn main(rt: HostRuntime) -> ExitCode {
    let mut input = [0u8; 32775];
    let n = read_full(&rt, &mut input);
    if n < 32775 && !at_end(&rt) {
        return ExitCode::FAILURE;
    }
    let mut out = [0u8; 131072];
    let k = desk::asked_listing(&input[..n], &mut out);
    if !write(&rt, &out[..k]) {
        return ExitCode::FAILURE;
    }
    ExitCode::SUCCESS
}
