// Standard input and output of a program. A failed read or write is told on standard error.
#![tactic(auto)]

ghost use Rattle.std.specs.Prelude.{◌≤◌, length};

use std::io;
use std::io::Read;

// Reads standard input to the front of the buffer, until that is full, the input ends or a read fails; the number of bytes read.
pub fn read_full(rt: &impl Input, buffer: &mut [u8]) -> usize
    ensures { result ≤ length buffer.new }
{
    let mut input = rt.reader();
    let mut filled = 0;
    for _ in 0..buffer.len() {
        match input.read(&mut buffer[filled..]) {
            Ok(0) => break,
            Ok(n) => filled += n,
            Err(_) => break,
        }
    }
    filled
}

// Standard input has ended; or says why it cannot be read to its end.
pub fn at_end(rt: &(impl Input + Eprint + Alloc)) -> bool {
    let mut rest = [0u8; 1];
    match rt.reader().read(&mut rest) {
        Ok(0) => true,
        Ok(_) => {
            let _ = eprintln!(rt; "standard input: broken off");
            false
        }
        Err(e) => {
            let _ = tell(rt, "standard input", &e);
            false
        }
    }
}

// Writes to standard output, and tells whether all was written; or says why that failed, where a part may have been written.
pub fn write(rt: &(impl Print + Eprint + Alloc), out: &[u8]) -> bool {
    match rt.write_all(out) {
        Ok(()) => true,
        Err(e) => {
            let _ = tell(rt, "standard output", &e);
            false
        }
    }
}

// Writes a line to standard error: the stream that failed, a colon, and the system's words for why.
fn tell(rt: &(impl Eprint + Alloc), stream: &str, error: &io::Error) -> io::Result<()> {
    let message = format!(in rt.alloc(); "{error}")?;
    let words = before_number(message.as_str());
    eprintln!(rt; "{stream}: {words}")
}

// A system's error without the number that stands behind it.
fn before_number(message: &str) -> &str {
    match message.split_once(" (os error ") {
        Some((words, _)) => words,
        None => message,
    }
}
