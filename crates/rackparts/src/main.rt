// Judges one set that arrives in parts on standard input: three bytes m, p and q, then the set, each part taken as it comes, with whatever pauses.
// Prints number, place, x and W; where the input cannot be read to its end it prints no verdict, and says why on standard error.
#![tactic(auto)]

use closing::closing_line;
use input::{Unread, read_input};
use line::{Line, answer_line, fail, write_line};
use model::limits::MOST_BYTES;
use std::io;
use taking::take_parts;

mod closing;
mod taking;

// The line for what a source gives, or why that could not be read to its end.
fn line_of<R: io::Read>(source: &mut R) -> Result<Line, Unread> {
    let mut call = [0u8; 3];
    let count = read_input(source, &mut call)?;
    if count < 3 {
        return Ok(answer_line(1, 0, 0, 0));
    }
    let mut room = [0u8; MOST_BYTES];
    let upload = take_parts(source, &mut room)?;
    let m = u64::from(call[0]);
    let p = u64::from(call[1]);
    let q = u64::from(call[2]);
    Ok(closing_line(upload, &room, m, p, q))
}

fn main(rt: HostRuntime) {
    match line_of(&mut rt.stdin()) {
        Ok(line) => write_line(&rt, "rackparts", line),
        Err(e) => fail(&rt, "rackparts", "read standard input", e.reason),
    }
}
