// The line that a program prints for an answer.
#![tactic(auto)]

ghost use Rattle.std.specs.Prelude.{◌≡◌};
ghost use Rattle.line.specs.Text.{line_of, too_long, text};

pub use buffer::Line;
use std::io::Error;

mod buffer;

// Number, place, x and W.
pub fn answer_line(number: u64, place: u64, x: u64, w: u64) -> Line
    ensures { text result ≡ line_of number place x w }
{
    let mut line = Line::new();
    line.push_number(number);
    line.push(b' ');
    line.push_number(place);
    line.push(b' ');
    line.push_number(x);
    line.push(b' ');
    line.push_number(w);
    line.push(b'\n');
    line
}

// What is printed for a set that is longer than the program takes.
pub fn too_long() -> Line
    ensures { text result ≡ too_long }
{
    let mut line = Line::new();
    line.extend_from_slice(b"too long\n");
    line
}

// Says on standard error what a program could not do, and why. Where that cannot be written nothing is left to do.
pub fn fail(rt: &impl Eprint, program: &str, what: &str, reason: Option<Error>) {
    let _ = match reason {
        Some(e) => eprintln!(rt; "{program}: cannot {what}: {e}"),
        None => eprintln!(rt; "{program}: cannot {what}"),
    };
}

// Writes a line to standard output, or says why it could not.
pub fn write_line(rt: &(impl Print + Eprint), program: &str, line: Line) {
    let bytes = line.bytes;
    let len = line.len;
    if let Err(e) = rt.write_all(&bytes[..len]) {
        fail(rt, program, "write to standard output", Some(e));
    }
}
