// Judges one set from standard input: three bytes m, p and q, then the set. Prints number, place, x and W; where the input cannot be read to its
// end it prints no verdict, and says why on standard error.
#![tactic(auto)]

ghost use Rattle.std.specs.Prelude.{◌≡◌, ◌≤◌, length, take, Err, IfOk, IsOkAnd, MatchResult};
ghost use Rattle.line.specs.Text.{text};
ghost use Rattle.reply.specs.Printed.{Printed};

use input::{Unread, read_input};
use line::{Line, fail, write_line};
use model::limits::MOST_BYTES;
use reply::reply;

// m, p, q, the longest set, and one byte of room more, so that a longer one is noticed.
const ROOM: usize = 4 + MOST_BYTES;

// The line for input that was read to its end. Where a read failed there is none.
fn line_of(read: Result<usize, Unread>, room: &[u8]) -> Result<Line, Unread>
    requires { IfOk read (λ n. n ≤ length room.now) }
    ensures { MatchResult read (λ n. IsOkAnd result (λ line. Printed (take n room.now) (text line))) (λ e. result ≡ Err e) }
{
    let count = read?;
    Ok(reply(&room[..count]))
}

fn main(rt: HostRuntime) {
    let mut room = [0u8; ROOM];
    let read = read_input(&mut rt.stdin(), &mut room);
    match line_of(read, &room) {
        Ok(line) => write_line(&rt, "racktest", line),
        Err(e) => fail(&rt, "racktest", "read standard input", e.reason),
    }
}
