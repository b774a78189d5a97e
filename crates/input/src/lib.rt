// Standard input, in parts as they come, or up to its end. A read that fails is no end: what came before it may be another set than the one sent.
#![tactic(auto)]

ghost use Rattle.std.specs.Prelude.{◌≡◌, ◌<◌, length, take, Some, IfOk, IfErr, MatchResult};
ghost use Rattle.std.specs.Io.KnownBytes.{Consumes, IsAtEnd};
ghost use Rattle.io.specs.Counts.{IsPrefixLen};
ghost use Rattle.input.specs.Reads.{Means, Failed};

use std::io;
use std::io::ErrorKind;

// Input that cannot be read on: how many bytes came before that, of a room that the caller holds, and the system's reason, if there is one.
#[derive(Clone, Copy)]
pub struct Unread {
    pub count: usize,
    pub reason: Option<io::Error>,
}

// A read that failed.
impl From<io::Error> for Unread {
    ghost from_gives = { λ e u. (u.count ≡ 0) × (u.reason ≡ Some e) };

    fn from(e: io::Error) -> Unread {
        Unread {
            count: 0,
            reason: Some(e),
        }
    }
}

// What a read's answer means: that many bytes, and none at the end alone; a failure; or nothing yet, where a signal interrupted it.
fn meant(got: io::Result<usize>) -> Option<io::Result<usize>>
    ensures { Means got result }
{
    match got {
        Err(e) if e.kind() == ErrorKind::Interrupted => None,
        said => Some(said),
    }
}

// Reads what comes next: no byte is the end. A read that a signal interrupted is tried again; a proved loop has to end, so the turns are counted,
// up to a number that no run uses up.
pub fn read_part<R: io::Read>(source: &mut R, room: &mut [u8]) -> Result<usize, Unread>
    ensures prefix { MatchResult result (λ n. IsPrefixLen n room.new) (λ e. IsPrefixLen e.count room.new) }
    ensures bytes { MatchResult result (λ n. Consumes (R.remaining source.old) (R.remaining source.new) (take n room.new))
        (λ e. Consumes (R.remaining source.old) (R.remaining source.new) (take e.count room.new)) }
    ensures end { IfOk result (λ n. n ≡ 0 → 0 < length room.old → IsAtEnd (R.remaining source.new)) }
    ensures failure { IfErr result (λ e. Failed e.reason) }
{
    for _ in 0..u64::MAX {
        match meant(source.read(room)) {
            Some(Ok(count)) => return Ok(count),
            Some(Err(e)) => return Err(e.into()),
            None => {}
        }
    }
    Err(io::Error::from(ErrorKind::TimedOut).into())
}

// Reads until the room is full, the input ends or a read fails. The loop stays by hand: it counts bytes and not turns, and std's `read_exact` does
// not say how many came.
pub fn read_input<R: io::Read>(source: &mut R, room: &mut [u8]) -> Result<usize, Unread>
    ensures prefix { MatchResult result (λ n. IsPrefixLen n room.new) (λ e. IsPrefixLen e.count room.new) }
    ensures bytes { MatchResult result (λ n. Consumes (R.remaining source.old) (R.remaining source.new) (take n room.new))
        (λ e. Consumes (R.remaining source.old) (R.remaining source.new) (take e.count room.new)) }
    ensures end { IfOk result (λ n. n < length room.old → IsAtEnd (R.remaining source.new)) }
    ensures failure { IfErr result (λ e. Failed e.reason) }
{
    let mut count = 0;
    while count < room.len() {
        match read_part(source, &mut room[count..]) {
            Ok(0) => break,
            Ok(more) => count += more,
            Err(e) => {
                return Err(Unread {
                    count: count + e.count,
                    ..e
                });
            }
        }
    }
    Ok(count)
}
