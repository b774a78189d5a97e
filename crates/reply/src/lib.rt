// What the program prints for its whole input: three bytes m, p and q, then the set.
#![tactic(auto)]

ghost use Rattle.std.specs.Prelude.{◌≡◌};
ghost use Rattle.line.specs.Text.{line_of, text};
ghost use Rattle.reply.specs.Printed.{named_p, named_q, Printed};

use entries::{SetVerdict, judge};
use line::{Line, answer_line, too_long};
use model::limits::MOST_BYTES;
use units::{Speed, rack_fits, rack_speed, unnamed};

// m, p and q.
const CALL: usize = 3;

// m, p, q and the longest set.
const MOST_INPUT: usize = CALL + MOST_BYTES;

// The speed that a program names: m/(2m-1) for 0/0, where there are racks of m processors.
pub fn named_speed(m: u64, p: u64, q: u64) -> Speed
    ensures { (result.p ≡ named_p m p q) × (result.q ≡ named_q m p q) }
{
    if rack_fits(m) && unnamed(p, q) {
        return rack_speed(m as usize);
    }
    Speed { p, q }
}

// The line that shows an answer of judge.
pub fn verdict_line(found: SetVerdict) -> Line
    ensures { text result ≡ line_of found.number found.place found.x.0 found.w.0 }
{
    answer_line(
        found.number as u64,
        found.place as u64,
        found.x.0,
        found.w.0,
    )
}

// The line for an input of any bytes.
pub fn reply(input: &[u8]) -> Line
    ensures { Printed input.now (text result) }
{
    if MOST_INPUT < input.len() {
        return too_long();
    }
    if input.len() < CALL {
        return answer_line(1, 0, 0, 0);
    }
    let m = u64::from(input[0]);
    let p = u64::from(input[1]);
    let q = u64::from(input[2]);
    let speed = named_speed(m, p, q);
    verdict_line(judge(&input[CALL..], m, speed.p, speed.q))
}
