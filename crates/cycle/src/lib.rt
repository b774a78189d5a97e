// The common cycle of the tasks of a set: the least common multiple of their periods.
#![tactic(auto)]

ghost use Rattle.std.specs.Prelude.{◌≡◌, ℕ, ◌*◌, ◌%◌, ◌^◌, ◌<◌, ◌≤◌, length, get_or};
ghost use Rattle.model.specs.Limits.{longest_period};
ghost use Rattle.model.specs.Curve.{divisor, multiple, cycle_from};
ghost use Rattle.cycle.specs.Limit.{within};

use model::limits::MOST_CYCLE;

// The greatest common divisor of two odd numbers. They are an even number apart, and 2 does not divide them, so that number is halved
// until it is odd: each call takes a binary digit off the larger of the two.
fn odd_divisor(a: u64, b: u64) -> u64
    requires { (a % 2 ≡ 1) × (b % 2 ≡ 1) }
    ensures { result ≡ divisor a b }
{
    if a == b {
        return a;
    }
    let apart = a.abs_diff(b);
    odd_divisor(a.min(b), apart >> apart.trailing_zeros())
}

// The greatest common divisor, by halving and subtracting: both numbers are halved until they are odd, and the divisor is doubled for
// each factor of two that both had.
pub fn divisor(a: u64, b: u64) -> u64
    ensures { result ≡ divisor a b }
{
    if a == 0 {
        return b;
    }
    if b == 0 {
        return a;
    }
    let in_a = a.trailing_zeros();
    let in_b = b.trailing_zeros();
    odd_divisor(a >> in_a, b >> in_b) << in_a.min(in_b)
}

// The least common multiple.
pub fn multiple(a: u64, b: u64) -> u64
    requires { (0 < a) × (a * b < 2 ^ 64) }
    ensures { result ≡ multiple a b }
{
    a / divisor(a, b) * b
}

// The common cycle, task by task, or none where it is over the limit. It never falls, so the first multiple over the limit settles the answer.
pub fn common_cycle(periods: &[u64]) -> Option<u64>
    requires { (i : ℕ) → i < length periods.now → (1 ≤ get_or periods.now i 0) × (get_or periods.now i 0 ≤ longest_period) }
    ensures { result ≡ within (cycle_from 1 periods.now) }
{
    let mut h = 1;
    for &period in periods {
        h = multiple(h, period);
        if MOST_CYCLE < h {
            return None;
        }
    }
    Some(h)
}
