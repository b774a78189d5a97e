// The smallest speed at or above a ratio, and the default speed of tasks on a rack. How many tasks and processors there may be stands in clauses: the
// numbers are counts and what C hands in.
#![tactic(auto)]

ghost use Rattle.std.specs.Prelude.{◌↔◌, ℕ, ◌*◌, ◌≤◌, map};
ghost use Rattle.model.specs.Limits.{most_processors, longest_period};
ghost use Rattle.model.specs.Speeds.{Smallest};
ghost use Rattle.demand.specs.Rows.{Timely};
ghost use Rattle.speeds.specs.Covering.{Covers, Dated};

use curve::figured::Figured;
use model::limits::LARGEST_PART;
use units::Speed;

pub mod call;

// A ratio n/d.
#[derive(Clone, Copy)]
pub struct Ratio {
    pub n: u64,
    pub d: u64,
}

// The smallest speed that is at least n/d. Each q is looked at once; the first that has a value has it in lowest terms.
pub fn smallest_speed(least: Ratio) -> Speed
    requires le_n { (1 ≤ least.n) × (least.n ≤ least.d) }
    requires d_le_longest_period { least.d ≤ longest_period }
    ensures { Smallest (λ p q. least.n * q ≤ p * least.d) result.p result.q }
{
    let mut smallest = Speed { p: 1, q: 1 };
    // the least part of q that reaches the ratio
    let mut p = 1;
    for q in 2..LARGEST_PART + 1 {
        if p * least.d < least.n * q {
            p += 1;
        }
        if p * smallest.q < smallest.p * q {
            smallest = Speed { p, q };
        }
    }
    smallest
}

// The largest of m/(2m-1) and of the tasks' lengths by their deadlines.
fn largest_ratio<T: Figured>(tasks: &[T], m: u64) -> Ratio
    requires { (1 ≤ m) × (m ≤ most_processors) × Dated (map T.told tasks.now) }
    ensures covers { (p q : ℕ) → (result.n * q ≤ p * result.d) ↔ Covers m (map T.told tasks.now) p q }
    ensures bounded { result.d ≤ longest_period }
{
    let mut largest = Ratio { n: m, d: 2 * m - 1 };
    for task in tasks {
        let figures = task.figures();
        let length = figures.length.0;
        let deadline = figures.deadline.0;
        if largest.n * deadline < length * largest.d {
            largest = Ratio {
                n: length,
                d: deadline,
            };
        }
    }
    largest
}

// The default speed of tasks on m processors, where no length exceeds its deadline.
pub(crate) fn default_speed<T: Figured>(tasks: &[T], m: u64) -> Speed
    requires le_m { (1 ≤ m) × (m ≤ most_processors) × Dated (map T.told tasks.now) }
    requires timely { Timely (map T.told tasks.now) (record { p = 1; q = 1 }) }
    ensures { Smallest (Covers m (map T.told tasks.now)) result.p result.q }
{
    let least = largest_ratio(tasks, m);
    smallest_speed(least)
}
