// The layers of a task: how many pairs there are, and the pairs themselves in a lent table.
#![tactic(auto)]

ghost use Rattle.std.specs.Prelude.{◌≡◌, ◌++◌, ◌*◌, ◌≤◌, length, drop};
ghost use Rattle.model.specs.Layers.{layers, as_words};
ghost use Rattle.units.specs.Rack.{SpeedInRange};
ghost use Rattle.curve.specs.Charts.{chart_curve};

use curve::chart::Chart;
use curve::walk::remaining;
use units::{Speed, Ticks};

// How many pairs a task has. Pieces go downward: one more in front makes a new pair or lengthens the first.
pub fn pair_count(chart: &Chart, speed: Speed) -> usize
    requires { SpeedInRange speed }
    ensures { result ≡ length (layers (chart_curve chart.now) speed.q) }
{
    let mut x = speed.runs(chart.figures.length).0;
    let mut pairs = 0;
    let mut first = 0;
    while 0 < x {
        let piece = remaining(chart, speed, Ticks(x));
        if pairs == 0 || piece.slope != first {
            pairs += 1;
            first = piece.slope;
        }
        x -= piece.run.0;
    }
    pairs
}

// Writes the pairs of a task to the front of a table that has room for them.
pub fn write_pairs(chart: &Chart, speed: Speed, pairs: usize, table: &mut [u32])
    requires speed_in_range { SpeedInRange speed }
    requires counted { pairs ≡ length (layers (chart_curve chart.now) speed.q) }
    requires room { 2 * pairs ≤ length table.old }
    ensures { table.new
        ≡ as_words (layers (chart_curve chart.now) speed.q)
        ++ drop (2 * pairs) table.old }
{
    let mut x = speed.runs(chart.figures.length).0;
    let mut at = pairs;
    while 0 < x {
        let piece = remaining(chart, speed, Ticks(x));
        let width = piece.slope as u32;
        let run = piece.run.0 as u32;
        if at < pairs && table[2 * at] == width {
            table[2 * at + 1] += run;
        } else {
            at -= 1;
            table[2 * at] = width;
            table[2 * at + 1] = run;
        }
        x -= piece.run.0;
    }
}
