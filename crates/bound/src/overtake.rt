// A line of demand beside the line of the bound. Its six numbers travel together nowhere else.
ghost use Rattle.std.specs.Prelude.{◌≡◌, ◌+◌, ◌*◌, ◌^◌, ◌<◌, ltb};
ghost use Rattle.model.specs.Range.{least};

// How many ticks after x, of a run, the first is that overruns, the run where none does: W is w at x, and each tick adds `slope`.
pub fn first_over(bound: u64, p: u64, x: u64, w: u64, slope: u64, run: u64) -> u64
    requires { (p * w < 2 ^ 64) × (bound * x < 2 ^ 64) × (p * slope < 2 ^ 64) }
    ensures { result ≡ least run (λ j. ltb (bound * (x + j)) (p * (w + slope * j))) }
{
    let asked = p * w;
    let room = bound * x;
    if room < asked {
        return 0;
    }
    let rise = p * slope;
    if rise <= bound {
        return run;
    }
    let under = (room - asked) / (rise - bound);
    // an if and no min: one more could wrap
    if under < run { under + 1 } else { run }
}
