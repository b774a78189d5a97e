// What is kept of a task: its stretches, each in a place, and the line that it was last asked for.
#![tactic(auto)]

ghost use Rattle.std.specs.Prelude.{◌≡◌, ◌+◌, ◌-◌, ◌^◌, ◌≤◌, ◌<◌, length, replicate};
ghost use Rattle.places.specs.OneStretch.{no_stretch, reaches};

use units::{Ticks, Work};

// How many stretches have a place.
pub const PLACES: usize = 64;

// From a tick of the period on, the demand is `value`, and grows by `slope` at each tick of the run.
#[derive(Clone, Copy)]
pub struct Stretch {
    pub from: Ticks,
    pub value: Work,
    pub slope: u64,
    pub run: Ticks,
}

// What is kept of a task. An array with its count and no ArrayVec: whatever stands in the places that are not used is looked at too.
#[derive(Clone, Copy)]
pub struct Notes {
    // Its stretches, those that are used in front.
    pub stretches: [Stretch; PLACES],
    // How many are used; all, where the number is larger.
    pub used: usize,
    // The line that the task was last asked for.
    pub line: Stretch,
    // How many stretches are still worked out alone, by a walk each, before any is kept.
    pub walks: u64,
    ghost wide: { length stretches ≡ 64 },
}

impl Notes {
    ghost use Rattle.places.specs.Places.{stretch_in, Next};

    // Nothing but zeros: four of them are a stretch and a line of every task.
    pub fn new() -> Notes
        ensures { (result.stretches ≡ replicate 64 no_stretch) × (result.used ≡ 0) × (result.line ≡ no_stretch) × (result.walks ≡ 0) }
    {
        let none = Stretch {
            from: Ticks(0),
            value: Work(0),
            slope: 0,
            run: Ticks(0),
        };
        Notes {
            stretches: [none; PLACES],
            used: 0,
            line: none,
            walks: 0,
        }
    }

    // Keeps a stretch that begins where the last used one ends: as a part of that one if it is the same line, else in the next place.
    pub fn keep_next(&mut self, s: Stretch)
        requires room { self.old.used < 64 }
        requires run_bound { 0 < self.old.used → (stretch_in self.old (self.old.used - 1)).run.0 + s.run.0 < 2 ^ 64 }
        ensures { Next self.old s self.new }
    {
        if 0 < self.used {
            let last = self.used - 1;
            if self.stretches[last].slope == s.slope {
                self.stretches[last].run.0 += s.run.0;
                return;
            }
        }
        self.stretches[self.used] = s;
        self.used += 1;
    }
}

// Whether a stretch begins before a tick and reaches it.
pub fn covers(from: u64, run: u64, tick: u64) -> bool
    ensures { result ≡ reaches from run tick }
{
    if from < tick {
        tick - from <= run
    } else {
        false
    }
}
