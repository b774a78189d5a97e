// Task X: its figures, layers and demand, and the verdicts on it alone.
use crate::named::X;
use crate::show::UNTOUCHED;
use std::io;

// Length 11 and volume 25, though its longer arm has the smaller volume. There is no second task.
pub(crate) fn length_and_volume(rt: &impl Print) -> io::Result<()> {
    X.figures(rt, 0)?;
    X.figures(rt, 1)
}

// The layers at 1/1: into as many words as they take, into more, and into one word less.
pub(crate) fn layers_at_1_1(rt: &impl Print) -> io::Result<()> {
    X.layers(rt, 1, 1, &mut [UNTOUCHED; 6])?;
    X.layers(rt, 1, 1, &mut [UNTOUCHED; 8])?;
    X.layers(rt, 1, 1, &mut [UNTOUCHED; 12])?;
    X.layers(rt, 1, 1, &mut [UNTOUCHED; 5])
}

// Demand at 1/1 in the fourth period, after three whole volumes.
pub(crate) fn demand_at_1_1(rt: &impl Print) -> io::Result<()> {
    X.demand(rt, 1, 1, 65)?;
    X.demand(rt, 1, 1, 70)?;
    X.demand(rt, 1, 1, 72)?;
    X.demand(rt, 1, 1, 78)
}

// Demand at the first tick, at the last that is taken, and past that.
pub(crate) fn first_and_last_tick(rt: &impl Print) -> io::Result<()> {
    X.demand(rt, 1, 1, 0)?;
    X.demand(rt, 1, 1, 1_550_000)?;
    X.demand(rt, 1, 1, 1_550_001)
}

// Two processors at 2/3: dense, since 33 ticks are more than 30. Demand refuses too, and layers has no deadline.
pub(crate) fn dense_at_2_3(rt: &impl Print) -> io::Result<()> {
    X.judge(rt, 2, 2, 3)?;
    X.demand(rt, 2, 3, 0)?;
    X.layers(rt, 2, 3, &mut [UNTOUCHED; 6])
}

// Two processors at 1/1: 8 units at tick 8 are allowed, 10 at tick 9 overrun. At 2/2 ticks and units are halves.
pub(crate) fn full_speed(rt: &impl Print) -> io::Result<()> {
    X.demand(rt, 1, 1, 8)?;
    X.demand(rt, 1, 1, 9)?;
    X.judge(rt, 2, 1, 1)?;
    X.judge(rt, 2, 2, 2)
}

// Layers at 3/4, and two processors, which overrun at tick 7. At tick 6 both sides are 30, which is allowed.
pub(crate) fn two_at_3_4(rt: &impl Print) -> io::Result<()> {
    X.layers(rt, 3, 4, &mut [UNTOUCHED; 6])?;
    X.demand(rt, 3, 4, 6)?;
    X.demand(rt, 3, 4, 7)?;
    X.judge(rt, 2, 3, 4)
}

// Four processors at 3/4 overrun at tick 41, by 288 to 287; at tick 40 it is 279 to 280. Five are enough.
pub(crate) fn four_and_five_at_3_4(rt: &impl Print) -> io::Result<()> {
    X.demand(rt, 3, 4, 40)?;
    X.demand(rt, 3, 4, 41)?;
    X.judge(rt, 4, 3, 4)?;
    X.judge(rt, 5, 3, 4)
}

// The most processors and the largest q, and calls that name too few, too many, or no speed.
pub(crate) fn calls_at_their_ends(rt: &impl Print) -> io::Result<()> {
    X.judge(rt, 16, 31, 31)?;
    X.judge(rt, 0, 1, 1)?;
    X.judge(rt, 17, 1, 1)?;
    X.judge(rt, 2, 1, 32)?;
    X.judge(rt, 2, 2, 1)
}

// Without a default a speed of 0 is none.
pub(crate) fn no_speed(rt: &impl Print) -> io::Result<()> {
    X.judge(rt, 2, 0, 1)?;
    X.judge(rt, 2, 1, 0)?;
    X.demand(rt, 0, 0, 9)?;
    X.layers(rt, 0, 0, &mut [UNTOUCHED; 6])
}
