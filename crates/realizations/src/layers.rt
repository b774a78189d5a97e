// The layers of a task, as pairs of a width and a count of ticks.
use crate::task::Task;

#[derive(Clone, Copy)]
struct Pair {
    width: u64,
    ticks: u64,
}

// In memory of a fixed size, as all here: no crate has a heap.
#[derive(Drop)]
pub struct Layers {
    pub count: u64,
    // From 1 on; before them stands a pair of no width.
    pairs: [Pair; 512],
}

impl Layers {
    // Those of a task: a tick is as wide as what remains falls in it.
    pub(crate) fn of(task: &Task) -> Layers {
        let none = Pair { width: 0, ticks: 0 };
        let mut layers = Layers {
            count: 0,
            pairs: [none; 512],
        };
        for x in 0..task.length {
            layers.add_tick(task.rdem(x).saturating_sub(task.rdem(x + 1)));
        }
        layers
    }

    // One more tick of some width: it joins the last pair where that has its width, and begins a pair where not.
    fn add_tick(&mut self, width: u64) {
        let last = (self.count % 512) as usize;
        if self.pairs[last].width == width {
            self.pairs[last].ticks = self.pairs[last].ticks.wrapping_add(1);
        } else {
            self.count = self.count.wrapping_add(1);
            self.pairs[(last + 1) % 512] = Pair { width, ticks: 1 };
        }
    }

    // The i-th word of all widths and ticks, as they alternate.
    pub(crate) fn word(&self, i: usize) -> u64 {
        let pair = self.pairs[(i / 2 + 1) % 512];
        if i % 2 == 0 { pair.width } else { pair.ticks }
    }
}
