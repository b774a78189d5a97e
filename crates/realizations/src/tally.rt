// What the run has met so far.
use crate::compare::RACKS;
use crate::expect::{Verdict, judge, ticks};
use crate::layers::Layers;
use crate::speed::Speed;
use crate::task::{Task, Tasks};
use std::fmt;
use std::fmt::Display;

#[derive(Default, Drop)]
pub struct Tally {
    sets: u64,
    tasks: u64,
    realizations: u64,
    most_realizations: u64,
    deepest: u64,
    demands: u64,
    layer_pairs: u64,
    fits: u64,
    dense: u64,
    overruns: u64,
    disagreed: u64,
}

impl Display for Tally {
    fn fmt<W: fmt::Write>(&self, f: &mut fmt::Formatter<W>) -> fmt::Result {
        writeln!(f, "sets:                          {}", self.sets)?;
        writeln!(f, "tasks, each with its figures:  {}", self.tasks)?;
        writeln!(f, "realizations:                  {}", self.realizations)?;
        writeln!(
            f,
            "most realizations of one task: {}",
            self.most_realizations
        )?;
        writeln!(f, "deepest nesting:               {}", self.deepest)?;
        writeln!(f, "demands, a tick each:          {}", self.demands)?;
        writeln!(f, "layer pairs:                   {}", self.layer_pairs)?;
        writeln!(f, "verdicts 0:                    {}", self.fits)?;
        writeln!(f, "verdicts 8:                    {}", self.dense)?;
        writeln!(f, "verdicts 9:                    {}", self.overruns)?;
        writeln!(f, "sets that disagree:            {}", self.disagreed)
    }
}

fn add(count: &mut u64, more: u64) {
    *count = count.wrapping_add(more);
}

impl Tally {
    // A task, if there is one.
    fn note_task(&mut self, task: &Task) {
        if task.period == 0 {
            return;
        }
        add(&mut self.tasks, 1);
        add(&mut self.realizations, task.realizations);
        self.most_realizations = self.most_realizations.max(task.realizations);
        self.deepest = self.deepest.max(task.nesting);
        add(&mut self.layer_pairs, Layers::of(task).count);
        add(&mut self.demands, ticks(task));
    }

    fn note_verdict(&mut self, verdict: Verdict) {
        match verdict {
            Verdict::Fits => add(&mut self.fits, 1),
            Verdict::Dense { .. } => add(&mut self.dense, 1),
            Verdict::Overrun { .. } => add(&mut self.overruns, 1),
        }
    }

    // A set.
    pub(crate) fn note(&mut self, tasks: &Tasks, speed: Speed) {
        add(&mut self.sets, 1);
        for task in tasks {
            self.note_task(task);
        }
        for m in RACKS {
            self.note_verdict(judge(tasks, m, speed));
        }
    }

    // A set of which an entry said something else than it owed.
    pub(crate) fn note_disagreed(&mut self) {
        add(&mut self.disagreed, 1);
    }
}
