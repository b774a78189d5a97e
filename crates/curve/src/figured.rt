// What has the figures of a task: they alone, or its whole chart. What is found from figures asks for no more than them: so what it asks of
// them (`InRange`, `Dated`, `Timely`) stands in clauses, and not in the type of figures.
ghost use Rattle.std.specs.Prelude.{refl};
ghost use Rattle.model.specs.Curve.{Curve};
ghost use Rattle.curve.specs.Charts.{chart_curve};
ghost use Rattle.curve.specs.Figured.{outline, Tells};

use crate::chart::{Chart, Figures};

pub trait Figured {
    // The curve of the task, as far as it is told.
    ghost told: { Self → Curve };

    fn figures(&self) -> Figures
        ensures { Tells result (told self.now) };
}

impl Figured for Figures {
    ghost told = { outline };

    fn figures(&self) -> Figures {
        *self
    }
}

impl Figured for Chart {
    ghost told = { chart_curve };

    fn figures(&self) -> Figures {
        self.figures
    }
}
