// A task as a chart: its figures, and the tables of its jobs.
ghost use Rattle.std.specs.Prelude.{◌≡◌};
ghost use Rattle.curve.specs.Sheets.{Sheet};

use model::limits::MOST_VERTICES;
use units::Time;

// What is known of a task without its jobs.
#[derive(Clone, Copy)]
pub struct Figures {
    pub deadline: Time,
    pub period: Time,
    pub length: Time,
    pub volume: Time,
    // All its vertices, as a set.
    pub vertices: u64,
}

// The jobs of a task by vertex number: their times, their latest ends, and the two arms of the choice that starts there, none where no
// choice does. Three arrays and not one of structs: document 01 names the arms as an array of arrays by value, and they are made one by one.
#[derive(Clone, Copy)]
pub struct Jobs {
    pub times: [u64; MOST_VERTICES],
    pub ends: [u64; MOST_VERTICES],
    pub arms: [[u64; 2]; MOST_VERTICES],
}

// A task by its figures and jobs, which keep what those of a readable task keep.
#[derive(Clone, Copy)]
pub struct Chart {
    pub figures: Figures,
    pub jobs: Jobs,
    ghost sheet: { Sheet figures jobs },
}

impl Chart {
    // A chart with no job, to begin a list of charts with.
    pub fn empty() -> Chart
        ensures { (result.figures.length.0 ≡ 0) × (result.figures.volume.0 ≡ 0) × (result.figures.vertices ≡ 0) }
    {
        Chart {
            figures: Figures {
                deadline: Time(1),
                period: Time(1),
                length: Time(0),
                volume: Time(0),
                vertices: 0,
            },
            jobs: Jobs {
                times: [0; MOST_VERTICES],
                ends: [0; MOST_VERTICES],
                arms: [[0; 2]; MOST_VERTICES],
            },
        }
    }
}
