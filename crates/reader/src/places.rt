// The places of a set's tasks, in memory of a fixed size: no crate that judges has a heap. It is an array with its count and no ArrayVec, which
// would not say that the places stand in front of zeros, as `read` does.
ghost use Rattle.std.specs.Prelude.{◌≡◌, ◌<◌, ℕ, List, [], ◌∷◌, ◌++◌, length, take};
ghost use Rattle.model.specs.Limits.{most_tasks};
ghost use Rattle.reader.specs.Places.{InFront, filled};

use model::limits::MOST_TASKS;
use std::marker::Model;

// A place is the number of a task record.
#[derive(Clone, Copy)]
pub struct Places {
    count: usize,
    places: [usize; MOST_TASKS],
}

// Clauses see the list of the places, which stand in front of zeros.
impl Model for Places {
    ghost Value = { List ℕ };

    ghost view = { λ p. take p.count p.places };

    ghost invariant = { λ p. InFront p.count p.places };

    ghost inverse = { λ l. record { count = length l; places = filled l } };

    ghost inverse_ok = { λ p h i. record { count = h.counted i; places = h.zeros i } };
}

impl Places {
    pub fn new() -> Self
        ensures { result ≡ [] }
    {
        Places {
            count: 0,
            places: [0; MOST_TASKS],
        }
    }

    pub fn push(&mut self, place: usize)
        requires { length self.old < most_tasks }
        ensures { self.new ≡ self.old ++ place ∷ [] }
    {
        self.places[self.count] = place;
        self.count += 1;
    }

    pub fn list(&self) -> &[usize]
        ensures { result.now ≡ self.now }
    {
        &self.places[..self.count]
    }
}
