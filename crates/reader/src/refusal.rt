// Why a set cannot be read.
ghost use Rattle.std.specs.Prelude.{◌≡◌};
ghost use Rattle.reader.specs.Answer.{number_of, place_of};

// The refusals of document 01 that reading gives. A place is the number of a record.
#[derive(Clone, Copy, PartialEq, Eq)]
pub enum Refusal {
    // 2: the length is no whole number of records.
    Length,
    // 3: this record breaks the table, or is missing at the end.
    Record(usize),
    // 4: the graph of the task at this record breaks a rule.
    Graph(usize),
    // 5: this record begins a 33rd task.
    Tasks(usize),
}

impl Refusal {
    pub fn number(self) -> usize
        ensures { result ≡ number_of self }
    {
        match self {
            Refusal::Length => 2,
            Refusal::Record(_) => 3,
            Refusal::Graph(_) => 4,
            Refusal::Tasks(_) => 5,
        }
    }

    // The record that is refused, 0 where the whole set is.
    pub fn place(self) -> usize
        ensures { result ≡ place_of self }
    {
        match self {
            Refusal::Length => 0,
            Refusal::Record(place) | Refusal::Graph(place) | Refusal::Tasks(place) => place,
        }
    }
}
