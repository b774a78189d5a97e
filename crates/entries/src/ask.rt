// The task that a caller asks for by its number.
ghost use Rattle.std.specs.Prelude.{◌≡◌, IfOk};
ghost use Rattle.model.specs.Records.{reading};
ghost use Rattle.model.specs.Entries.{asked};
ghost use Rattle.entries.specs.Given.{unfound_number, unfound_place, asked_of};
ghost use Rattle.entries.specs.declared.ask.Unfound.TheVariants.{Unread};

use reader::{Refusal, read};
use records::task::ReadableTask;

// Why there is no task to look at.
#[derive(Clone, Copy, PartialEq, Eq)]
pub enum Unfound {
    // The set is refused.
    Unread(Refusal),
    // 6: the set has no task of that number.
    NoTask,
}

impl Unfound {
    pub fn number(self) -> usize
        ensures { result ≡ unfound_number self }
    {
        match self {
            Unfound::Unread(refusal) => refusal.number(),
            Unfound::NoTask => 6,
        }
    }

    pub fn place(self) -> usize
        ensures { result ≡ unfound_place self }
    {
        match self {
            Unfound::Unread(refusal) => refusal.place(),
            Unfound::NoTask => 0,
        }
    }
}

impl From<Refusal> for Unfound {
    ghost from_gives = { λ refusal u. u ≡ Unread refusal };

    fn from(refusal: Refusal) -> Unfound {
        Unfound::Unread(refusal)
    }
}

// Reads the set and looks for a task of it.
pub fn find_task(set: &[u8], task: usize) -> Result<ReadableTask, Unfound>
    ensures found { asked_of result ≡ asked (reading set.now) task }
    ensures same_set { IfOk result (λ found. found.set.now ≡ set.now) }
{
    let found = read(set)?;
    let places = found.list();
    if places.len() <= task {
        return Err(Unfound::NoTask);
    }
    Ok(ReadableTask {
        set,
        place: places[task],
    })
}
