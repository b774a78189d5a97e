// Reading a set: from any bytes to the places of its tasks, or to the first refusal.
#![tactic(auto)]

ghost use Rattle.std.specs.Prelude.{◌≡◌, cond, ◌<◌, eqb};
ghost use Rattle.model.specs.Records.{records, fields_at, refused, reading};
ghost use Rattle.reader.specs.Answer.{refusal_is, reading_is};

use model::limits::MOST_TASKS;
pub use places::Places;
use records::record_at;
pub use refusal::Refusal;
use task::read_task;

mod places;
mod refusal;
mod task;

// The refusal where a 33rd task is due: 5 if the record begins one, else 3.
fn overfull(set: &[u8], place: usize) -> Refusal
    requires { place < records set.now }
    ensures { refusal_is result ≡ cond (eqb (fields_at set.now place).kind 1) (refused 5 place) (refused 3 place) }
{
    if record_at(set, place).kind == 1 {
        Refusal::Tasks(place)
    } else {
        Refusal::Record(place)
    }
}

// Reads a set of any bytes. Nothing behind the first refusal is looked at.
pub fn read(set: &[u8]) -> Result<Places, Refusal>
    ensures { reading_is result ≡ reading set.now }
{
    if set.len() % 16 != 0 {
        return Err(Refusal::Length);
    }
    let end = set.len() / 16;
    let mut found = Places::new();
    let mut place = 0;
    while place < end {
        if found.list().len() == MOST_TASKS {
            return Err(overfull(set, place));
        }
        let next = read_task(set, place)?;
        found.push(place);
        place = next;
    }
    Ok(found)
}
