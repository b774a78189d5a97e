// One task of a set.
ghost use Rattle.std.specs.Prelude.{◌<◌};
ghost use Rattle.model.specs.Records.{records};
ghost use Rattle.reader.specs.Answer.{Heard};

use crate::refusal::Refusal;
use records::record_at;
use records::rows::first_broken;
use records::task::TabledTask;
use shape::rules::keeps_rules;
use table::task_record;

// Reads the task at a place: first its own record, then those behind it, then its graph. Gives the record at which the next would begin.
pub fn read_task(set: &[u8], place: usize) -> Result<usize, Refusal>
    requires { place < records set.now }
    ensures { Heard set.now place result }
{
    let task = record_at(set, place);
    if !task_record(task) {
        return Err(Refusal::Record(place));
    }
    let behind = task.b + task.e;
    let broken = first_broken(set, place);
    if broken < behind {
        return Err(Refusal::Record(place + 1 + broken));
    }
    let tabled = TabledTask { set, place };
    if !keeps_rules(tabled) {
        return Err(Refusal::Graph(place));
    }
    Ok(place + 1 + behind)
}
