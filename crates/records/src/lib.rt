// The records of a set: their fields, and which of a task's records breaks the table first. Bytes are touched here and nowhere else.
#![tactic(auto)]

ghost use Rattle.std.specs.Prelude.{◌≡◌, ◌+◌, ◌*◌, ◌^◌, ◌<◌, ◌≤◌, length};
ghost use Rattle.model.specs.Records.{records, little, fields_at};
ghost use Rattle.table.specs.Decoded.{fields_of};

use table::Record;

pub mod rows;
pub mod task;

// The number in four bytes, the lowest first.
fn four(set: &[u8], at: usize) -> usize
    requires { at + 4 ≤ length set.now }
    ensures { (result ≡ little set.now at 4) × (result < 2 ^ 32) }
{
    u32::from_le_bytes([set[at], set[at + 1], set[at + 2], set[at + 3]]) as usize
}

// Record i of a set.
pub fn record_at(set: &[u8], i: usize) -> Record
    requires { i < records set.now }
    ensures { fields_of result ≡ fields_at set.now i }
{
    let at = 16 * i;
    Record {
        kind: usize::from(set[at]),
        a: usize::from(set[at + 1]),
        b: usize::from(u16::from_le_bytes([set[at + 2], set[at + 3]])),
        c: four(set, at + 4),
        d: four(set, at + 8),
        e: four(set, at + 12),
    }
}
