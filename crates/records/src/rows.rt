// The records behind a task record, held against the record table.
ghost use Rattle.std.specs.Prelude.{◌≡◌, true, not, ℕ, ◌+◌, ◌≤◌, ◌<◌, min};
ghost use Rattle.model.specs.Limits.{most_vertices};
ghost use Rattle.model.specs.Records.{records, fields_at, keeps_table, behind};
ghost use Rattle.model.specs.Range.{least};
ghost use Rattle.records.specs.Rows.{TaskAt, FirstBroken, edge_key};

use crate::{four, record_at};
use model::limits::MOST_VERTICES;
use table::vertex_record;

// The first of the vertex records before `end` that breaks the table, `end` where there is none.
fn first_vertex(set: &[u8], place: usize, n: usize, end: usize) -> usize
    requires { (n ≡ (fields_at set.now place).b) × (end ≤ n) × (place + 1 + end ≤ records set.now) }
    ensures { FirstBroken set.now place end result }
{
    for v in 0..end {
        if !vertex_record(n, v, record_at(set, place + 1 + v)) {
            return v;
        }
    }
    end
}

// Where the edge in record i stands in the order of (from, to): from · 64 + to; 0 where the record is no edge of a task with n vertices.
// The fields that must be 0 are tested together with those beside them: kind, A and B as one number, D and E as one number.
fn edge_key(set: &[u8], i: usize, n: usize) -> usize
    requires { (i < records set.now) × (n ≤ most_vertices) }
    ensures { result ≡ edge_key n (fields_at set.now i) }
{
    let at = 16 * i;
    let head = four(set, at);
    let from = four(set, at + 4);
    let to = four(set, at + 8) + 4_294_967_296 * four(set, at + 12);
    if (head == 3) & (from < to) & (to < n) {
        MOST_VERTICES * from + to
    } else {
        0
    }
}

// The first of the edge records before `end` that breaks the table, `end` where there is none: an edge stands above the last.
fn first_edge(set: &[u8], place: usize, n: usize, end: usize) -> usize
    requires n_value { (n ≡ (fields_at set.now place).b) × (n ≤ most_vertices) × (n ≤ end) × (place + 1 + end ≤ records set.now) }
    requires by_index { (j : ℕ) → j < n → keeps_table set.now place j ≡ true }
    ensures { FirstBroken set.now place end result }
{
    let mut last = 0;
    for j in n..end {
        let key = edge_key(set, place + 1 + j, n);
        if key <= last {
            return j;
        }
        last = key;
    }
    end
}

// The first record behind a task record that is missing or breaks the table, counted from 0; their number where there is none.
pub fn first_broken(set: &[u8], place: usize) -> usize
    requires { TaskAt set.now place }
    ensures { result ≡ least (behind set.now place) (λ j. not (keeps_table set.now place j)) }
{
    let task = record_at(set, place);
    let n = task.b;
    let there = (n + task.e).min(set.len() / 16 - place - 1);
    let v = first_vertex(set, place, n, n.min(there));
    if v < n {
        return v;
    }
    first_edge(set, place, n, there)
}
