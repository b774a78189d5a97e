// The record table: one record, taken apart, and what each kind of record may hold. A test is one comparison, so all are made: `&` and
// not `&&`.
#![tactic(auto)]

ghost use Rattle.std.specs.Prelude.{◌≡◌};
ghost use Rattle.model.specs.Records.{task_record, role_and_mate, vertex_record};
ghost use Rattle.table.specs.Decoded.{fields_of};

use model::limits::{LONGEST_JOB, LONGEST_PERIOD, MOST_EDGES, MOST_MILLS, MOST_VERTICES};

// One record, taken apart. Its kind is a number and no enum: the record table says of every number whether it may stand there (`fields_of`).
#[derive(Clone, Copy)]
pub struct Record {
    pub kind: usize,
    pub a: usize,
    pub b: usize,
    pub c: usize,
    pub d: usize,
    pub e: usize,
}

// A task record: mill, vertices, deadline, period, edges.
pub fn task_record(r: Record) -> bool
    ensures { result ≡ task_record (fields_of r) }
{
    (r.kind == 1)
        & (1 <= r.a)
        & (r.a <= MOST_MILLS)
        & (1 <= r.b)
        & (r.b <= MOST_VERTICES)
        & (1 <= r.c)
        & (r.c <= r.d)
        & (1 <= r.d)
        & (r.d <= LONGEST_PERIOD)
        & (r.e <= MOST_EDGES)
}

// A role and the mate that goes with it, at vertex v of n. The role is a number of the record, as its kind is.
fn role_and_mate(n: usize, v: usize, role: usize, mate: usize) -> bool
    ensures { result ≡ role_and_mate n v role mate }
{
    (role == 0) & (mate == 0) | (role == 1) & (v < mate) & (mate < n) | (role == 2) & (mate < v)
}

// The record of vertex v of n.
pub fn vertex_record(n: usize, v: usize, r: Record) -> bool
    ensures { result ≡ vertex_record n v (fields_of r) }
{
    (r.kind == 2) & role_and_mate(n, v, r.a, r.b) & (r.c <= LONGEST_JOB) & (r.d == 0) & (r.e == 0)
}
