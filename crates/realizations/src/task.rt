// What is known of a task of a set, in ticks and work units of the call. All is 0 where there is no task, but for index and record,
// which it has all the same: so three stand in an array, and none is an Option.
use crate::bytes::{Bytes, C, D};

#[derive(Drop)]
pub struct Task {
    // From 0, in the set.
    pub index: u64,
    // Its record.
    pub head: u64,
    // The largest work that remains at each tick.
    work: [u64; 512],
    // q·length, p·deadline and p·period.
    pub length: u64,
    pub deadline: u64,
    pub period: u64,
    pub realizations: u64,
    // How deep its choices are nested.
    pub nesting: u64,
}

pub type Tasks = [Task; 3];

impl Task {
    pub(crate) fn new(index: u64) -> Task {
        Task {
            index,
            head: 0,
            work: [0; 512],
            length: 0,
            deadline: 0,
            period: 0,
            realizations: 0,
            nesting: 0,
        }
    }

    // The largest remaining work at a tick, which is q·volume at the first.
    pub(crate) fn rdem(&self, x: u64) -> u64 {
        if x < 512 { self.work[x as usize] } else { 0 }
    }

    // So much work remains at a tick, and what remains falls in it.
    pub(crate) fn raise(&mut self, x: u64, work: u64) {
        let i = (x % 512) as usize;
        self.work[i] = self.work[i].max(work);
        self.length = self.length.max(x.wrapping_add(1));
    }

    // Deadline and period as the record has them.
    pub(crate) fn read_times(&mut self, bytes: &Bytes, p: u64) {
        self.deadline = bytes.field(self.head, C).wrapping_mul(p);
        self.period = bytes.field(self.head, D).wrapping_mul(p);
    }
}
