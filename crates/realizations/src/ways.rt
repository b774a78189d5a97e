// The graph of a task as its records give it, and the vertices that are present in each of its realizations.
use crate::bytes::{B, Bytes, C, D, E, KIND_A};
use crate::members::{has, with};

#[derive(Clone, Copy)]
pub struct Vertex {
    // Work units, q to a time unit of its job.
    pub work: u64,
    // The sets of its predecessors and of its successors.
    pub before: u64,
    after: u64,
    // Of a start its end.
    end: Option<u64>,
    // Of a start what is absent where it picks the first arm, and where it picks the second.
    absent: [u64; 2],
}

#[derive(Drop)]
pub struct Graph {
    vertices: [Vertex; 64],
    // The ways to pick an arm at every start.
    pub ways: u64,
}

// No index leaves its range: one beyond counts on from the start, and none that is used comes there. `at` and `at_mut` stand in `draw` too: one list
// of 64 for both would put its name before each of some forty uses, and is no plainer.
impl Graph {
    fn new() -> Graph {
        let vertex = Vertex {
            work: 0,
            before: 0,
            after: 0,
            end: None,
            absent: [0; 2],
        };
        Graph {
            vertices: [vertex; 64],
            ways: 1,
        }
    }

    pub(crate) fn at(&self, v: u64) -> &Vertex {
        &self.vertices[(v % 64) as usize]
    }

    fn at_mut(&mut self, v: u64) -> &mut Vertex {
        &mut self.vertices[(v % 64) as usize]
    }

    // The n vertices behind a task's record. A start is the one whose role is odd.
    fn read_vertices(&mut self, bytes: &Bytes, head: u64, n: u64, q: u64) {
        for v in 0..n {
            let record = head.wrapping_add(v + 1);
            self.at_mut(v).work = bytes.field(record, C).wrapping_mul(q);
            if bytes.field(record, KIND_A) / 256 % 2 == 1 {
                self.at_mut(v).end = Some(bytes.field(record, B));
                self.ways = self.ways.wrapping_mul(2);
            }
        }
    }

    fn read_edges(&mut self, bytes: &Bytes, first: u64, behind: u64) {
        for record in first..behind {
            let from = bytes.field(record, C);
            let to = bytes.field(record, D);
            let before = with(self.at(to).before, from);
            let after = with(self.at(from).after, to);
            self.at_mut(to).before = before;
            self.at_mut(from).after = after;
        }
    }

    // Some vertices and all that can be reached from them, short of an end.
    fn reached(&self, from: u64, end: u64) -> u64 {
        let mut arm = from;
        for v in 0..64 {
            if (self.at(v).before & arm != 0) & (v != end) {
                arm = with(arm, v);
            }
        }
        arm
    }

    // The first arm of a start is that from the lower of its successors, the second that from the higher.
    fn find_arms(&mut self) {
        for v in 0..64 {
            if let Some(end) = self.at(v).end {
                let after = self.at(v).after;
                let higher = after & after.saturating_sub(1);
                let absent = [
                    self.reached(higher, end),
                    self.reached(after & !higher, end),
                ];
                self.at_mut(v).absent = absent;
            }
        }
    }

    // That of the task at a record.
    pub(crate) fn read(bytes: &Bytes, head: u64, q: u64) -> Graph {
        let n = bytes.field(head, B);
        let first = head.wrapping_add(n).wrapping_add(1);
        let behind = first.wrapping_add(bytes.field(head, E));
        let mut graph = Graph::new();
        graph.read_vertices(bytes, head, n, q);
        graph.read_edges(bytes, first, behind);
        graph.find_arms();
        graph
    }

    // What is left of the present vertices once a start has picked an arm, by its place from 0; nothing where a start that is absent
    // picks another than the first.
    fn picked(&self, start: u64, present: u64, pick: u64) -> u64 {
        if has(present, start) {
            return present & !self.at(start).absent[(pick % 2) as usize];
        }
        if pick == 0 { present } else { 0 }
    }

    // Of some vertices those that are present where start after start picks its arm by a digit of the way, and none where the way is
    // passed over, since another has the same arms. A choice that lies in an arm starts above the start of that arm.
    pub(crate) fn present(&self, vertices: u64, way: u64) -> u64 {
        let mut present = vertices;
        let mut picks = way;
        for v in 0..64 {
            if self.at(v).end.is_some() {
                present = self.picked(v, present, picks % 2);
                picks = picks / 2;
            }
        }
        present
    }

    // The arms of some starts.
    fn arms(&self, starts: u64) -> u64 {
        let mut all = 0;
        for v in 0..64 {
            if has(starts, v) {
                let [first, second] = self.at(v).absent;
                all = all | first | second;
            }
        }
        all
    }

    // How deep the choices are nested: the arms of all starts, of the starts within these, and so on until there are none.
    pub(crate) fn nesting(&self) -> u64 {
        let mut within = !0;
        for depth in 0..64 {
            within = self.arms(within);
            if within == 0 {
                return depth;
            }
        }
        64
    }
}
