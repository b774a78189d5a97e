// Sets made record by record.
use arrayvec::ArrayVec;

// What a vertex is: plain, or one end of a choice, with the number of the other end.
#[derive(Clone, Copy)]
pub(crate) enum Vertex {
    Plain,
    Start(usize),
    End(usize),
}

// From and to.
pub(crate) type Edge = (usize, usize);

// Record, byte of the record, new value.
pub(crate) type Change = (u8, u8, u8);

// The bytes of a set, with room for the largest task.
#[derive(Drop)]
pub(crate) struct Set {
    bytes: ArrayVec<u8, 5200>,
}

impl Set {
    pub(crate) fn empty() -> Self {
        Self {
            bytes: ArrayVec::new(),
        }
    }

    pub(crate) fn bytes(&self) -> &[u8] {
        &self.bytes
    }

    // The set with more bytes, or as it is where the room is full.
    pub(crate) fn with_bytes(mut self, bytes: &[u8]) -> Self {
        let _ = self.bytes.try_extend_from_slice(bytes);
        self
    }

    // The set with one more field of four bytes.
    fn with_word(self, word: usize) -> Self {
        self.with_bytes(&word.to_le_bytes()[..4])
    }

    // The set with one more record.
    pub(crate) fn with_record(self, kind: u8, a: u8, b: usize, words: [usize; 3]) -> Self {
        let mut set = self
            .with_bytes(&[kind, a])
            .with_bytes(&b.to_le_bytes()[..2]);
        for word in words {
            set = set.with_word(word);
        }
        set
    }

    // The set with the record of one more task, of mill 7, with deadline and period 9.
    pub(crate) fn with_task_record(self, vertices: usize, edges: usize) -> Self {
        self.with_record(1, 7, vertices, [9, 9, edges])
    }

    // The set with one more vertex, of time 1.
    fn with_vertex(self, vertex: Vertex) -> Self {
        let (role, mate) = match vertex {
            Vertex::Plain => (0, 0),
            Vertex::Start(end) => (1, end),
            Vertex::End(start) => (2, start),
        };
        self.with_record(2, role, mate, [1, 0, 0])
    }

    // The set with one more edge.
    fn with_edge(self, (from, to): Edge) -> Self {
        self.with_record(3, 0, 0, [from, to, 0])
    }

    // The set with one more task.
    pub(crate) fn with_task(self, vertices: &[Vertex], edges: &[Edge]) -> Self {
        let mut set = self.with_task_record(vertices.len(), edges.len());
        for vertex in vertices {
            set = set.with_vertex(*vertex);
        }
        for edge in edges {
            set = set.with_edge(*edge);
        }
        set
    }

    // The set with other bytes in its records.
    pub(crate) fn changed(mut self, changes: &[Change]) -> Self {
        for (record, byte, value) in changes {
            let at = 16 * usize::from(*record) + usize::from(*byte);
            if let Some(old) = self.bytes.get_mut(at) {
                *old = *value;
            }
        }
        self
    }

    // The first bytes of the set.
    pub(crate) fn cut(mut self, len: usize) -> Self {
        self.bytes.truncate(len);
        self
    }
}

// A choice with two arms of one vertex each: the task record 0, the vertex records 1 to 4, the edge records 5 to 8.
pub(crate) fn choice() -> Set {
    Set::empty().with_task(
        &[
            Vertex::Start(3),
            Vertex::Plain,
            Vertex::Plain,
            Vertex::End(0),
        ],
        &[(0, 1), (0, 2), (1, 3), (2, 3)],
    )
}

// As many tasks of one job as asked, two records each.
pub(crate) fn jobs(count: usize) -> Set {
    let mut set = Set::empty();
    for _ in 0..count {
        set = set.with_task(&[Vertex::Plain], &[]);
    }
    set
}

// A row of 64 plain vertices, each joined to the next ones: `reach` of them, and one more from the first `more` vertices.
pub(crate) fn row(edges: usize, reach: u8, more: u8) -> Set {
    let mut set = Set::empty().with_task_record(64, edges);
    for _ in 0..64 {
        set = set.with_vertex(Vertex::Plain);
    }
    for from in 0..63 {
        let last = from + usize::from(reach) + usize::from(from < usize::from(more));
        for to in from + 1..=last.min(63) {
            set = set.with_edge((from, to));
        }
    }
    set
}
