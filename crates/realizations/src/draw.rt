// Draws the graph of a task: one vertex, grown step by step into rows, forks and choices.
use crate::members::{below, has, with};
use crate::seed::Seed;

// How deep an arm is nested, and its first vertex; both are 0 outside of all choices.
#[derive(Clone, Copy, PartialEq)]
pub struct Arm {
    pub depth: u64,
    pub first: u64,
}

// Whether a vertex starts or ends a choice, and which does the other.
#[derive(Clone, Copy)]
pub enum Role {
    Plain,
    Start { end: u64 },
    End { start: u64 },
}

#[derive(Clone, Copy)]
pub struct Vertex {
    // The set of its successors.
    pub after: u64,
    pub arm: Arm,
    pub role: Role,
    pub number: u64,
}

// In memory of a fixed size: no crate has a heap.
#[derive(Drop)]
pub struct Drawing {
    pub count: u64,
    vertices: [Vertex; 64],
    // The vertices, by their numbers.
    holders: [u64; 64],
}

// No step begins above this count of vertices: it adds at most four.
const MOST_VERTICES: u64 = 59;

// Arms are nested this deep at most.
const MOST_DEPTH: u64 = 4;

// The arms of a choice.
const ARMS: u64 = 2;

// No index leaves its range: one beyond counts on from the start, and none that is used comes there. `at` and `at_mut` stand in `ways` too: one list
// of 64 for both would put its name before each of some forty uses, and is no plainer.
impl Drawing {
    // One vertex.
    fn new() -> Drawing {
        let vertex = Vertex {
            after: 0,
            arm: Arm { depth: 0, first: 0 },
            role: Role::Plain,
            number: 0,
        };
        Drawing {
            count: 1,
            vertices: [vertex; 64],
            holders: [0; 64],
        }
    }

    pub(crate) fn at(&self, v: u64) -> &Vertex {
        &self.vertices[(v % 64) as usize]
    }

    pub(crate) fn at_mut(&mut self, v: u64) -> &mut Vertex {
        &mut self.vertices[(v % 64) as usize]
    }

    pub(crate) fn holder(&self, number: u64) -> u64 {
        self.holders[(number % 64) as usize]
    }

    pub(crate) fn hold(&mut self, number: u64, v: u64) {
        self.holders[(number % 64) as usize] = v;
        self.at_mut(v).number = number;
    }

    // All successors of some vertices.
    pub(crate) fn after_all(&self, vertices: u64) -> u64 {
        let mut all = 0;
        for v in 0..64 {
            if has(vertices, v) {
                all = all | self.at(v).after;
            }
        }
        all
    }

    // A new vertex takes over what leaves v, in v's arm; v leads to so many new ones behind it, or to it where there are none.
    fn follow(&mut self, v: u64, branches: u64) {
        let n = self.count;
        let behind = n.wrapping_add(1);
        let end = behind.wrapping_add(branches);
        let Vertex { after, arm, .. } = *self.at(v);
        self.at_mut(n).after = after;
        self.at_mut(n).arm = arm;
        self.at_mut(v).after = if branches == 0 {
            with(0, n)
        } else {
            below(end) & !below(behind)
        };
        self.count = end;
    }

    // v is followed by a new vertex, with some new vertices side by side between the two, in v's arm.
    fn fork(&mut self, v: u64, branches: u64) {
        let n = self.count;
        self.follow(v, branches);
        let arm = self.at(v).arm;
        for new in n.wrapping_add(1)..self.count {
            self.at_mut(new).after = with(0, n);
            self.at_mut(new).arm = arm;
        }
    }

    // v becomes the start of a choice, and the next new vertex its end, with a vertex in each arm between the two.
    fn choose(&mut self, v: u64) {
        let n = self.count;
        self.follow(v, ARMS);
        self.at_mut(v).role = Role::Start { end: n };
        self.at_mut(n).role = Role::End { start: v };
        let depth = self.at(v).arm.depth.wrapping_add(1);
        for new in n.wrapping_add(1)..self.count {
            self.at_mut(new).after = with(0, n);
            self.at_mut(new).arm = Arm { depth, first: new };
        }
    }

    // Whether a step may begin at a vertex: not where it starts or ends a choice already, and no choice where it is too deep for that.
    fn may_grow(&self, v: u64, choice: bool) -> bool {
        let free = matches!(self.at(v).role, Role::Plain);
        let room = self.count <= MOST_VERTICES;
        free & room & (!choice | (self.at(v).arm.depth < MOST_DEPTH))
    }

    // One step at some vertex. Takes four numbers.
    fn step(&mut self, seed: Seed, chance: u64) {
        let v = pick(seed, self.count);
        let choice = seed.roll(2, 8) < chance;
        if !self.may_grow(v, choice) {
            return;
        }
        if choice {
            self.choose(v);
        } else {
            self.fork(v, seed.roll(3, 4));
        }
    }
}

// A vertex to grow: any, or one of the last, which nests deeper. Takes two numbers.
fn pick(seed: Seed, n: u64) -> u64 {
    let back = seed.roll(1, 6);
    if (back < 3) & (back < n) {
        return n - back - 1;
    }
    seed.roll(0, n)
}

// Grows one vertex by so many steps, every second of which may make a choice. Takes four numbers a step.
pub(crate) fn grow(seed: Seed, choosy: u64, steps: u64) -> Drawing {
    let mut drawing = Drawing::new();
    let mut next = seed;
    for i in 0..steps {
        drawing.step(next, if i % 2 == 0 { choosy } else { 0 });
        next = next.later(4);
    }
    drawing
}
