// One line for each call: the set and the call in words, then every field of the answer.
use std::io;
use units::Ticks;

// What the words of a table hold before layers is called: no width and no duration of these tasks.
pub(crate) const UNTOUCHED: u32 = 77;

// A set, and what its lines call it.
#[derive(Clone, Copy)]
pub(crate) struct Named {
    pub(crate) name: &'static str,
    pub(crate) set: &'static [u8],
}

// p and q stay two numbers: the entries take them so, and a `Speed` would be made in each call only to be taken apart here.
impl Named {
    pub(crate) fn judge(self, rt: &impl Print, m: u64, p: u64, q: u64) -> io::Result<()> {
        let Self { name, set } = self;
        let found = entries::judge(set, m, p, q);
        println!(rt;
            "{name}, judge with m = {m} at {p}/{q}: number {}, place {}, x {}, W {}, speed {}/{}",
            found.number, found.place, found.x.0, found.w.0, found.p, found.q
        )
    }

    pub(crate) fn figures(self, rt: &impl Print, task: usize) -> io::Result<()> {
        let Self { name, set } = self;
        let found = entries::figures(set, task);
        println!(rt;
            "{name}, figures of task {task}: number {}, place {}, length {}, volume {}",
            found.number, found.place, found.length.0, found.volume.0
        )
    }

    // The demand of the first task.
    pub(crate) fn demand(self, rt: &impl Print, p: u64, q: u64, x: u64) -> io::Result<()> {
        let Self { name, set } = self;
        let found = entries::demand(set, 0, p, q, Ticks(x));
        println!(rt;
            "{name}, demand at {p}/{q} for x = {x}: number {}, place {}, work {}",
            found.number, found.place, found.work.0
        )
    }

    // The layers of the first task, into a lent table. Every word is shown, those that no pair was written to as well.
    pub(crate) fn layers(
        self,
        rt: &impl Print,
        p: u64,
        q: u64,
        table: &mut [u32],
    ) -> io::Result<()> {
        let Self { name, set } = self;
        let room = table.len();
        let found = entries::layers(set, 0, p, q, table);
        print!(rt;
            "{name}, layers at {p}/{q} into {room} words: number {}, place {}, pairs {}; words",
            found.number, found.place, found.pairs
        )?;
        for word in table.iter() {
            print!(rt; " {word}")?;
        }
        println!(rt; "")
    }
}
