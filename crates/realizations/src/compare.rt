// Compares what the four entries say of a set with what they owe.
use crate::expect::{Reply, answer, demand_owed, judge, ticks};
use crate::layers::Layers;
use crate::speed::Speed;
use crate::task::{Task, Tasks};
use std::io;
use std::io::Stdout;
use units::Ticks;

// What stands in a lent word before the call.
const MARK: u32 = 1_000_000;

// So many processors a set is judged on.
pub(crate) const RACKS: [u64; 5] = [1, 2, 3, 4, 16];

// Whether an entry said what it owed; where not, both are shown.
fn agree(out: Stdout, entry: &str, said: Reply, owed: Reply) -> io::Result<bool> {
    if said == owed {
        return Ok(true);
    }
    println!(out; "{entry} {said}")?;
    println!(out; "owed {owed}")?;
    Ok(false)
}

// A word of a lent table owes a width or a count of ticks, and behind so many pairs what stood there.
fn word_agrees(out: Stdout, word: u32, i: usize, layers: &Layers, count: u64) -> io::Result<bool> {
    let asked = i as u64;
    let owed = if asked / 2 < count {
        layers.word(i)
    } else {
        u64::from(MARK)
    };
    let said = answer(asked, u64::from(word), 0, 0, 0);
    agree(out, "word", said, answer(asked, owed, 0, 0, 0))
}

fn words_agree(out: Stdout, table: &[u32], layers: &Layers, count: u64) -> io::Result<bool> {
    for (i, word) in table.iter().enumerate() {
        if !word_agrees(out, *word, i, layers, count)? {
            return Ok(false);
        }
    }
    Ok(true)
}

// What layers owes beside a table of so many words: number and count of pairs, written where they fit.
fn owed_layers(task: &Task, pairs: u64, len: u64) -> Reply {
    if len / 2 < pairs {
        return answer(task.index, 10, 0, 0, len);
    }
    answer(task.index, 0, 0, pairs, len)
}

// What is asked: of a set, of whose tasks so much is known, at a speed.
#[derive(Clone, Copy)]
pub struct Asked<'a> {
    pub out: Stdout,
    pub set: &'a [u8],
    pub tasks: &'a Tasks,
    pub speed: Speed,
}

impl<'a> Asked<'a> {
    fn figures_agree(&self, task: &Task) -> io::Result<bool> {
        let said = entries::figures(self.set, task.index as usize);
        let heard = answer(
            task.index,
            said.number as u64,
            said.place as u64,
            said.length.0,
            said.volume.0,
        );
        let length = task.length.checked_div(self.speed.q).unwrap_or(0);
        let volume = task.rdem(0).checked_div(self.speed.q).unwrap_or(0);
        let owed = answer(task.index, 0, 0, length, volume);
        agree(self.out, "figures", heard, owed)
    }

    // Layers into a table of so many words.
    fn layers_fit(&self, task: &Task, layers: &Layers, len: u64) -> io::Result<bool> {
        let mut table = [MARK; 1030];
        let lent = &mut table[..(len % 1031) as usize];
        let Speed { p, q } = self.speed;
        let said = entries::layers(self.set, task.index as usize, p, q, lent);
        let heard = answer(
            task.index,
            said.number as u64,
            said.place as u64,
            said.pairs as u64,
            len,
        );
        let owed = owed_layers(task, layers.count, len);
        let placed = agree(self.out, "layers", heard, owed)?;
        Ok(placed & words_agree(self.out, &table, layers, owed.first)?)
    }

    // Layers into a table that they fill, or that is a word or two longer, by the task; and into one that is a word too short, or has
    // none.
    fn layers_agree(&self, task: &Task) -> io::Result<bool> {
        let layers = Layers::of(task);
        let len = layers.count.wrapping_mul(2);
        let fits = self.layers_fit(task, &layers, len.wrapping_add(task.index))?;
        Ok(fits & self.layers_fit(task, &layers, len.saturating_sub(1))?)
    }

    fn demand_agrees(&self, task: &Task, x: u64) -> io::Result<bool> {
        let Speed { p, q } = self.speed;
        let said = entries::demand(self.set, task.index as usize, p, q, Ticks(x));
        let heard = answer(
            task.index,
            said.number as u64,
            said.place as u64,
            said.work.0,
            x,
        );
        agree(self.out, "demand", heard, demand_owed(task, x))
    }

    // The demand of a task over two periods.
    fn demands_agree(&self, task: &Task) -> io::Result<bool> {
        for x in 0..ticks(task) {
            if !self.demand_agrees(task, x)? {
                return Ok(false);
            }
        }
        Ok(true)
    }

    // Layers, figures and demand of a task, if there is one.
    fn task_agrees(&self, task: &Task) -> io::Result<bool> {
        if task.period == 0 {
            return Ok(true);
        }
        let layered = self.layers_agree(task)?;
        let measured = self.figures_agree(task)?;
        Ok(layered & measured & self.demands_agree(task)?)
    }

    fn verdict_agrees(&self, m: u64) -> io::Result<bool> {
        let said = entries::judge(self.set, m, self.speed.p, self.speed.q);
        let heard = answer(m, said.number as u64, said.place as u64, said.x.0, said.w.0);
        let owed = judge(self.tasks, m, self.speed).reply(m);
        agree(self.out, "judge", heard, owed)
    }

    // Whether the entries say of a set at a speed what they owe: of each task, and on several numbers of processors.
    pub(crate) fn agrees(&self) -> io::Result<bool> {
        let mut all = true;
        for task in self.tasks {
            all = self.task_agrees(task)? & all;
        }
        for m in RACKS {
            all = self.verdict_agrees(m)? & all;
        }
        Ok(all)
    }
}
