// A speed p/q.
use crate::seed::Seed;

#[derive(Clone, Copy)]
pub struct Speed {
    pub p: u64,
    pub q: u64,
}

impl Speed {
    // A q, small ones mostly, and the more records, the smaller; and a p up to q, mostly above its half. Takes four numbers.
    pub(crate) fn draw(seed: Seed, records: u64) -> Speed {
        let most = 90 / (records % 1024 + 1) % 31;
        let limit = seed.roll(0, most + 1).wrapping_add(1);
        let q = seed.roll(1, limit).wrapping_add(1);
        let slow = seed.roll(2, 4) == 0;
        let slower = seed.roll(3, if slow { q } else { q / 2 + 1 });
        Speed {
            p: q.saturating_sub(slower).max(1),
            q,
        }
    }

    // What m processors promise for x ticks: (m·q - (m-1)·p)·x. A tick overruns where p·W(x) is more.
    pub(crate) fn promise(self, m: u64, x: u64) -> u64 {
        let all = m.wrapping_mul(self.q).wrapping_add(self.p);
        all.saturating_sub(m.wrapping_mul(self.p)).wrapping_mul(x)
    }
}
