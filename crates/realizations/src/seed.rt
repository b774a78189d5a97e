// Numbers that look random and are the same in every run.

// What the next numbers are made from.
#[derive(Clone, Copy)]
pub struct Seed(pub u64);

impl Seed {
    // The seed after so many more numbers.
    pub(crate) fn later(self, numbers: u64) -> Seed {
        let mut next = self.0;
        for _ in 0..numbers {
            next = next % 2_147_483_647 * 48_271 % 2_147_483_647;
        }
        Seed(next)
    }

    // The number behind so many others, below a limit; 0 where that is 0.
    pub(crate) fn roll(self, others: u64, limit: u64) -> u64 {
        let Seed(next) = self.later(others).later(1);
        (next / 8).checked_rem(limit).unwrap_or(0)
    }
}
