// A task of a set, by the number of its task record.
ghost use Rattle.std.specs.Prelude.{◌≡◌, ◌+◌, ◌<◌};
ghost use Rattle.model.specs.Records.{fields_at};
ghost use Rattle.table.specs.Decoded.{fields_of};
ghost use Rattle.records.specs.Rows.{Tabled, ReadableAt};

use crate::record_at;
use table::Record;

// A task whose records are all there and keep the table.
#[derive(Clone, Copy)]
pub struct TabledTask<'a> {
    pub set: &'a [u8],
    pub place: usize,
    ghost tabled: { Tabled set.now place },
}

impl TabledTask<'_> {
    // Its task record.
    pub fn head(self) -> Record
        ensures { fields_of result ≡ fields_at self.entry.set.now self.entry.place }
    {
        record_at(self.set, self.place)
    }

    // The record of vertex v.
    pub fn vertex(self, v: usize) -> Record
        requires { v < (fields_at self.set.now self.place).b }
        ensures { fields_of result ≡ fields_at self.entry.set.now (self.entry.place + 1 + v) }
    {
        record_at(self.set, self.place + 1 + v)
    }
}

// A task that can be read: its graph keeps the rules too.
#[derive(Clone, Copy)]
pub struct ReadableTask<'a> {
    pub set: &'a [u8],
    pub place: usize,
    ghost readable: { ReadableAt set.now place },
}
