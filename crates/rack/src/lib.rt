// The rack test as a library for C and languages that call C: the entries under C's names. An answer is a struct by value, so that a
// caller lends nothing for it, and one that names fields is still right when the answer gains some. An upload is lent, and advanced where it
// stands: the functions for it are thin, and `parts` does by value what they do.
#![tactic(auto)]

ghost use Rattle.std.specs.Prelude.{◌≡◌};
ghost use Rattle.model.specs.Entries.{Judged, figures, demanded, layered};
ghost use Rattle.answers.specs.Given.{figures_give, demand_gives, layers_give};
ghost use Rattle.entries.specs.Given.{judge_gives};
ghost use Rattle.parts.specs.Upload.{new_upload, part_gives, parted, with_closing, ClosingJudged};

use answers::{TaskDemand, TaskFigures, TaskLayers};
use entries::{SetVerdict, demand, figures, judge, layers};
use parts::{Upload, advance, begin, close};
use units::Ticks;

#[unsafe(no_mangle)]
pub extern "C" fn rack_judge(set: &[u8], m: u64, p: u64, q: u64) -> SetVerdict
    ensures { Judged set.now m p q (judge_gives result) }
{
    judge(set, m, p, q)
}

#[unsafe(no_mangle)]
pub extern "C" fn rack_figures(set: &[u8], task: usize) -> TaskFigures
    ensures { figures_give result ≡ figures set.now task }
{
    figures(set, task)
}

#[unsafe(no_mangle)]
pub extern "C" fn rack_demand(set: &[u8], task: usize, p: u64, q: u64, x: u64) -> TaskDemand
    ensures { demand_gives result ≡ demanded set.now task p q x }
{
    demand(set, task, p, q, Ticks(x))
}

#[unsafe(no_mangle)]
pub extern "C" fn rack_layers(
    set: &[u8],
    task: usize,
    p: u64,
    q: u64,
    table: &mut [u32],
) -> TaskLayers
    ensures { layers_give result table.new ≡ layered set.now task p q table.old }
{
    layers(set, task, p, q, table)
}

#[unsafe(no_mangle)]
pub extern "C" fn rack_upload_begin() -> Upload
    ensures { result ≡ new_upload }
{
    begin()
}

#[unsafe(no_mangle)]
pub extern "C" fn rack_upload_part(upload: &mut Upload, room: &mut [u8], part: &[u8]) -> u64
    ensures { part_gives result upload.new room.new ≡ parted upload.old room.old part.now }
{
    let advanced = advance(*upload, room, part);
    *upload = advanced.upload;
    advanced.number
}

#[unsafe(no_mangle)]
pub extern "C" fn rack_upload_close(
    upload: &mut Upload,
    room: &[u8],
    m: u64,
    p: u64,
    q: u64,
) -> SetVerdict
    ensures { (upload.new ≡ with_closing upload.old) × ClosingJudged upload.old room.now m p q (judge_gives result) }
{
    let closed = close(*upload, room, m, p, q);
    *upload = closed.upload;
    closed.verdict
}
