// Sets that arrive in parts: an upload is begun, takes parts into a lent room, and is closed with judge's answer for the joined bytes. Here it is
// handed on by value; `rack` has the thin functions that are lent one, which only call these.
#![tactic(auto)]

ghost use Rattle.std.specs.Prelude.{◌≡◌, ◌≤◌, ◌-◌, length};
ghost use Rattle.std.proofs.Math.Seq.{paste};
ghost use Rattle.entries.specs.Given.{judge_gives};
ghost use Rattle.parts.specs.Upload.{new_upload, fitting, part_gives, parted, room_exceeded, with_closing, ClosingJudged};

use entries::{SetVerdict, judge, judge_takes, refuse};

// What is kept between parts. It stands in memory that C lends, so every field is a word, flags too: whatever stands there is an upload.
#[repr(C)]
#[derive(Clone, Copy)]
pub struct Upload {
    // How many bytes stand at the room's front.
    pub held: usize,
    // Not 0 once bytes did not fit. It says so in place of a count of all bytes, which could wrap.
    pub over: u64,
    // Not 0 once closed.
    pub closed: u64,
}

// What a part leaves, and its number. A number and no Result: the clause of `advance` reads it, and `rack` hands it to C.
#[derive(Clone, Copy)]
pub struct Advanced {
    pub upload: Upload,
    pub number: u64,
}

// What a closing leaves, and its answer.
#[derive(Clone, Copy)]
pub struct Closing {
    pub upload: Upload,
    pub verdict: SetVerdict,
}

pub fn begin() -> Upload
    ensures { result ≡ new_upload }
{
    Upload {
        held: 0,
        over: 0,
        closed: 0,
    }
}

// How many of `more` bytes fit behind those held, in a room of n bytes.
fn fitting(n: usize, held: usize, more: usize) -> usize
    ensures { result ≡ fitting n held more }
{
    more.min(n.saturating_sub(held))
}

// Writes the first `count` bytes of a part into the room, from `at` on. A room that ends before `at` has no such place, and then none is due.
fn write_part(room: &mut [u8], at: usize, part: &[u8], count: usize)
    requires { (count ≤ length room.old - at) × (count ≤ length part.now) }
    ensures { room.new ≡ paste room.old at part.now count }
{
    if count == 0 {
        return;
    }
    room[at..at + count].copy_from_slice(&part[..count]);
}

// Takes a part: what fits of it goes behind the bytes held.
#[tactic(auto, unfolding(crate::specs::Upload::parted))]
pub fn advance(upload: Upload, room: &mut [u8], part: &[u8]) -> Advanced
    ensures { part_gives result.number result.upload room.new ≡ parted upload room.old part.now }
{
    if upload.closed != 0 {
        return Advanced { upload, number: 12 };
    }
    let held = upload.held;
    let count = fitting(room.len(), held, part.len());
    write_part(room, held, part, count);
    let over = if count < part.len() { 1 } else { upload.over };
    Advanced {
        upload: Upload {
            held: held + count,
            over,
            ..upload
        },
        number: 0,
    }
}

// Whether the bytes handed in exceed a room of n bytes.
fn room_exceeded(upload: Upload, n: usize) -> bool
    ensures { result ≡ room_exceeded upload n }
{
    upload.over != 0 || n < upload.held
}

// The answer of a closing: 12, then 1 and 11, then judge's for what stands at the room's front. m, p and q come one by one, as C hands them in.
fn closing_verdict(upload: Upload, room: &[u8], m: u64, p: u64, q: u64) -> SetVerdict
    ensures { ClosingJudged upload room.now m p q (judge_gives result) }
{
    if upload.closed != 0 {
        return refuse(12, 0);
    }
    if room_exceeded(upload, room.len()) {
        if judge_takes(m, p, q) {
            return refuse(11, 0);
        }
        return refuse(1, 0);
    }
    let held = upload.held;
    judge(&room[..held], m, p, q)
}

// Closes an upload, whatever the answer.
#[tactic(auto, unfolding(crate::specs::Upload::with_closing))]
pub fn close(upload: Upload, room: &[u8], m: u64, p: u64, q: u64) -> Closing
    ensures { (result.upload ≡ with_closing upload) × ClosingJudged upload room.now m p q (judge_gives result.verdict) }
{
    let verdict = closing_verdict(upload, room, m, p, q);
    let closed = if upload.closed == 0 { 1 } else { upload.closed };
    Closing {
        upload: Upload { closed, ..upload },
        verdict,
    }
}
