// The parts of a set, as they come.
use input::{Unread, read_part};
use parts::{Upload, advance, begin};
use std::io;

// As much as a pipe hands over at once.
const MOST_PART: usize = 4096;

// Takes every part into a new upload until the input ends, a read fails or the room does not hold what came: then no more can change the answer.
// A proved loop has to end, so the turns are counted, up to a number that no run uses up.
pub fn take_parts<R: io::Read>(source: &mut R, room: &mut [u8]) -> Result<Upload, Unread> {
    let mut part = [0u8; MOST_PART];
    let mut upload = begin();
    for _ in 0..u64::MAX {
        let count = read_part(source, &mut part)?;
        if count == 0 {
            return Ok(upload);
        }
        upload = advance(upload, room, &part[..count]).upload;
        if upload.over != 0 {
            return Ok(upload);
        }
    }
    Err(Unread {
        count: 0,
        reason: None,
    })
}
