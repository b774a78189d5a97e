// The line for an upload that is closed.
ghost use Rattle.line.specs.Text.{text};
ghost use Rattle.rackparts.specs.Printed.{ClosingPrinted};

use line::Line;
use parts::{Upload, close};
use reply::{named_speed, verdict_line};

// Closes the upload at m, p and q, the bytes of a call as they are read, and shows the answer.
pub fn closing_line(upload: Upload, room: &[u8], m: u64, p: u64, q: u64) -> Line
    ensures { ClosingPrinted upload room.now m p q (text result) }
{
    let speed = named_speed(m, p, q);
    let closed = close(upload, room, m, speed.p, speed.q);
    verdict_line(closed.verdict)
}
