// Task Y, whose arms' curves cross inside a tick.
use crate::named::Y;
use crate::show::UNTOUCHED;
use std::io;

// The crossing at 1.5 gives the second tick a width of its own. Where ticks are half as long it falls between two of them.
pub(crate) fn crossing(rt: &impl Print) -> io::Result<()> {
    Y.figures(rt, 0)?;
    Y.layers(rt, 1, 1, &mut [UNTOUCHED; 6])?;
    Y.layers(rt, 1, 2, &mut [UNTOUCHED; 6])
}

// Six words, above, take the three pairs. Five do not, and of seven and eight the last are left.
pub(crate) fn room(rt: &impl Print) -> io::Result<()> {
    Y.layers(rt, 1, 1, &mut [UNTOUCHED; 5])?;
    Y.layers(rt, 1, 1, &mut [UNTOUCHED; 7])?;
    Y.layers(rt, 1, 1, &mut [UNTOUCHED; 8])
}
