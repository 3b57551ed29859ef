// The piece at a place of the text.
ghost use Rattle.query_pieces.specs.Steps.{StepAt};

use crate::{Place, Step, spots};
use query_signs::{kinds, reading};

// The piece at a place, and the place behind it; where there is none, whether the text ends there as it may.
pub fn next_piece(s: &[u8], place: Place) -> Result<Step, bool>
    ensures { StepAt s.now place result }
{
    let at = place.at;
    let close = place.close;
    let spot = place.spot;
    if s.len() <= kinds::blanks_end(s, at) {
        return Err(spots::ends_well(spot));
    }
    let Some((t, q)) = reading::next_sign(s, at, spots::in_chain(spot), close) else {
        return Err(false);
    };
    spots::piece_by(s, spot, t, q)
}
