// The form of a request's line.
ghost use Rattle.model.specs.Choice.{and_then};
ghost use Rattle.model.specs.Items.{line_items};
ghost use Rattle.model.specs.Request.{request_line};
ghost use Rattle.request.specs.Forms.{FormRead};

use crate::claims;
use item_forms::{LINE_DEPTH, places};
use model::Part;
use text::parts;

// (request CATEGORY (id ACTOR NODE)...): where the category's name stands; the identities follow it.
pub fn request_form(s: &[u8]) -> Option<Part>
    ensures { FormRead s.now (and_then (line_items s.now) request_line) result }
{
    let i = item_forms::open_form(s, 0)?;
    let word = places::next_word(s, i, true, LINE_DEPTH)?;
    if !compare::same_bytes(parts::part_of(s, word), b"request") {
        return None;
    }
    let name = places::next_name(s, word.start + word.length, LINE_DEPTH)?;
    if claims::are_claims(s, name.start + name.length) {
        return Some(name);
    }
    None
}
