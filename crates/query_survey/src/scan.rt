// Names looked for among the pieces of a text.
ghost use Rattle.std.specs.Prelude.{◌≡◌, take};
ghost use Rattle.model.specs.Bytes.{Bytes, same};
ghost use Rattle.model.specs.Names.{mem};
ghost use Rattle.model.specs.Answers.{name_at};
ghost use Rattle.text.specs.Parts.{HasPart};
ghost use Rattle.query_pieces.specs.Steps.{piece_of, PieceInside};
ghost use Rattle.query_survey.specs.Names.{name_in, names_in, as_list, OfInside, found_at, text_start};

use crate::Which;
use model::Part;
use query_pieces::{Piece, Place, Spot, reading};
use text::parts;

// The place at which a text begins.
pub fn text_start() -> Place
    ensures { result ≡ text_start }
{
    Place {
        at: 0,
        close: false,
        spot: Spot::AtStart,
    }
}

// The name of a kind in a piece.
pub fn name_of(which: Which, p: Piece) -> Option<Part>
    ensures reads { (s : Bytes) → as_list s result ≡ name_in which (piece_of s p) }
    ensures inside { (s : Bytes) → PieceInside s p → OfInside s result }
{
    match (which, p) {
        (Which::Vertex, Piece::Start(v)) => Some(v),
        (Which::Vertex, Piece::Linked(_, l)) => Some(l.vertex),
        (Which::Edge, Piece::Linked(_, l)) => Some(l.edge),
        (Which::Returned, Piece::Returns(v)) => Some(v),
        _ => None,
    }
}

// Whether two parts of a text are the same bytes.
pub fn same_part(s: &[u8], a: Part, b: Part) -> bool
    requires { HasPart s.now a × HasPart s.now b }
    ensures { result ≡ same (name_at s.now a) (name_at s.now b) }
{
    compare::same_bytes(parts::part_of(s, a), parts::part_of(s, b))
}

// Whether a piece has this name as its name of a kind.
pub fn has_name(s: &[u8], which: Which, p: Piece, name: Part) -> bool
    requires { PieceInside s.now p × HasPart s.now name }
    ensures { result ≡ mem (name_at s.now name) (name_in which (piece_of s.now p)) }
{
    match name_of(which, p) {
        Some(q) => same_part(s, name, q),
        None => false,
    }
}

// Whether a name stands as one of a kind among the first pieces from a place on.
pub fn stands(s: &[u8], from: Place, count: usize, which: Which, name: Part) -> bool
    requires { HasPart s.now name }
    ensures { result ≡ mem (name_at s.now name) (names_in which (take count (found_at s.now from))) }
{
    let mut place = from;
    for i in 0..count {
        let Ok(x) = reading::next_piece(s, place) else {
            return false;
        };
        if has_name(s, which, x.piece, name) {
            return true;
        }
        place = x.next;
    }
    false
}
