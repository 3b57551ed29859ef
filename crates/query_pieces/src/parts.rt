// What pieces are made of: a vertex in its brackets, an edge with the vertex behind it, a condition, a returned name.
ghost use Rattle.std.specs.Prelude.{true, false, ◌<◌};
ghost use Rattle.model.specs.Bytes.{bytes_of};
ghost use Rattle.model.specs.Signs.{expect};
ghost use Rattle.model.specs.Grammar.{start_at, condition_at, return_at};
ghost use Rattle.model.specs.Answers.{name_at};
ghost use Rattle.query_signs.specs.Marks.{mark_bytes};
ghost use Rattle.model.specs.Places.{none};
ghost use Rattle.query_signs.specs.Reads.{signs_from, standings_from};
ghost use Rattle.text.specs.Parts.{HasPart};
ghost use Rattle.query_pieces.specs.Walk.{or_stopped};
ghost use Rattle.query_pieces.specs.Steps.{VertexNext, LinkIs, StepIs, pieces_by, link_then, chained, other_then, value_then, asked};

use crate::{Demand, Link, Piece, Place, Spot, Step};
use model::Part;
use query_signs::{expected, marks};

// A vertex in its brackets.
pub fn vertex(s: &[u8], from: usize, close: bool) -> Option<(Part, usize)>
    ensures { VertexNext close s.now from result }
{
    let a = expected::mark_next(s, from, true, close, marks::OPEN)?;
    let (v, b) = expected::name_next(s, a, true, false)?;
    let q = expected::mark_next(s, b, true, true, marks::CLOSE)?;
    Some((v, q))
}

// The piece that a link makes, by the mark at its arrow's end.
fn linked(arrow: usize, l: Link) -> Piece
    ensures { LinkIs arrow l result }
{
    if arrow == marks::MINUS {
        return Piece::Linked(false, l);
    }
    Piece::Linked(true, l)
}

// An edge in its brackets, an arrow's end, and the vertex behind it.
pub fn link(s: &[u8], from: usize, arrow: usize) -> Result<Step, bool>
    requires { 0 < arrow }
    ensures { StepIs (or_stopped (link_then (mark_bytes arrow) (signs_from true false s.now from) (chained arrow)))
        (standings_from none true false s.now from) s.now from result }
{
    let Some(a) = expected::mark_next(s, from, true, false, marks::OPEN_SQUARE) else {
        return Err(false);
    };
    let Some((edge, b)) = expected::name_next(s, a, true, false) else {
        return Err(false);
    };
    let Some(c) = expected::mark_next(s, b, true, true, marks::COLON) else {
        return Err(false);
    };
    let Some((label, d)) = expected::name_next(s, c, true, false) else {
        return Err(false);
    };
    let Some(e) = expected::mark_next(s, d, true, true, marks::CLOSE_SQUARE) else {
        return Err(false);
    };
    let Some(f) = expected::mark_next(s, e, true, false, arrow) else {
        return Err(false);
    };
    let Some((vertex, q)) = vertex(s, f, false) else {
        return Err(false);
    };
    let l = Link {
        edge,
        label,
        vertex,
    };
    Ok(Step {
        piece: linked(arrow, l),
        next: Place {
            at: q,
            close: false,
            spot: Spot::InChain,
        },
    })
}

// Match (v), from behind Match.
pub fn start(s: &[u8], from: usize) -> Result<Step, bool>
    ensures { StepIs (pieces_by (start_at (signs_from true true s.now from)) (signs_from true true s.now from))
        (standings_from none true true s.now from) s.now from result }
{
    let Some((v, q)) = vertex(s, from, true) else {
        return Err(false);
    };
    Ok(Step {
        piece: Piece::Start(v),
        next: Place {
            at: q,
            close: false,
            spot: Spot::InChain,
        },
    })
}

// v <> u, from behind the sign.
fn differ(s: &[u8], v: Part, from: usize) -> Result<Step, bool>
    requires { HasPart s.now v }
    ensures { StepIs (or_stopped (other_then (name_at s.now v) (signs_from false false s.now from) asked))
        (standings_from none false false s.now from) s.now from result }
{
    let Some((u, q)) = expected::name_next(s, from, false, false) else {
        return Err(false);
    };
    Ok(Step {
        piece: Piece::Differ(v, u),
        next: Place {
            at: q,
            close: true,
            spot: Spot::InWhere,
        },
    })
}

// x.attr REL value, from behind x.
fn demand(s: &[u8], subject: Part, from: usize) -> Result<Step, bool>
    requires { HasPart s.now subject }
    ensures { StepIs (or_stopped (expect (bytes_of ".") (signs_from false true s.now from)
        (λ ts. value_then (name_at s.now subject) ts asked))) (standings_from none false true s.now from) s.now from result }
{
    let Some(a) = expected::mark_next(s, from, false, true, marks::DOT) else {
        return Err(false);
    };
    let Some((attribute, b)) = expected::name_next(s, a, false, false) else {
        return Err(false);
    };
    let Some((relation, c)) = expected::relation_next(s, b, true) else {
        return Err(false);
    };
    let Some((value, q, close)) = expected::value_next(s, c, false) else {
        return Err(false);
    };
    Ok(Step {
        piece: Piece::Asks(Demand {
            subject,
            attribute,
            relation,
            value,
        }),
        next: Place {
            at: q,
            close,
            spot: Spot::InWhere,
        },
    })
}

// A condition, from behind Where or AND.
pub fn condition(s: &[u8], from: usize) -> Result<Step, bool>
    ensures { StepIs (pieces_by (condition_at (signs_from false true s.now from)) (signs_from false true s.now from))
        (standings_from none false true s.now from) s.now from result }
{
    let Some((x, a)) = expected::name_next(s, from, false, true) else {
        return Err(false);
    };
    match expected::mark_next(s, a, false, true, marks::DIFFERS) {
        Some(b) => differ(s, x, b),
        None => demand(s, x, a),
    }
}

// A returned name, from behind Return or a comma.
pub fn returned(s: &[u8], from: usize, close: bool) -> Result<Step, bool>
    ensures { StepIs (pieces_by (return_at (signs_from false close s.now from)) (signs_from false close s.now from))
        (standings_from none false close s.now from) s.now from result }
{
    let Some((v, q)) = expected::name_next(s, from, false, close) else {
        return Err(false);
    };
    Ok(Step {
        piece: Piece::Returns(v),
        next: Place {
            at: q,
            close: true,
            spot: Spot::InReturn,
        },
    })
}
