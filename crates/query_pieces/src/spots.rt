// The piece at each spot, by its first sign.
ghost use Rattle.std.specs.Prelude.{◌≡◌};
ghost use Rattle.model.specs.Signs.{is_word};
ghost use Rattle.query_signs.specs.Marks.{code_or, IsCode};
ghost use Rattle.query_signs.specs.Reads.{sign_of, SignInside};
ghost use Rattle.query_signs.specs.Expected.{code_of};
ghost use Rattle.query_pieces.specs.declared.Spot.TheVariants.{AtStart, InChain, InWhere, InReturn};
ghost use Rattle.query_pieces.specs.Walk.{ends_well};
ghost use Rattle.query_pieces.specs.Steps.{StepIs, arrow_behind, walk_by, standings_by, spot_of, chain_at};

use crate::{Spot, Step, parts};
use query_signs::{Sign, marks};
use text::parts::part_of;

// Whether a sign is this word.
fn is_word(s: &[u8], t: Sign, word: &[u8]) -> bool
    requires { SignInside s.now t }
    ensures { result ≡ is_word word.now (sign_of s.now t) }
{
    match t {
        Sign::Word(p) => { compare::same_bytes(part_of(s, p), word) }
        Sign::Whole(_) => false,
        Sign::Text(_) => false,
        Sign::Mark(_) => false,
    }
}

// A text may end at a spot.
pub fn ends_well(spot: Spot) -> bool
    ensures { result ≡ ends_well (spot_of spot) }
{
    match spot {
        Spot::AtStart => false,
        Spot::InChain => false,
        Spot::InWhere => false,
        Spot::InReturn => true,
    }
}

// Signs are read as in a chain at a spot.
pub fn in_chain(spot: Spot) -> bool
    ensures { result ≡ chain_at spot }
{
    match spot {
        Spot::AtStart => false,
        Spot::InChain => true,
        Spot::InWhere => false,
        Spot::InReturn => false,
    }
}

// The piece at the beginning, whose first sign ends at q.
fn first_piece(s: &[u8], t: Sign, q: usize) -> Result<Step, bool>
    requires { SignInside s.now t }
    ensures { StepIs (walk_by AtStart s.now t q) (standings_by AtStart s.now t q) s.now q result }
{
    if is_word(s, t, b"Match") {
        return parts::start(s, q);
    }
    Err(false)
}

// The mark that ends a link, by the one that begins it: -> behind -, and - behind <-.
#[tactic(auto, using(query_signs::proofs::ExpectLaws::no_code), unfolding(query_signs::specs::Expected::code_of))]
fn arrow_behind(t: Sign) -> Option<usize>
    ensures reads { code_or result ≡ arrow_behind (code_of t) }
    ensures some { IsCode result }
{
    let Sign::Mark(code) = t else {
        return None;
    };
    match code {
        marks::MINUS => Some(marks::RIGHTWARD),
        marks::LEFTWARD => Some(marks::MINUS),
        _ => None,
    }
}

// The piece behind a chain, whose first sign ends at q.
fn chain_piece(s: &[u8], t: Sign, q: usize) -> Result<Step, bool>
    requires { SignInside s.now t }
    ensures { StepIs (walk_by InChain s.now t q) (standings_by InChain s.now t q) s.now q result }
{
    if let Some(arrow) = arrow_behind(t) {
        return parts::link(s, q, arrow);
    }
    if is_word(s, t, b"Where") {
        return parts::condition(s, q);
    }
    if is_word(s, t, b"Match") {
        return parts::start(s, q);
    }
    if is_word(s, t, b"Return") {
        return parts::returned(s, q, true);
    }
    Err(false)
}

// The piece behind a condition, whose first sign ends at q.
fn where_piece(s: &[u8], t: Sign, q: usize) -> Result<Step, bool>
    requires { SignInside s.now t }
    ensures { StepIs (walk_by InWhere s.now t q) (standings_by InWhere s.now t q) s.now q result }
{
    if is_word(s, t, b"AND") {
        return parts::condition(s, q);
    }
    if is_word(s, t, b"Match") {
        return parts::start(s, q);
    }
    if is_word(s, t, b"Return") {
        return parts::returned(s, q, true);
    }
    Err(false)
}

// The piece behind a returned name, whose first sign ends at q.
fn return_piece(s: &[u8], t: Sign, q: usize) -> Result<Step, bool>
    ensures { StepIs (walk_by InReturn s.now t q) (standings_by InReturn s.now t q) s.now q result }
{
    let Sign::Mark(code) = t else {
        return Err(false);
    };
    if code != marks::COMMA {
        return Err(false);
    }
    parts::returned(s, q, false)
}

// The piece at a spot, whose first sign ends at q.
pub fn piece_by(s: &[u8], spot: Spot, t: Sign, q: usize) -> Result<Step, bool>
    requires { SignInside s.now t }
    ensures { StepIs (walk_by spot s.now t q) (standings_by spot s.now t q) s.now q result }
{
    match spot {
        Spot::AtStart => first_piece(s, t, q),
        Spot::InChain => chain_piece(s, t, q),
        Spot::InWhere => where_piece(s, t, q),
        Spot::InReturn => return_piece(s, t, q),
    }
}
