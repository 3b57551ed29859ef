// One walk over the pieces of a text, to its lowest fault.
ghost use Rattle.std.specs.Prelude.{◌≡◌, [], take};
ghost use Rattle.model.specs.Answers.{name_at};
ghost use Rattle.model.specs.Grammar.{goes, comes};
ghost use Rattle.query_pieces.specs.Steps.{piece_of, walk_at, LinkInside, PieceInside};
ghost use Rattle.book_tables.specs.View.{book_at};
ghost use Rattle.book_tables.specs.Fits.{Fits};
ghost use Rattle.names_met.specs.Table.{Holds};
ghost use Rattle.query_survey.specs.Names.{names_in, text_pieces};
ghost use Rattle.query_faults.specs.TextFault.{text_fault};
ghost use Rattle.query_survey.specs.declared.Which.TheVariants.{Returned};
ghost use Rattle.query_survey.specs.Known.{Table, Known};
ghost use Rattle.query_faults.specs.Behind.{Behind};

use crate::Passed;
use book_tables::BookCounts;
use query_pieces::{Link, Piece, Place, reading};
use query_survey::{Met, conditions, links, scan, tallies};

// Behind an edge with its vertex, whichever way it points: the survey, and both names in their tables.
fn link_passed(
    book: &[u8],
    words: &[u32],
    counts: BookCounts,
    s: &[u8],
    vertices: &mut [u32],
    edges: &mut [u32],
    i: usize,
    before: Passed,
    l: Link,
) -> Passed
    requires { Fits book.now words.now counts × Known s.now vertices.old edges.old before.met (take i (text_pieces s.now))
        × LinkInside s.now l }
    ensures { (returned : Table) → Holds s.now returned before.met.returned (names_in Returned (take i (text_pieces s.now)))
        → Behind (book_at book.now words.now counts) s.now (take i (text_pieces s.now)) before.survey
        (goes (name_at s.now l.edge) (name_at s.now l.label) (name_at s.now l.vertex)) vertices.new
        edges.new returned result
        × Behind (book_at book.now words.now counts) s.now (take i (text_pieces s.now)) before.survey
        (comes (name_at s.now l.edge) (name_at s.now l.label) (name_at s.now l.vertex)) vertices.new
        edges.new returned result }
{
    let mut met = before.met;
    let t = before.survey;
    let r = links::link_seen(book, words, counts, s, vertices, edges, met, i, t, l);
    met.vertices = names_met::with_name(s, vertices, met.vertices, l.vertex);
    met.edges = names_met::with_name(s, edges, met.edges, l.edge);
    Passed { survey: r, met }
}

// Behind a piece more, which stands behind i pieces: the survey, and the piece's names in their tables.
fn piece_passed(
    book: &[u8],
    words: &[u32],
    counts: BookCounts,
    s: &[u8],
    vertices: &mut [u32],
    edges: &mut [u32],
    returned: &mut [u32],
    i: usize,
    before: Passed,
    p: Piece,
) -> Passed
    requires { Fits book.now words.now counts × Known s.now vertices.old edges.old before.met (take i (text_pieces s.now))
        × Holds s.now returned.old before.met.returned (names_in Returned (take i (text_pieces s.now))) × PieceInside s.now p }
    ensures { Behind (book_at book.now words.now counts) s.now (take i (text_pieces s.now))
        before.survey (piece_of s.now p) vertices.new edges.new returned.new result }
{
    let mut met = before.met;
    let t = before.survey;
    match p {
        Piece::Start(v) => {
            let r = links::start_seen(s, vertices, edges, met, i, t, v);
            met.vertices = names_met::with_name(s, vertices, met.vertices, v);
            Passed { survey: r, met }
        }
        Piece::Linked(_, l) => link_passed(book, words, counts, s, vertices, edges, i, before, l),
        Piece::Differ(v, u) => {
            let r = conditions::differ_seen(s, vertices, edges, met, i, t, v, u);
            Passed { survey: r, met }
        }
        Piece::Asks(d) => {
            let r = conditions::demand_seen(book, words, counts, s, vertices, edges, met, i, t, d);
            Passed { survey: r, met }
        }
        Piece::Returns(v) => {
            let r = conditions::return_seen(s, vertices, returned, met, i, t, v);
            met.returned = names_met::with_name(s, returned, met.returned, v);
            Passed { survey: r, met }
        }
    }
}

// Whether the grammar is kept from a place to the end of a text.
fn is_whole_from(s: &[u8], from: Place) -> bool
    ensures { result ≡ (walk_at s.now from).whole }
{
    let mut place = from;
    loop {
        match reading::next_piece(s, place) {
            Ok(x) => place = x.next,
            Err(whole) => return whole,
        }
    }
}

// The number of the lowest fault of a text, 3 to 8; 0 if it has none. The names met are listed in three tables, empty and of any length.
pub fn fault_with(
    book: &[u8],
    words: &[u32],
    counts: BookCounts,
    s: &[u8],
    vertices: &mut [u32],
    edges: &mut [u32],
    returned: &mut [u32],
) -> u32
    requires { Fits book.now words.now counts × Holds s.now vertices.old 0 [] × Holds s.now edges.old 0 [] × Holds s.now returned.old 0 [] }
    ensures { result ≡ text_fault (book_at book.now words.now counts) s.now }
{
    let mut place = scan::text_start();
    let mut i = 0;
    let met = Met {
        vertices: 0,
        edges: 0,
        returned: 0,
    };
    let survey = tallies::nothing_seen();
    let mut t = Passed { survey, met };
    loop {
        match reading::next_piece(s, place) {
            Ok(x) => {
                let behind = x.next;
                // Field by field: as a whole it would be read before all of it is written.
                let next = Place {
                    at: behind.at,
                    close: behind.close,
                    spot: behind.spot,
                };
                t = piece_passed(
                    book, words, counts, s, vertices, edges, returned, i, t, x.piece,
                );
                if t.survey.undeclared {
                    return tallies::fault_at_end(is_whole_from(s, next), t.survey);
                }
                place = next;
                i += 1;
            }
            Err(whole) => return tallies::fault_at_end(whole, t.survey),
        }
    }
}
