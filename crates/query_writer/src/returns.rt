// Putting the names behind Return, with a comma between two.
ghost use Rattle.std.specs.Prelude.{[], ◌++◌};
ghost use Rattle.model.specs.Bytes.{bytes_of};
ghost use Rattle.model.specs.Answers.{name_at};
ghost use Rattle.putting.specs.Putting.{Puts};
ghost use Rattle.putting.specs.Listing.{before};
ghost use Rattle.query_writer.specs.Pieces.{returns_text};
ghost use Rattle.text.specs.Parts.{HasPart};
ghost use Rattle.query_writer.specs.Inside.{ReturnsInside};

use model::Part;
use model::limits::{MAX_RETURNS, MAX_VERTICES};
use putting::bytes;

// Puts the names of all Return vertices.
pub fn put_returns(
    query: &[u8],
    vertices: [Part; MAX_VERTICES],
    returns: [usize; MAX_RETURNS],
    count: usize,
    out: &mut [u8],
    at: usize,
) -> usize
    requires { ReturnsInside query.now vertices returns count }
    ensures { Puts out.old at (returns_text query.now vertices returns count) out.new result }
{
    let mut next = at;
    for i in 0..count {
        let v = returns[i];
        let name = vertices[v];
        next = put_return(query, i, name, out, next);
    }
    next
}

// Puts a name, behind a comma if it is not the first.
fn put_return(query: &[u8], i: usize, name: Part, out: &mut [u8], at: usize) -> usize
    requires { HasPart query.now name }
    ensures { Puts out.old at (before [] (bytes_of ", ") i ++ name_at query.now name) out.new result }
{
    let at = bytes::put_before(i, b"", b", ", out, at);
    bytes::put_part(query, name, out, at)
}
