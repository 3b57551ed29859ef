// The vertices of a text by first appearance.
ghost use Rattle.std.specs.Prelude.{◌≡◌, ◌<◌};
ghost use Rattle.model.specs.Names.{place};
ghost use Rattle.model.specs.Answers.{name_at};
ghost use Rattle.text.specs.Parts.{HasPart};
ghost use Rattle.query.specs.Vertices.{names_of, VerticesInside, Placed};

use crate::found::Found;
use model::Part;
use model::limits::MAX_VERTICES;
use query_survey::scan;

// The vertices found so far, by first appearance.
pub type Vertices = Found<Part, MAX_VERTICES>;

// The number of a vertex among those found; how many there are where it is none of them.
pub fn vertex_number(s: &[u8], vertices: Vertices, name: Part) -> usize
    requires { VerticesInside s.now vertices × HasPart s.now name }
    ensures { result ≡ place (name_at s.now name) (names_of s.now vertices) }
{
    let n = vertices.count;
    for k in 0..n {
        let v = vertices.items[k];
        if scan::same_part(s, name, v) {
            return k;
        }
    }
    n
}

// The vertices with one more, if its number is how many there are.
pub fn with_vertex(vertices: Vertices, number: usize, name: Part) -> Vertices
    requires { number < 8 }
    ensures { Placed vertices number name result }
{
    if number < vertices.count {
        return vertices;
    }
    let mut more = vertices;
    more.push(name);
    more
}
