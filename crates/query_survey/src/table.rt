// Names of a kind looked up among those met before.
ghost use Rattle.std.specs.Prelude.{◌≡◌, true, take};
ghost use Rattle.model.specs.Choice.{pick};
ghost use Rattle.model.specs.Names.{mem};
ghost use Rattle.model.specs.Answers.{name_at};
ghost use Rattle.text.specs.Parts.{HasPart};
ghost use Rattle.names_met.specs.Table.{Holds};
ghost use Rattle.query_survey.specs.Names.{names_in, text_pieces};

use crate::{Which, scan};
use model::Part;
use text::parts;

// Whether a name stands as one of a kind in the first i pieces of a text: by the table of that kind, or by the pieces where it is full.
pub fn stands_before(s: &[u8], table: &[u32], n: usize, i: usize, which: Which, name: Part) -> bool
    requires { Holds s.now table.now n (names_in which (take i (text_pieces s.now))) × HasPart s.now name }
    ensures { result ≡ mem (name_at s.now name) (names_in which (take i (text_pieces s.now))) }
{
    if n < table.len() {
        return names_met::is_listed(s, table, n, parts::part_of(s, name));
    }
    scan::stands(s, scan::text_start(), i, which, name)
}

// The same, or seen before already.
pub fn seen_before(
    s: &[u8],
    table: &[u32],
    n: usize,
    i: usize,
    which: Which,
    name: Part,
    before: bool,
) -> bool
    requires { Holds s.now table.now n (names_in which (take i (text_pieces s.now))) × HasPart s.now name }
    ensures { result ≡ pick (mem (name_at s.now name) (names_in which (take i (text_pieces s.now)))) true before }
{
    if before {
        return true;
    }
    stands_before(s, table, n, i, which, name)
}
