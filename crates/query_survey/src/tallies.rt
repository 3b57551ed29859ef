// A fault seen or not, and what is left of a limit.
ghost use Rattle.std.specs.Prelude.{◌≡◌, not, ◌&&◌, ◌||◌};
ghost use Rattle.query_survey.specs.Survey.{unseen, over_limit, verdict};

use crate::Survey;
use model::refusal_numbers::{
    BROKEN, LIMIT_PASSED, NOT_DECLARED, OTHER_TYPE, SECOND_TIME, SELF_EXCLUDED,
};

// Neither of two pairs of tests holds.
pub fn neither(a: bool, b: bool, c: bool, d: bool) -> bool
    ensures { result ≡ not (a && b || c && d) }
{
    !(a && b || c && d)
}

// Before the first piece: no fault, and one more than each limit is left.
pub fn nothing_seen() -> Survey
    ensures { result ≡ unseen }
{
    Survey {
        undeclared: false,
        twice: false,
        mistyped: false,
        itself: false,
        vertices: 9,
        edges: 17,
        exclusions: 17,
        requirements: 17,
        returns: 5,
    }
}

// Whether a limit is passed.
pub fn is_over(t: Survey) -> bool
    ensures { result ≡ over_limit t }
{
    [t.vertices, t.edges, t.exclusions, t.requirements, t.returns].contains(&0)
}

// The lowest fault at the end of a text, which keeps the grammar or not; 0 if there is none.
pub fn fault_at_end(whole: bool, t: Survey) -> u32
    ensures { result ≡ verdict whole t }
{
    if !whole {
        return BROKEN;
    }
    if t.undeclared {
        return NOT_DECLARED;
    }
    if t.twice {
        return SECOND_TIME;
    }
    if t.mistyped {
        return OTHER_TYPE;
    }
    if is_over(t) {
        return LIMIT_PASSED;
    }
    if t.itself { SELF_EXCLUDED } else { 0 }
}
