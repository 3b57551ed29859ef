// A form: where it opens, its pieces that are lists of a known form, and that nothing follows it but the ends of the lists that it stands in.
#![tactic(auto)]

ghost use Rattle.std.specs.Prelude.{◌≡◌};
ghost use Rattle.item_forms.specs.Ends.{ends_after};
ghost use Rattle.item_forms.specs.Forms.{claim_rest, claim_next, form_opens, form_closes};
ghost use Rattle.item_forms.specs.Places.{NextEntry};

pub mod pieces;
pub mod places;

use items::{Next, read};
use model::{Part, Value};
use text::{bytes, parts, words};

// Where a form stands among the lists of a text: in each list of it `inner` lists may still be opened, and behind it `closes` lists close.
#[derive(Clone, Copy)]
pub struct Form {
    pub inner: usize,
    pub closes: usize,
}

// (ATTR VALUE): where the name stands, the value, and the place behind.
#[derive(Clone, Copy)]
pub struct EntryParts {
    pub name: Part,
    pub value: Value,
    pub next: usize,
}

// (id ACTOR NODE): where the two names stand, and the place behind.
#[derive(Clone, Copy)]
pub struct ClaimParts {
    pub actor: Part,
    pub node: Part,
    pub next: usize,
}

// "lists nest to depth 4": in the one list of a line three may still be opened, in a list of it two.
pub const LINE_DEPTH: usize = 3;

pub const LIST_DEPTH: usize = 2;

// The one list of a line stands in no list.
pub const LINE_CLOSES: usize = 0;

// Where the items of a form begin that opens next, spaces aside.
pub fn open_form(s: &[u8], from: usize) -> Option<usize>
    ensures { result ≡ form_opens s.now from }
{
    let p = words::spaces_end(s, from);
    if bytes::peek(s, p) == bytes::OPENING_BRACKET {
        return Some(p + 1);
    }
    None
}

// Whether from a place on so many lists close, and nothing else but spaces stands there.
pub fn form_ends(s: &[u8], from: usize, closes: usize) -> bool
    ensures { result ≡ ends_after closes s.now from }
{
    let mut at = from;
    for _ in 0..closes {
        let Some(e) = pieces::close_list(s, at) else {
            return false;
        };
        at = e;
    }
    s.len() <= words::spaces_end(s, at)
}

// Whether a form closes next, and behind it so many lists; nothing else but spaces follows.
pub fn form_closes(s: &[u8], from: usize, closes: usize) -> bool
    ensures { result ≡ form_closes closes s.now from }
{
    let Some(e) = pieces::close_list(s, from) else {
        return false;
    };
    form_ends(s, e, closes)
}

// The next (ATTR VALUE) of a form, which ends where the list reader says, or the form's closing bracket; in an entry `depth` lists may still be opened.
pub fn entry(s: &[u8], from: usize, depth: usize) -> Option<Next<EntryParts>>
    ensures { NextEntry depth s.now from result }
{
    match pieces::open_list(s, from)? {
        Next::Item(i) => {
            let next = read::list(s, i, true, depth)?;
            let name = pieces::next_name(s, i, true, depth)?.item()?;
            let (value, q) = pieces::next_value(s, name.start + name.length, false, depth)?;
            if pieces::only_closes(s, q, next) {
                return Some(Next::Item(EntryParts { name, value, next }));
            }
            None
        }
        Next::Close(e) => Some(Next::Close(e)),
    }
}

// The two names of an (id ACTOR NODE) behind its first word, up to where the list ends.
pub fn claim_rest(s: &[u8], from: usize, depth: usize) -> Option<ClaimParts>
    ensures { result ≡ claim_rest depth s.now from }
{
    let next = read::list(s, from, false, depth)?;
    let actor = places::next_name(s, from, depth)?;
    let node = places::next_name(s, actor.start + actor.length, depth)?;
    if pieces::only_closes(s, node.start + node.length, next) {
        return Some(ClaimParts { actor, node, next });
    }
    None
}

// The next (id ACTOR NODE) of a form, or its closing bracket; in it `depth` lists may still be opened.
pub fn claim(s: &[u8], from: usize, depth: usize) -> Option<Next<ClaimParts>>
    ensures { result ≡ claim_next depth s.now from }
{
    match pieces::open_list(s, from)? {
        Next::Item(i) => {
            let word = places::next_word(s, i, true, depth)?;
            if compare::same_bytes(parts::part_of(s, word), b"id") {
                return claim_rest(s, word.start + word.length, depth).map(Next::Item);
            }
            None
        }
        Next::Close(e) => Some(Next::Close(e)),
    }
}
