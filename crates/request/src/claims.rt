// The identities of a request's line: the one that follows, and whether nothing else does.
ghost use Rattle.std.specs.Prelude.{◌≡◌};
ghost use Rattle.request.specs.Claims.{claims_from, are_read, claim_at, NextClaim};

use item_forms::{ClaimParts, LINE_CLOSES, LIST_DEPTH};
use items::Next;

// The identity that was read, if one was.
fn claim_at(read: Option<Next<ClaimParts>>) -> Option<ClaimParts>
    ensures { result ≡ claim_at read }
{
    match read {
        Some(Next::Item(found)) => Some(found),
        Some(Next::Close(_)) => None,
        None => None,
    }
}

// The identity that follows, if one does.
pub fn next_claim(s: &[u8], from: usize) -> Option<ClaimParts>
    ensures { NextClaim s.now from result }
{
    claim_at(item_forms::claim(s, from, LIST_DEPTH))
}

// Whether nothing but identities follows to the end of the line.
pub fn are_claims(s: &[u8], from: usize) -> bool
    ensures { result ≡ are_read (claims_from s.now from) }
{
    let mut i = from;
    while i < s.len() {
        match item_forms::claim(s, i, LIST_DEPTH) {
            Some(Next::Item(found)) => {
                i = found.next;
            }
            Some(Next::Close(e)) => {
                return item_forms::form_ends(s, e, LINE_CLOSES);
            }
            None => {
                return false;
            }
        }
    }
    false
}
