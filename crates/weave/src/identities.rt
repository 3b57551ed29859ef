// Identities on the woven vertices: the actor vertex of an identity's name has its node.
ghost use Rattle.std.specs.Prelude.{◌≡◌, ◌/◌, ◌≤◌, length};
ghost use Rattle.woven_tables.specs.Tables.{NameInside, VerticesInside, vertex_of_word, node_in, woven_words};
ghost use Rattle.weave.specs.Identities.{identity_of, identities_in, IdentitiesReady, IdentitiesGiven};

use crate::marks;
use model::Identity;
use model::limits::MAX_IDENTITIES;
use text::parts::part_of;
use woven_tables::names::VERTEX_KINDS;
use woven_tables::{IDENTITIES, NO_NODE, names};

// The node that the identities give to a woven vertex, or no node.
fn find_identity(
    query: &[u8],
    rules: &[u8],
    request: &[u8],
    identities: [Identity; MAX_IDENTITIES],
    count: usize,
    word: u32,
) -> u32
    requires { IdentitiesReady request.now identities count × NameInside query.now rules.now (word / 2) }
    ensures { node_in result ≡ identity_of (identities_in request.now identities count)
        (vertex_of_word query.now rules.now word) }
{
    if word % VERTEX_KINDS == 1 {
        for i in 0..count {
            let identity = identities[i];
            let actor = identity.actor;
            let name = part_of(request, actor);
            if names::says(query, rules, word / VERTEX_KINDS, name) {
                return identity.node as u32;
            }
        }
        return NO_NODE;
    }
    NO_NODE
}

// Gives the woven vertices their nodes; answers which have one.
pub fn give_identities(
    query: &[u8],
    rules: &[u8],
    request: &[u8],
    identities: [Identity; MAX_IDENTITIES],
    count: usize,
    words: &mut [u32],
    n: usize,
) -> u32
    requires { IdentitiesReady request.now identities count × (n ≤ 24) × (woven_words ≤ length words.old)
        × VerticesInside query.now rules.now words.old n }
    ensures { IdentitiesGiven query.now rules.now (identities_in request.now identities count) words.old
        words.new n result }
{
    let mut mask: u32 = 0;
    for v in 0..n {
        let node = find_identity(query, rules, request, identities, count, words[v]);
        words[IDENTITIES + v] = node;
        mask = marks::mark_if(mask, v, node != NO_NODE);
    }
    mask
}
