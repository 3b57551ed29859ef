// The tables and counts of nodes and of relationships, by which of the two owns the attributes.
ghost use Rattle.std.specs.Prelude.{◌≡◌, ◌+◌, ◌≤◌};
ghost use Rattle.book_tables.specs.Fits.{Within};
ghost use Rattle.book_tables.specs.Owners.{OwnTables, more_attrs, more_owners};

use crate::{
    BookCounts, EATTR_NAMES, FROM_HEADS, FROM_LINKS, NODE_ENTRIES, NODE_HEADS, NODE_LINKS,
    NODE_NAMES, Owner, OwnerTables, RELATIONSHIP_ENTRIES, RELATIONSHIPS, VATTR_NAMES,
};

// Where the tables of an owner stand, and how much they hold.
pub fn tables(counts: BookCounts, owner: Owner) -> OwnerTables
    ensures { OwnTables owner counts result }
{
    match owner {
        Owner::Node => OwnerTables {
            attributes: VATTR_NAMES,
            declared: counts.vattrs,
            owners: NODE_NAMES,
            entries: NODE_ENTRIES,
            heads: NODE_HEADS,
            links: NODE_LINKS,
            count: counts.nodes,
        },
        Owner::Relationship => OwnerTables {
            attributes: EATTR_NAMES,
            declared: counts.eattrs,
            owners: RELATIONSHIPS,
            entries: RELATIONSHIP_ENTRIES,
            heads: FROM_HEADS,
            links: FROM_LINKS,
            count: counts.relationships,
        },
    }
}

// The counts with one attribute more declared for an owner.
pub fn more_attrs(counts: BookCounts, owner: Owner) -> BookCounts
    requires { Within counts }
    ensures { result ≡ more_attrs owner counts }
{
    let mut more = counts;
    match owner {
        Owner::Node => {
            more.vattrs = counts.vattrs + 1;
            more
        }
        Owner::Relationship => {
            more.eattrs = counts.eattrs + 1;
            more
        }
    }
}

// The counts with one owner more, which has n entries.
pub fn more_owners(counts: BookCounts, owner: Owner, n: usize) -> BookCounts
    requires { Within counts × (counts.entries + n ≤ 2048) }
    ensures { result ≡ more_owners owner counts n }
{
    let mut more = counts;
    more.entries = counts.entries + n;
    match owner {
        Owner::Node => {
            more.nodes = counts.nodes + 1;
            more
        }
        Owner::Relationship => {
            more.relationships = counts.relationships + 1;
            more
        }
    }
}
