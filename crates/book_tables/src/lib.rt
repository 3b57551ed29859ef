// The book in words: where each table stands in the working memory, and how much it holds.
#![tactic(auto)]

ghost use Rattle.std.specs.Prelude.{◌≡◌};
ghost use Rattle.book_tables.specs.Stores.{no_counts};

pub mod names;
pub mod owners;
pub mod relationships;
pub mod stores;
pub mod values;

// The tables, one after another. The types of attributes stand behind their names.
pub const VATTR_NAMES: usize = 0;

pub const EATTR_NAMES: usize = 64;

pub const LABEL_NAMES: usize = 128;

pub const NODE_NAMES: usize = 160;

pub const NODE_ENTRIES: usize = 416;

pub const RELATIONSHIPS: usize = 672;

pub const RELATIONSHIP_ENTRIES: usize = 1696;

pub const ENTRIES: usize = 2720;

// The chains of the nodes by the slots of their names, and of the relationships by the node that they leave.
pub const NODE_HEADS: usize = 8864;

pub const NODE_LINKS: usize = 9120;

pub const FROM_HEADS: usize = 9376;

pub const FROM_LINKS: usize = 9632;

// The words of all tables and chains together.
pub const BOOK_WORDS: usize = 10752;

// How many of each the tables hold.
#[derive(Clone, Copy)]
pub struct BookCounts {
    pub vattrs: usize,
    pub eattrs: usize,
    pub labels: usize,
    pub nodes: usize,
    pub relationships: usize,
    pub entries: usize,
}

// Which names of nodes are taken for the same: the very name, or names that are equal but for the case of letters.
#[derive(Clone, Copy)]
pub enum NameRule {
    Exact,
    AnyCase,
}

// Who has attributes: nodes, and relationships.
#[derive(Clone, Copy)]
pub enum Owner {
    Node,
    Relationship,
}

// The tables of an owner: the attributes declared for it and how many they are; a word for each owner, the word of its entries, the heads and
// links of its chains, and how many owners there are.
#[derive(Clone, Copy)]
pub struct OwnerTables {
    pub attributes: usize,
    pub declared: usize,
    pub owners: usize,
    pub entries: usize,
    pub heads: usize,
    pub links: usize,
    pub count: usize,
}

// A value's type, and the two words that say it: the halves of a number, start and length of a text, 0 and then 0 or 1 of a truth value.
#[derive(Clone, Copy)]
pub struct ValueWords {
    pub kind: u32,
    pub first: u32,
    pub second: u32,
}

// The counts of a book of no lines.
pub fn no_counts() -> BookCounts
    ensures { result ≡ no_counts }
{
    BookCounts {
        vattrs: 0,
        eattrs: 0,
        labels: 0,
        nodes: 0,
        relationships: 0,
        entries: 0,
    }
}
