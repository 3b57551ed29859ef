// How much fits: the limits of document 01 in code, a name for each phrase, with the values of specs/Limits.antt.

// "Word: a letter, then letters, digits, underscores; 1 to 24 bytes." "Text value: between apostrophes, 0 to 40 bytes."
pub const MAX_WORD_BYTES: usize = 24;

pub const MAX_TEXT_BYTES: usize = 40;

// "Book 65,536 bytes, at most 256 nodes, 1,024 relationships, 2,048 attribute entries, 32 names each of vattr, eattr and label."
pub const MAX_BOOK_BYTES: usize = 65536;

pub const MAX_NODES: usize = 256;

pub const MAX_RELATIONSHIPS: usize = 1024;

pub const MAX_ENTRIES: usize = 2048;

pub const MAX_DECLARED: usize = 32;

// "Rules 16,384 bytes, 16 categories, 8 actors each."
pub const MAX_RULES_BYTES: usize = 16384;

pub const MAX_CATEGORIES: usize = 16;

pub const MAX_ACTORS: usize = 8;

// "Query, policy text and request 2,048 bytes each."
pub const MAX_QUERY_BYTES: usize = 2048;

pub const MAX_POLICY_BYTES: usize = 2048;

pub const MAX_REQUEST_BYTES: usize = 2048;

// "A query or policy: 8 vertices, 16 edges, 16 exclusions, 16 requirements, 4 Return names." Exclusions and requirements together are its conditions.
pub const MAX_VERTICES: usize = 8;

pub const MAX_EDGES: usize = 16;

pub const MAX_CONDITIONS: usize = 32;

pub const MAX_RETURNS: usize = 4;

// A request gives at most one identity to each of a category's actors.
pub const MAX_IDENTITIES: usize = MAX_ACTORS;

// "Woven: 24 vertices, 48 of each other kind."
pub const MAX_WOVEN_VERTICES: usize = 24;

pub const MAX_WOVEN_EDGES: usize = 48;

pub const MAX_WOVEN_EXCLUSIONS: usize = 48;

pub const MAX_WOVEN_REQUIREMENTS: usize = 48;

// "Working memory: 16,384 words of 32 bits."
pub const WORK_WORDS: usize = 16384;
