// The refusals of document 01 in code: a name for each number of its table, with the table's words, and for each text.
// Numbers and no enum: the theorems of RefusalTable and the C header speak of refusals and texts by these numbers.

// "The text is too long."
pub const TOO_LONG: u32 = 1;

// "First byte not allowed."
pub const NOT_ALLOWED: u32 = 2;

// "Grammar broken."
pub const BROKEN: u32 = 3;

// "A name is not declared."
pub const NOT_DECLARED: u32 = 4;

// "Declared, related, listed (actors, over), given or returned a second time; a second policy of a category."
pub const SECOND_TIME: u32 = 5;

// "Value or relation not of the declared type."
pub const OTHER_TYPE: u32 = 6;

// "A count or a policy's bytes pass the limit."
pub const LIMIT_PASSED: u32 = 7;

// "A vertex excluded from itself."
pub const SELF_EXCLUDED: u32 = 8;

// "Actors lack requestor or a lower category's actor."
pub const ACTOR_LACKING: u32 = 9;

// "A category over nothing has no policy."
pub const UNCOVERED: u32 = 10;

// "No identity for requestor."
pub const NO_REQUESTOR: u32 = 11;

// "A woven limit passed."
pub const WOVEN_LIMIT_PASSED: u32 = 12;

// "A woven vertex not tied to an identity."
pub const NOT_TIED: u32 = 13;

// "Rows times Return names exceed the row buffer's words"; "written query longer than its buffer or than 2,048 bytes."
pub const NO_ROOM: u32 = 14;

// "Working memory is under 16,384 words."
pub const TOO_LITTLE: u32 = 15;

// The texts by their numbers; the woven pattern counts as text 5, and missing memory is of no text.
pub const NO_TEXT: u32 = 0;

pub const BOOK: u32 = 1;

pub const RULES: u32 = 2;

pub const QUERY: u32 = 3;

pub const REQUEST: u32 = 4;

pub const WOVEN: u32 = 5;

// "A query is line 1 for every number but 1."
pub const QUERY_LINE: u32 = 1;

// The line of a refusal that speaks of no line.
pub const NO_LINE: u32 = 0;
