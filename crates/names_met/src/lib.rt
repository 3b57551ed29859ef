// The names met in a text, in a table of words: 256 heads of chains by the names' slots, a link for each name, and each name's word (its start and length).
// A table of zeros has no name.
#![tactic(auto)]

ghost use Rattle.std.specs.Prelude.{◌≡◌, [], ◌∷◌, ◌++◌, ◌≤◌};
ghost use Rattle.model.specs.Names.{mem};
ghost use Rattle.model.specs.Answers.{name_at};
ghost use Rattle.names_met.specs.Table.{Names, words_from, names_met, Entries, Holds};

use book_tables::names::NAME_LENGTHS;
use chains::slots::SLOTS;
use chains::{slots, walk};
use model::Part;

// What a name's word has room for: starts below 2^27. What a table has: names below 65,536.
const MAX_START: usize = 134217728;

const MAX_MET: usize = 65536;

// Where the names' words begin in a table of so many words: behind the links, which have half of what the heads leave.
fn words_from(size: usize) -> usize
    requires { 256 ≤ size }
    ensures { result ≡ words_from size }
{
    SLOTS + (size - SLOTS) / 2
}

// Whether a name is one of the n that a table has: looked for in the chain of its slot.
pub fn is_listed(s: &[u8], table: &[u32], n: usize, name: &[u8]) -> bool
    requires { Entries s.now table.now n }
    ensures { result ≡ mem name.now (names_met s.now table.now n) }
{
    let words = words_from(table.len());
    for k in walk::numbers(table, 0, SLOTS, slots::slot(name)) {
        let word = table[words + k] as usize;
        let start = word / NAME_LENGTHS;
        let end = start + word % NAME_LENGTHS;
        if compare::same_bytes(name, &s[start..end]) {
            return true;
        }
    }
    false
}

// Puts a name in front of the chain of its slot, and answers how many names there are; the table's length where the name does not fit.
pub fn with_name(s: &[u8], table: &mut [u32], n: usize, name: Part) -> usize
    ensures { (names : Names) → Holds s.now table.old n names
        → Holds s.now table.new result (names ++ (name_at s.now name ∷ [])) }
{
    let start = name.start;
    let length = name.length;
    let size = table.len();
    if MAX_MET <= n {
        return size;
    }
    if size < SLOTS + 2 * n + 2 {
        return size;
    }
    if MAX_START <= start {
        return size;
    }
    if NAME_LENGTHS <= length {
        return size;
    }
    let end = start + length;
    if s.len() < end {
        return size;
    }
    let at = words_from(size) + n;
    table[at] = (start * NAME_LENGTHS + length) as u32;
    let slot = slots::slot(&s[start..end]);
    chains::add(table, 0, SLOTS, slot, n);
    n + 1
}
