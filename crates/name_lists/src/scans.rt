// The names of a list of a line: where they end, whether one stands among them or twice, how many they are.
ghost use Rattle.std.specs.Prelude.{◌≡◌, [], length};
ghost use Rattle.model.specs.Choice.{just};
ghost use Rattle.model.specs.Names.{mem, twice};
ghost use Rattle.names_met.specs.Table.{Holds};
ghost use Rattle.name_lists.specs.Names.{NamesRead, names_behind, names_end};

use item_forms::{LIST_DEPTH, pieces, places};
use items::read;
use text::parts;

// A line of so many bytes has few names: comparing each with those behind it takes less than clearing a table.
pub const FEW: usize = 128;

// A name takes two bytes at least, with what parts it from the next: a line of 512 bytes has at most 256, one of 16,384 bytes at most 8,192.
pub const SHORT: usize = 512;

// The words of a table of names met: 256 heads, and two words for each name.
pub const SHORT_TABLE: usize = 768;

pub const LONG_TABLE: usize = 16640;

// The place behind the list whose items stand from a place on, if all of them are names.
pub fn names_end(s: &[u8], from: usize) -> Option<usize>
    ensures { result ≡ names_end (names_behind s.now from) }
{
    let end = read::list(s, from, false, LIST_DEPTH)?;
    let mut i = from;
    while i < s.len() {
        let Some(name) = places::next_name(s, i, LIST_DEPTH) else {
            if pieces::only_closes(s, i, end) {
                return Some(end);
            }
            return None;
        };
        i = name.start + name.length;
    }
    None
}

// Whether a name is one of those from a place on.
pub fn has_name(s: &[u8], from: usize, name: &[u8]) -> bool
    ensures { (x : NamesRead) → names_behind s.now from ≡ just x → result ≡ mem name.now x.names }
{
    let mut i = from;
    while i < s.len() {
        let Some(other) = places::next_name(s, i, LIST_DEPTH) else {
            return false;
        };
        if compare::same_bytes(name, parts::part_of(s, other)) {
            return true;
        }
        i = other.start + other.length;
    }
    false
}

// Whether some name stands a second time among those from a place on. Put into its callers, whose tables then lie in the same stretch of the stack as this one.
#[inline]
pub fn has_twice(s: &[u8], from: usize) -> bool
    ensures { (x : NamesRead) → names_behind s.now from ≡ just x → result ≡ twice x.names }
{
    if s.len() <= FEW {
        return has_again(s, from);
    }
    if s.len() <= SHORT {
        return has_twice_short(s, from);
    }
    let mut table = [0; LONG_TABLE];
    has_twice_with(s, from, &mut table)
}

// The same with a small table, which is soon cleared.
fn has_twice_short(s: &[u8], from: usize) -> bool
    ensures { (x : NamesRead) → names_behind s.now from ≡ just x → result ≡ twice x.names }
{
    let mut table = [0; SHORT_TABLE];
    has_twice_with(s, from, &mut table)
}

// The same with a lent table, empty and of any length, for the names met: each is looked up among those before it. Where the table is full, behind itself.
fn has_twice_with(s: &[u8], from: usize, table: &mut [u32]) -> bool
    requires { Holds s.now table.old 0 [] }
    ensures { (x : NamesRead) → names_behind s.now from ≡ just x → result ≡ twice x.names }
{
    let mut n = 0;
    let mut i = from;
    while i < s.len() {
        let Some(name) = places::next_name(s, i, LIST_DEPTH) else {
            return false;
        };
        if table.len() <= n {
            return has_again(s, from);
        }
        if names_met::is_listed(s, table, n, parts::part_of(s, name)) {
            return true;
        }
        n = names_met::with_name(s, table, n, name);
        i = name.start + name.length;
    }
    false
}

// The same without a table.
fn has_again(s: &[u8], from: usize) -> bool
    ensures { (x : NamesRead) → names_behind s.now from ≡ just x → result ≡ twice x.names }
{
    let mut i = from;
    while i < s.len() {
        let Some(name) = places::next_name(s, i, LIST_DEPTH) else {
            return false;
        };
        let end = name.start + name.length;
        if has_name(s, end, parts::part_of(s, name)) {
            return true;
        }
        i = end;
    }
    false
}

// How many names stand from a place on.
pub fn count_names(s: &[u8], from: usize) -> usize
    ensures { (x : NamesRead) → names_behind s.now from ≡ just x → result ≡ length x.names }
{
    let mut n = 0;
    let mut i = from;
    while i < s.len() {
        let Some(name) = places::next_name(s, i, LIST_DEPTH) else {
            return n;
        };
        n += 1;
        i = name.start + name.length;
    }
    n
}
