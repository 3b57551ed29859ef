// Comparing texts by bytes, and the words that are never names.
#![tactic(auto)]

ghost use Rattle.std.specs.Prelude.{◌≡◌, not, ◌+◌, ◌≤◌, length, drop};
ghost use Rattle.model.specs.Bytes.{same};
ghost use Rattle.model.specs.Names.{mem};
ghost use Rattle.model.specs.Forms.{never_names};
ghost use Rattle.model.specs.TextOrder.{byte_order};
ghost use Rattle.model.specs.Answers.{part_of};
ghost use Rattle.compare.specs.Compare.{begins_one_of_six, order_of, same_near};

use std::cmp::Ordering;

// Whether two texts are the same bytes; compared four bytes at a time, and then one by one.
pub fn same_bytes(a: &[u8], b: &[u8]) -> bool
    ensures { result ≡ same a.now b.now }
{
    if a.len() != b.len() {
        return false;
    }
    // By fours, counted by hand, since names are compared all the time: for speed.
    let mut i = 0;
    while 4 <= a.len() - i {
        if !same_four(a, b, i) {
            return false;
        }
        i += 4;
    }
    same_from(a, b, i)
}

// Whether the four bytes of two texts from a place on are the same.
fn same_four(a: &[u8], b: &[u8], i: usize) -> bool
    requires { (i + 4 ≤ length a.now) × (i + 4 ≤ length b.now) }
    ensures { result ≡ same_near a.now b.now i 3 }
{
    (a[i] == b[i]) & (a[i + 1] == b[i + 1]) & (a[i + 2] == b[i + 2]) & (a[i + 3] == b[i + 3])
}

// Whether two texts of one length are the same bytes from a place on, byte by byte.
fn same_from(a: &[u8], b: &[u8], from: usize) -> bool
    requires { length a.now ≡ length b.now }
    ensures { result ≡ same (drop from a.now) (drop from b.now) }
{
    for i in from..a.len() {
        if a[i] != b[i] {
            return false;
        }
    }
    true
}

// Whether n bytes of s from a on and m bytes of t from b on are the same bytes.
pub fn equal(s: &[u8], a: usize, n: usize, t: &[u8], b: usize, m: usize) -> bool
    requires { (a + n ≤ length s.now) × (b + m ≤ length t.now) }
    ensures { result ≡ same (part_of s.now a n) (part_of t.now b m) }
{
    same_bytes(&s[a..a + n], &t[b..b + m])
}

// A place up to which two texts are the same, found four bytes at a time: what is left of them stands as they do.
fn same_fours(a: &[u8], b: &[u8]) -> usize
    ensures within { result ≤ length a.now }
    ensures is { byte_order (drop result a.now) (drop result b.now) ≡ byte_order a.now b.now }
{
    // By fours, counted by hand, since names are compared all the time: for speed.
    let mut i = 0;
    while 4 <= a.len() - i {
        if b.len() - i < 4 {
            return i;
        }
        if !same_four(a, b, i) {
            return i;
        }
        i += 4;
    }
    i
}

// How one text stands to another: by the first byte that differs; a proper beginning is less.
pub fn compare(a: &[u8], b: &[u8]) -> Ordering
    ensures { order_of result ≡ byte_order a.now b.now }
{
    for i in same_fours(a, b)..a.len() {
        if b.len() <= i {
            return Ordering::Greater;
        }
        if a[i] < b[i] {
            return Ordering::Less;
        }
        if b[i] < a[i] {
            return Ordering::Greater;
        }
    }
    if a.len() < b.len() {
        return Ordering::Less;
    }
    Ordering::Equal
}

// The fewest and the most bytes of a word that is never a name.
const SHORTEST: usize = 3;

const LONGEST: usize = 6;

// Whether a word is a name. Most words are told from the six that are never names by their length or their first byte.
pub fn is_name(w: &[u8]) -> bool
    ensures { result ≡ not (mem w.now never_names) }
{
    if w.len() < SHORTEST {
        return true;
    }
    if LONGEST < w.len() {
        return true;
    }
    if begins_one_of_six(w[0]) {
        return is_none_of_six(w);
    }
    true
}

// The same for the words of a query, most of which are shorter than those six.
pub fn is_query_name(w: &[u8]) -> bool
    ensures { result ≡ not (mem w.now never_names) }
{
    if w.len() < SHORTEST {
        return true;
    }
    is_none_of_six(w)
}

// Whether one of the six words that are never names begins with a byte.
fn begins_one_of_six(b: u8) -> bool
    ensures { result ≡ begins_one_of_six b }
{
    (b == b'M') | (b == b'W') | (b == b'A') | (b == b'R') | (b == b't') | (b == b'f')
}

// Whether a word is none of the six words that are never names.
fn is_none_of_six(w: &[u8]) -> bool
    ensures { result ≡ not (mem w.now never_names) }
{
    if same_bytes(w, b"Match") {
        return false;
    }
    if same_bytes(w, b"Where") {
        return false;
    }
    if same_bytes(w, b"AND") {
        return false;
    }
    if same_bytes(w, b"Return") {
        return false;
    }
    if same_bytes(w, b"true") {
        return false;
    }
    if same_bytes(w, b"false") {
        return false;
    }
    true
}
