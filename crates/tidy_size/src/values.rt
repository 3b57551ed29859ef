// The sizes of values: whole numbers in decimal, texts between apostrophes, true and false.
ghost use Rattle.std.specs.Prelude.{◌≡◌, ◌^◌, ◌≤◌, length};
ghost use Rattle.model.specs.Writing.{digits, whole_text, value_text};
ghost use Rattle.book_lookup.specs.Entries.{entry_value};
ghost use Rattle.book_lookup.specs.Ready.{EntryReady};
ghost use Rattle.tidy_size.specs.Sizes.{Size};
ghost use Rattle.tidy_size.specs.Counting.{Counting};
ghost use Rattle.tidy_size.specs.Ready.{EntryShort};

use book_lookup::values::{kind_of, number_of, truth_of};
use book_tables::ENTRIES;
use book_tables::stores::ENTRY_WORDS;
use book_tables::values::{INT, STR};
use text::numbers::BIAS;

// Powers of ten.
const TEN: u64 = 10;

const TEN_TO_5: u64 = 100000;

const TEN_TO_6: u64 = 1000000;

const TEN_TO_10: u64 = 10000000000;

const TEN_TO_11: u64 = 100000000000;

const TEN_TO_15: u64 = 1000000000000000;

const TEN_TO_16: u64 = 10000000000000000;

// A minus; two apostrophes; `true` and `false`.
const MINUS: usize = 1;

const APOSTROPHES: usize = 2;

const TRUE: usize = 4;

const FALSE: usize = 5;

// The size of the value of an entry.
pub fn value_size(words: &[u32], entry: usize) -> usize
    requires { EntryShort words.now entry }
    ensures { Size 65538 (λ text. EntryReady text words.now entry) (λ text. value_text (entry_value text words.now entry)) result }
{
    let kind = kind_of(words, entry);
    if kind == INT {
        return whole_size(number_of(words, entry));
    }
    if kind == STR {
        return APOSTROPHES + words[ENTRIES + ENTRY_WORDS * entry + 2] as usize;
    }
    if truth_of(words, entry) {
        return TRUE;
    }
    FALSE
}

// The size of a whole number, with a minus if it is below zero.
fn whole_size(n: u64) -> usize
    ensures { (result ≡ length (whole_text n)) × (result ≤ 20) }
{
    if BIAS <= n {
        return digits_size(n - BIAS);
    }
    MINUS + digits_size(BIAS - n)
}

// How many decimal digits a number has: it is compared with the powers of ten, from one on that is not far below it.
fn digits_size(n: u64) -> usize
    requires { n ≤ 2 ^ 63 }
    ensures { (result ≡ length (digits 20 n)) × (result ≤ 19) }
{
    if TEN_TO_15 <= n {
        return digits_from(n, 16, TEN_TO_16);
    }
    if TEN_TO_10 <= n {
        return digits_from(n, 11, TEN_TO_11);
    }
    if TEN_TO_5 <= n {
        return digits_from(n, 6, TEN_TO_6);
    }
    digits_from(n, 1, TEN)
}

// The same for a number that has at least so many digits; `above` is the least number that has one more.
fn digits_from(n: u64, least: usize, above: u64) -> usize
    requires { (n ≤ 2 ^ 63) × Counting n least above }
    ensures { (result ≡ length (digits 20 n)) × (result ≤ 19) }
{
    // No `for`: where the powers pass the number is what is asked.
    let mut size = least;
    let mut power = above;
    while power <= n {
        power *= TEN;
        size += 1;
    }
    size
}
