// Words of rows: each thing is told in a row of words, the rows stand one after another, and words past the last row are 0.
ghost use Rattle.std.specs.Prelude.{◌≡◌, ℕ, ◌*◌, ◌^◌, ◌<◌, ◌≤◌, List, get_or};
ghost use Rattle.book_tables.specs.Listed.{listed};
ghost use Rattle.answer_words.specs.Words.{row_word};

// What is told in a row of so many words.
pub trait Told<const WIDTH: usize> {
    ghost row_of: { Self → List ℕ };

    // Its words.
    fn row(self) -> [usize; WIDTH]
        ensures { result ≡ row_of self };
}

// All words of the first things, as many as are counted.
pub fn words_of<T: Told<WIDTH> + Copy, const WIDTH: usize, const MOST: usize, const ALL: usize>(
    given: [T; MOST],
    count: usize,
) -> [usize; ALL]
    requires wide { 0 < WIDTH }
    requires fits { WIDTH * 8 < 2 ^ 63 }
    requires inside { ALL ≤ MOST * WIDTH }
    ensures { (none : T) → result ≡ listed (row_word WIDTH count (λ i. T.row_of (get_or given i none))) ALL }
{
    let mut words = [0; ALL];
    for k in 0..ALL {
        words[k] = if k / WIDTH < count {
            let row = given[k / WIDTH].row();
            row[k % WIDTH]
        } else {
            0
        };
    }
    words
}
