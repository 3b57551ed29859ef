// Putting texts into a lent buffer, one behind another, and whether a whole text fits.
#![tactic(auto)]

ghost use Rattle.std.specs.Prelude.{◌≡◌};
ghost use Rattle.putting.specs.Whole.{too_long};

pub mod bytes; // bytes.rt: putting bytes, texts and names
pub mod values; // values.rt: putting numbers, texts in apostrophes and truth values

// Whether a text that ends at a place, put from the start of a buffer, passes its limit or the buffer's room. A writer first puts its text
// into no bytes, asks this, and puts the text into its buffer if it fits.
pub fn too_long(limit: usize, room: usize, end: usize) -> bool
    ensures { result ≡ too_long limit room end }
{
    room < end || limit < end
}
