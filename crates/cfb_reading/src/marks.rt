//! A mark for each of the first numbers.
ghost use Rattle.std.specs.Prelude.{◌≡◌, ◌||◌, ◌<◌, ℕ, false, true, length, slice_index_or, slice_set};
ghost use Rattle.cfb_format.specs.Fat.{is_among};

/// Whether the number has a mark; past the end none has.
pub fn is_marked(marks: &[bool], number: u32) -> bool
    ensures { result ≡ slice_index_or marks.now number false }
{
    let at = number as usize;
    at < marks.len() && marks[at]
}

/// Marks the number. Past the end nothing is marked.
pub fn mark(marks: &mut [bool], number: u32)
    ensures { marks.new ≡ slice_set marks.old number true }
{
    let at = number as usize;
    if at < marks.len() {
        marks[at] = true;
    }
}

/// Marks each of these numbers.
pub fn mark_all(marks: &mut [bool], numbers: &[u32])
    ensures { (i : ℕ) → i < length marks.old → slice_index_or marks.new i false
        ≡ (slice_index_or marks.old i false || is_among numbers.now i) }
{
    for number in numbers {
        mark(marks, *number);
    }
}
