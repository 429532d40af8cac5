//! What follows of rows and trees. Internal. None of these functions does anything: each has a law as
//! its contract.
ghost use Rattle.cfb_shown.specs.Rows.{RowsHaveSevenFields};
ghost use Rattle.cfb_shown.specs.Trees.{LinesFollowTheWalk};

/// The row of an object is one line of seven fields, whatever the object is called, and the last
/// field is its path as it is shown: `meant` gives the path back
/// (`cfb_text::laws::shown_texts_are_plain_and_apart`).
pub fn rows_have_seven_fields()
    ensures { RowsHaveSevenFields }
{}

/// The lines of a tree are those of the objects that a walk reaches, one after another, and each has
/// as many cells as names lead to its object.
pub fn lines_follow_the_walk()
    ensures { LinesFollowTheWalk }
{}
