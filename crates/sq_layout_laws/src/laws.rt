//! What holds of lines that are laid out as a text.

ghost use Rattle.sq_layout_laws.specs.ReadBack.{LaidOutReadBack};

/// The text of lines that can be read stands for them again, but for their places.
pub fn laid_out_lines_read_back()
    ensures { LaidOutReadBack }
{}
