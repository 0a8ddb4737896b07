ghost use Rattle.vms_line.specs.Laws.{LinesHaveOneSpelling, LinesReadBack};

/// The law that what is spelled of a line is one line of a text, and is read back as that line.
pub fn lines_read_back()
    ensures { LinesReadBack }
{}

/// The law that a line that isn't ignored has one spelling: its words, with one blank between them.
pub fn lines_have_one_spelling()
    ensures { LinesHaveOneSpelling }
{}
