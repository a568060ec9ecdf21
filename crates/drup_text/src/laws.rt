// The laws of what is written and read.
ghost use Rattle.drup_text.specs.SameFiles.{WrittenSameIsRead};
ghost use Rattle.drup_text.specs.WrittenLaws.{OneTextIsOneFile, PassingHeadersAreNotRefused, WrittenClausesAreRead, WrittenFilesAreRead, WrittenHeadersPass};

/// What is written for a line is read as the same line, where `max` is at least each of its variables.
pub fn written_lines_are_read()
    ensures { WrittenClausesAreRead }
{}

/// What `write_clauses` writes for a header that the graph takes is the text of the same header and lines.
pub fn written_files_are_read()
    ensures { WrittenFilesAreRead }
{}

/// What `write_same` writes is the text of the same lines.
pub fn written_same_is_read()
    ensures { WrittenSameIsRead }
{}

/// No text is two certificates.
pub fn one_text_is_one_file()
    ensures { OneTextIsOneFile }
{}

/// Within the lengths a header that is written passes over each graph that takes it.
pub fn written_headers_pass()
    ensures { WrittenHeadersPass }
{}

/// A header that passes has no refusal.
pub fn passing_headers_are_not_refused()
    ensures { PassingHeadersAreNotRefused }
{}
