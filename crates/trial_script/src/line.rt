//! What a line of a script is.

/// A line of a script.
#[derive(Clone, Copy)]
pub enum Line<'a> {
    /// A case begins, under this name.
    Case(&'a str),
    /// A call.
    Call(&'a str),
    /// A line of the text of the call before, and whether its end belongs to it.
    Text(&'a str, bool),
    /// Nothing to be done: an empty line, a comment, or what has to be printed.
    Passed,
}

/// What the line is, by its first word.
pub fn line_of(line: &str) -> Line<'_> {
    if let Some(name) = line.strip_prefix("== ") {
        return Line::Case(name);
    }
    if let Some(text) = line.strip_prefix("|. ") {
        return Line::Text(text, false);
    }
    if let Some(text) = line.strip_prefix("| ") {
        return Line::Text(text, true);
    }
    if line == "|" {
        return Line::Text("", true);
    }
    if line.is_empty() || line.starts_with('=') || line.starts_with('#') {
        return Line::Passed;
    }
    Line::Call(line)
}
