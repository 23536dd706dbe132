// What a line of a manifest is.
#[derive(Clone, Copy, PartialEq, Eq)]
pub enum Kind {
    // Empty or of spaces, or begins with `#` or `default`.
    Skipped,
    // Belongs to the last rule or statement.
    Indented,
    // Not understood: a kind like the others, and no None, since each line is of one and the reader says what becomes of each.
    Unclear,
    // `rule NAME`.
    Rule,
    // `build OUTS: RULE INS | IMPLICIT || ORDER-ONLY`.
    Build,
}
