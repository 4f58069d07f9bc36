//! The kinds of faults that a script can have.

/// Why a word may not stand where it stands, or what the script lacks.
#[derive(Clone, Copy, Debug, PartialEq)]
pub enum ScriptKind {
    /// No line goes on by this word, or the line lacks one.
    Unexpected,
    /// Nothing that the word may name has been declared under this name.
    UnknownName,
    /// A name that stands already is declared again.
    NameTwice,
    /// The name stands for something else than what is named here.
    WrongName,
    /// More is declared than a script may have: of a name, or of clients.
    TooMany,
    /// The script ends within a routine or a client.
    Unclosed,
}
