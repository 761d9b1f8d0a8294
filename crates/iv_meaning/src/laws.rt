//! Laws about the definitions.
ghost use Rattle.iv_meaning.specs.LineLaws.{LinesLaw};
ghost use Rattle.iv_meaning.specs.Objects.{CopiesLaw};
ghost use Rattle.iv_meaning.specs.SerialLaws.{CommitLaw, HistoryLaw, LatestLaw, OutsideLaw, SaysLaw, SessionLaw, StateLaw};

/// `lines_of` cuts an input into its lines.
pub fn lines_law()
    ensures { LinesLaw }
{}

/// No line is of two sessions, and none has two texts.
pub fn session_law()
    ensures { SessionLaw }
{}

/// What a transaction leaves alone, on the database that was committed last, is the database of the number that it takes.
pub fn commit_law()
    ensures { CommitLaw }
{}

/// So it is with a statement that is a transaction of its own.
pub fn outside_law()
    ensures { OutsideLaw }
{}

/// A commit leaves the database at each number before its own.
pub fn state_law()
    ensures { StateLaw }
{}

/// The commits of a transcript are numbered one after another, from the database that was opened on.
pub fn history_law()
    ensures { HistoryLaw }
{}

/// The database that was committed last is the one at its number.
pub fn latest_law()
    ensures { LatestLaw }
{}

/// No line says two things where there is memory for its text, as no text is two statements, or refused for two causes.
pub fn says_law()
    ensures { SaysLaw }
{}

/// Copies of definitions define the same.
pub fn copies_law()
    ensures { CopiesLaw }
{}
