ghost use Rattle.mw_trace.specs.Determined.{TextsSpell, TextsDetermine};
ghost use Rattle.mw_trace.specs.ReadLines.{LinesRead, LinesRefused};

/// The events and the end of a run are determined by its text.
pub fn texts_spell()
    ensures spell { TextsSpell }
    ensures determine { TextsDetermine }
{}

/// A text is read as events exactly where it is their lines, and else refused at its first line that isn't an event's
/// or whose cycle doesn't rise.
pub fn lines_read()
    ensures read { LinesRead }
    ensures refused { LinesRefused }
{}
