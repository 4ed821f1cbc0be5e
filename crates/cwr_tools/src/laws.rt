//! Laws over what is written, as the contracts of functions without parameters.

ghost use Rattle.cwr_tools.specs.Format.Laws.{AcceptedIsTold, CanonicalIsTold, ExplainedIsNoted, VerdictIsTold};

/// What is written of explained findings and a verdict is what a check writes of them, with indented lines put in after lines
/// of it.
pub fn explained_text_is_noted()
    ensures { ExplainedIsNoted }
{}

/// The verdict that is told of a text is that on it. Of a text that is accepted it is its transmission's, after just that one's
/// items; and so it is of canonical text, whatever follows.
pub fn text_has_the_verdict_told()
    ensures verdict { VerdictIsTold }
    ensures accepted { AcceptedIsTold }
    ensures canonical { CanonicalIsTold }
{}
