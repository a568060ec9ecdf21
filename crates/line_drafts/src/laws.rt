// What a line leaves of the specification.
ghost use Rattle.line_drafts.specs.LineRests.{LineRestIsLastFrontier};

/// Where a line after lawful ones is the specification minus a polynomial over inputs alone, that polynomial has the
/// last frontier's value at every assignment.
pub fn line_rest_is_last_frontier()
    ensures { LineRestIsLastFrontier }
{}
