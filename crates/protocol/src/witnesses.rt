// Runs that there are, so that the promises of every run say something.
ghost use Rattle.protocol.specs.Examples.{RequestsAreCarriedOut, LowMoves, ViewsChange, SuspicionsMerge};

/// There are runs, refused calls among them, in which requests are carried out, a checkpoint moves the low mark, a view
/// changes and a proposal is carried over, and a second suspicion merges what held VIEW-CHANGEs told.
pub fn runs_there_are()
    ensures carried_out { RequestsAreCarriedOut }
    ensures low { LowMoves }
    ensures view { ViewsChange }
    ensures merged { SuspicionsMerge }
{}
