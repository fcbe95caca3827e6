// Laws of the definitions.
ghost use Rattle.view_times.specs.Laws.{CallsTellTimes, NotesStayInTheirView};

/// What each call makes of the times that each view sees. Proved in `proofs/Calls.antt`.
pub fn calls_tell_times()
    ensures { CallsTellTimes }
{}

/// What a view notes is seen in no other one before its commit, and after its abort all is as if it had
/// never been, whatever else is called. Proved in `proofs/Apart.antt`.
pub fn notes_stay_in_their_view()
    ensures { NotesStayInTheirView }
{}
