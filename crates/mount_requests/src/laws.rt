// Laws of the definitions.
ghost use Rattle.mount_requests.specs.Aborts.{RequestsEndAtAborts};
ghost use Rattle.mount_requests.specs.Apart.{RequestsKeepTimesApart};
ghost use Rattle.mount_requests.specs.Keeping.{RequestsKeepViews};
ghost use Rattle.mount_requests.specs.WholeLists.{ListsAreWhole};

/// The course of each request about a node ends where a step is answered with an abort: nothing of
/// it becomes a plain call.
pub fn requests_end_at_aborts()
    ensures { RequestsEndAtAborts }
{}

/// A directory that is read to its end, by lists of which each goes on where the last entry before it
/// says, gives `.`, `..` and each name once, in order; and with room for a name in each list the end
/// is reached.
pub fn lists_are_whole()
    ensures { ListsAreWhole }
{}

/// A request about a node of a tree leaves views, their names and what processes are for as they are.
pub fn requests_keep_views()
    ensures { RequestsKeepViews }
{}

/// What a request about a node below a view does to times is seen in no other view, but that nothing is
/// known of what had the number of an object that is made.
pub fn requests_keep_times_apart()
    ensures { RequestsKeepTimesApart }
{}
