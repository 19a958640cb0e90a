//! What the clauses on cuts refuse: a reader who asks whether they do finds here a cut that they refuse.

ghost use Rattle.bl_shell.specs.Laws.{NoReplyIsBeforeTheBarrier, ToldSyncsAreKept};

use bl_logstore::batches_are_once;

/// One such cut: on an empty folder `put a =1` and `sync` were answered, and no file is left. No clause of `run` on its cuts
/// allows it.
pub fn told_syncs_are_kept()
    ensures { ToldSyncsAreKept }
{
    batches_are_once();
}

/// A cut that has told the reply `ok` is none before the barrier of the opening.
pub fn no_reply_is_before_the_barrier()
    ensures { NoReplyIsBeforeTheBarrier }
{}
