//! Cuts and runs that are none, and rows.

ghost use Rattle.bl_promise.specs.Refuted.{CountsRow, EmptyScriptRow, ErrorLinesRow, NoReplyIsBeforeTheBarrier, NoReplyIsLeftOut, NoReplyIsToldTwice, PutIsReadRow, SkippedSyncsAreSeen, ToldSyncsAreKept, WritesAreNotKeptBack};

use bl_folder::folders_stand_for_one_map;
use bl_machine::scripts_tell_the_rows;

/// No run allows a cut that loses a write whose sync was told, or that comes before the barrier and has told a reply.
pub fn told_syncs_are_kept()
    ensures syncs { ToldSyncsAreKept }
    ensures barrier { NoReplyIsBeforeTheBarrier }
{}

/// No run leaves a folder without a write whose reply was told, and none tells a reply twice or leaves one out.
pub fn writes_are_not_kept_back()
    ensures kept { WritesAreNotKeptBack }
    ensures twice { NoReplyIsToldTwice }
    ensures left_out { NoReplyIsLeftOut }
{
    folders_stand_for_one_map();
}

/// On a disk on which a needed log has an unsynced byte, and a log behind it has a byte, logs are not whole.
pub fn skipped_syncs_are_seen()
    ensures { SkippedSyncsAreSeen }
{}

/// What runs on a fresh folder tell: of the empty script nothing, and of a put that it is read. How many writes of three lines are synced and have
/// begun, by the bytes told; and the lines that end a run.
pub fn rows_are_these()
    ensures empty { EmptyScriptRow }
    ensures read { PutIsReadRow }
    ensures counts { CountsRow }
    ensures lines { ErrorLinesRow }
{
    scripts_tell_the_rows();
}
