//! Laws of the machine and of its histories.

ghost use Rattle.bl_machine.specs.Laws.{AllAreTold, BegunAreWritten, FrontsGoOn, LinesGoOn, MapsFollowWrites, MoreLinesKeepSynced, MoreToldMoreSynced, OthersKeepFiles, SyncedHaveBegun, ToldDecides, WritesMakeMap};
ghost use Rattle.bl_machine.specs.Rows.{EmptyIsRead, FlushEmpties, FlushedIsListed, InlineIsListed, NoneAreListed, PutIsRead, SecondPutSwitches};

use bl_entry::operations_change_the_map;

/// From each state whose files are in order each line has a reply and a next state, and so has each script: what was told so far is always a front of
/// the replies to the whole of it.
pub fn the_machine_is_never_stuck()
    ensures line { LinesGoOn }
    ensures script { FrontsGoOn }
{}

/// The batches of some writes make the map after them: what the machine's map is to a folder of batches.
pub fn writes_make_the_map()
    ensures { WritesMakeMap }
{
    operations_change_the_map();
}

/// The map after some lines is that after all that they wrote, and only writes, `flush` and `reopen` may change the files.
pub fn lines_change_what_they_say()
    ensures maps { MapsFollowWrites }
    ensures files { OthersKeepFiles }
{}

/// What is known to be synced has begun, and no more begins than is written. Neither falls as more is told. Once all is told,
/// all has begun.
pub fn acknowledged_writes_have_begun()
    ensures synced { SyncedHaveBegun }
    ensures begun { BegunAreWritten }
    ensures more { MoreToldMoreSynced }
    ensures all { AllAreTold }
{}

/// Which writes are synced and which have begun is decided by what was told: another history of the same lines that begins by
/// telling the same has as many of both. Lines behind those whose replies were told change nothing of what is synced, and take
/// back nothing that has begun.
pub fn told_replies_decide()
    ensures lines { MoreLinesKeepSynced }
    ensures history { ToldDecides }
{}

/// What some scripts tell: a put that is read again, the files of one flushed put with and without a blob file, those of a
/// store that has none, and a flushed value of no byte, which is read.
pub fn scripts_tell_the_rows()
    ensures read { PutIsRead }
    ensures flushed { FlushedIsListed }
    ensures inline { InlineIsListed }
    ensures none { NoneAreListed }
    ensures empty { EmptyIsRead }
{}

/// Of two puts the second switches memories where the buffer holds the bytes of the first, and not where it holds one more; a flush behind
/// them leaves none that waits and no bytes counted.
pub fn memories_are_switched()
    ensures switches { SecondPutSwitches }
    ensures empties { FlushEmpties }
{}
