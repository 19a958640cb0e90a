//! Laws of what a run promises.

ghost use Rattle.bl_promise.specs.ServingLaws.{AnsweredAreServed, FailedCallsServe, FailedTellingServes, FailedWritesServe, FlushesServe, LimitsServe, NothingFailed, OpeningsBegin, QuietLinesServe, ReadsAnswer, ReadsServe, ReopeningLimitsServe, ReopeningsServe, RepliedAreServed, SyncsServe, TellingServes, WritesServe};
ghost use Rattle.bl_promise.specs.EndingLaws.{AnsweringHaveFaltered, CutsAreOfRun, ErrorLinesKeepCuts, ErrorLinesKeepRuns, FailingHaveBegun, FinishedHaveRun, ServedAreObeyed, StoppedEndFull, StoresLeaveLogsWhole};
ghost use Rattle.bl_promise.specs.Numbers.{FlushesAreNumbered, FlushesTakeFew, NumbersPass, OpeningsAreNumbered, QuietLinesAreNumbered, ReopeningsAreNumbered, RoomIsWithin, WritesAreNumbered};
ghost use Rattle.bl_promise.specs.RefusingLaws.{CorruptRefuse, DifferRefuse, FailuresRefuse, ForeignAreFound, ForeignAreNotOwn, FullRefuse, OpenedRefuse};
ghost use Rattle.bl_promise.specs.StatusLaws.{CutsSurvive, DamageEnds, DifferAnswers, DiffersEnd, DoneAnswers, FailuresAnswer, FaltersAnswer, FullAnswers, FullOpeningsEnd, LinesAreTold, LinesInPartAnswer, OpeningsCutRuns, OpeningsSurvive, RefusedOpeningsCutRuns, TakenAnswers};
ghost use Rattle.bl_promise.specs.Lines.{BegunCarry, BytesAreInLogs, FlushesAreLines, QuietLinesStay, ReopeningsAreLines, StoresAreInOrder, SyncsAreLines, WritesAreLines};
ghost use Rattle.bl_promise.specs.Laws.{CallsCutLines, LinesKeepCuts, RepliesCutLines, RunsComplete};

use bl_folder::{
    folders_stand_for_one_map, live_parts_have_a_version, logs_have_the_batches_that_remain,
    synced_disks_keep_their_map,
};
use bl_open::{refusals_are_one, steady_disks_are_left, steady_disks_stand};
use bl_site::{Site, Source};

/// Valid words, a sound folder, no count that rose, no limit, no option that differs and no script that is too long give `Done` or
/// `OutOfMemory`.
pub fn faultless_runs_are_done()
    ensures { RunsComplete }
{}

/// What a power cut leaves during a call for a line, or while its reply is told, is the map after a prefix of the writes of the lines so
/// far that holds each one acknowledged as synced; and so it stays as lines follow.
pub fn cuts_of_lines_are_of_runs()
    ensures call { CallsCutLines }
    ensures reply { RepliesCutLines }
    ensures more { LinesKeepCuts }
{}

/// What a call of a store does at `Ok` is what the machine does for its line, and the store carries the state behind it: for a write, a
/// flush, a sync, a reopening, and for a line that only tells. A store that begins carries the first state.
pub fn calls_are_lines()
    ensures order { StoresAreInOrder }
    ensures writes { WritesAreLines }
    ensures flushes { FlushesAreLines }
    ensures syncs { SyncsAreLines }
    ensures reopenings { ReopeningsAreLines }
    ensures quiet { QuietLinesStay }
    ensures begun { BegunCarry }
    ensures bytes { BytesAreInLogs }
{
    live_parts_have_a_version();
    steady_disks_stand();
}

/// An opening at `Ok` begins a run: nothing was told, the store carries the machine's first state, and each power cut left what one before the opening might have
/// left, perhaps with an empty file besides, or the map that the folder stood for.
pub fn openings_begin_runs<S: Site>()
    ensures { OpeningsBegin S.Site }
{
    calls_are_lines();
    folders_stand_for_one_map();
    steady_disks_are_left();
}

/// Each call at `Ok` keeps what a run has done so far, with its line obeyed: of one history the replies told so far are a front, the store carries its last
/// state, and each power cut left the map after a prefix of its writes.
pub fn calls_serve<S: Site>()
    ensures writes { WritesServe S.Site }
    ensures flushes { FlushesServe S.Site }
    ensures syncs { SyncsServe S.Site }
    ensures reopenings { ReopeningsServe S.Site }
    ensures quiet { QuietLinesServe S.Site }
    ensures reads { ReadsServe S.Site }
    ensures between { ReadsAnswer S.Site }
    ensures telling { TellingServes S.Site }
    ensures answered { AnsweredAreServed S.Site }
    ensures replied { RepliedAreServed S.Site }
{
    calls_are_lines();
    steady_disks_are_left();
}

/// A call that fails leaves a front of the replies told, and cuts that are those of a history with its line; one that meets a limit, those of the lines before it.
pub fn failures_serve<S: Site>()
    ensures writes { FailedWritesServe S.Site }
    ensures calls { FailedCallsServe S.Site }
    ensures telling { FailedTellingServes S.Site }
    ensures nothing { NothingFailed S.Site }
    ensures limits { LimitsServe S.Site }
    ensures reopening { ReopeningLimitsServe S.Site }
{
    calls_are_lines();
}

/// What serving has done is what the headline promises at the end: where the orders are served, or the whole script is and its last writes are
/// durable, where a reply is being told, and where a call has failed.
pub fn served_runs_end<R: Source, S: Site>()
    ensures served { ServedAreObeyed S.Site R.Source }
    ensures finished { FinishedHaveRun S.Site R.Source }
    ensures answering { AnsweringHaveFaltered S.Site R.Source }
    ensures failing { FailingHaveBegun S.Site R.Source }
{
    steady_disks_are_left();
    calls_are_lines();
    logs_have_the_batches_that_remain();
    synced_disks_keep_their_map();
}

/// A line that ends the run changes nothing of what a cut leaves, but for a front of it that was told; where a limit is met the run ends so.
pub fn error_lines_end_runs<R: Source, S: Site>()
    ensures cuts { ErrorLinesKeepCuts S.Site }
    ensures runs { ErrorLinesKeepRuns S.Site R.Source }
    ensures full { StoppedEndFull S.Site R.Source }
{}

/// The cuts of what was served are those of the run, and the logs on which a store stands are whole.
pub fn cuts_of_served_are_of_runs<R: Source, S: Site>()
    ensures cuts { CutsAreOfRun S.Site R.Source }
    ensures whole { StoresLeaveLogsWhole }
{
    steady_disks_stand();
    folders_stand_for_one_map();
}

/// What has to be shown at each status, for the headline's record on replies and the folder left.
pub fn statuses_answer<R: Source, S: Site>()
    ensures done { DoneAnswers S.Site R.Source }
    ensures taken { TakenAnswers S.Site R.Source }
    ensures full { FullAnswers S.Site R.Source }
    ensures differ { DifferAnswers S.Site R.Source }
    ensures failures { FailuresAnswer S.Site R.Source }
    ensures falters { FaltersAnswer S.Site R.Source }
    ensures in_part { LinesInPartAnswer S.Site R.Source }
{}

/// What has to be shown of power cuts, at any status; and the cuts of an opening, whether or not it fails, are cuts of the run.
pub fn statuses_survive<R: Source, S: Site>()
    ensures survive { CutsSurvive S.Site R.Source }
    ensures failed { OpeningsSurvive S.Site R.Source }
    ensures openings { OpeningsCutRuns S.Site }
    ensures refused { RefusedOpeningsCutRuns S.Site }
{}

/// A refused opening ends the run with a line that says so, and so does a line that was told whole.
pub fn refusals_end_runs<R: Source, S: Site>()
    ensures differs { DiffersEnd S.Site R.Source }
    ensures damage { DamageEnds S.Site R.Source }
    ensures full { FullOpeningsEnd S.Site R.Source }
    ensures told { LinesAreTold S.Site R.Source }
{
    refusals_are_one();
}

/// A line takes few file numbers: at most two for each entry that a flush finds in memory, and five besides. So where none is left, so many lines and
/// entries were there as the headline says.
pub fn numbers_are_few()
    ensures flush { FlushesTakeFew }
    ensures openings { OpeningsAreNumbered }
    ensures writes { WritesAreNumbered }
    ensures flushes { FlushesAreNumbered }
    ensures reopenings { ReopeningsAreNumbered }
    ensures quiet { QuietLinesAreNumbered }
    ensures room { RoomIsWithin }
    ensures pass { NumbersPass }
{}

/// What has to be shown at each status of what is refused and left alone; and no call writes a foreign name.
pub fn statuses_refuse<R: Source, S: Site>()
    ensures opened { OpenedRefuse S.Site R.Source }
    ensures full { FullRefuse S.Site R.Source }
    ensures differ { DifferRefuse S.Site R.Source }
    ensures corrupt { CorruptRefuse S.Site R.Source }
    ensures failures { FailuresRefuse S.Site R.Source }
    ensures found { ForeignAreFound }
    ensures own { ForeignAreNotOwn }
{
    refusals_are_one();
}
