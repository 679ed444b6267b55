//! Programs that do wrong, each refused by what a run keeps; and calls that keep it.
ghost use Rattle.geo_headline.specs.Endings.{Reported};
ghost use Rattle.geo_headline.specs.Modes.{StepMode};
ghost use Rattle.geo_headline.specs.Headline.{KeepsAll};
ghost use Rattle.geo_model.specs.World.{Plan, World};
ghost use Rattle.geo_model.specs.declared.step.Entry.{Entry};
ghost use Rattle.geo_rows.specs.RightCalls.{later_plan, quiet_call};
ghost use Rattle.geo_rows.specs.WrongPrograms.{AnswersDiskFault, ActsOnNoWords, AnswersFaultOfScript, AnswersFaultOfTrace, AnswersFullAtOnce, AnswersFullTooEarly, AnswersFullWithoutLog, AnswersNo, AnswersNoWords, AnswersReadFault, AnswersTooLong, AnswersUsage, AnswersWriteFault, AsksInSecret, AsksOtherwise, BlamesAnotherDisk, DropsDisk, GivesAgain, HidesDiskFault, HidesReadFault, HidesWriteFault, IdlesAtEvent, InventsDisk, InventsLentDisk, InventsSize, IsRefused, KeepsDisk, LeavesAllToTheDrain, LosesImage, ReadsOn, RunsTrace, SaysYes, TakesAgain, TakesAnotherFirst, WritesOn};
ghost use Rattle.std.specs.Prelude.{List};

/// A program that always answers with one of the statuses 1 to 5 and 7 to 9 doesn't keep what a run keeps, whatever it
/// prints, since each of them has its cause. Want of memory (6) needs none.
#[tactic(auto, using(crate::proofs::WrongPrograms::constant_answers_are_refused))]
pub fn constant_answers_are_refused()
    ensures usage { IsRefused AnswersUsage }
    ensures fault_of_script { IsRefused AnswersFaultOfScript }
    ensures fault_of_trace { IsRefused AnswersFaultOfTrace }
    ensures read_fault { IsRefused AnswersReadFault }
    ensures write_fault { IsRefused AnswersWriteFault }
    ensures disk_fault { IsRefused AnswersDiskFault }
    ensures full_without_log { IsRefused AnswersFullWithoutLog }
    ensures full_at_once { IsRefused AnswersFullAtOnce }
    ensures full_too_early { IsRefused AnswersFullTooEarly }
    ensures too_long { IsRefused AnswersTooLong }
    ensures no { IsRefused AnswersNo }
{}

/// Neither does one that answers `yes` to a trace that doesn't hold, or runs a trace as a script.
#[tactic(auto, using(crate::proofs::WrongPrograms::wrong_verdicts_are_refused))]
pub fn wrong_verdicts_are_refused()
    ensures says_yes { IsRefused SaysYes }
    ensures runs_trace { IsRefused RunsTrace }
{}

/// Neither does one that keeps a disk which it could give back, blames another, loses an image, or invents a disk.
#[tactic(auto, using(crate::proofs::WrongDisks::lost_disks_are_refused))]
pub fn lost_disks_are_refused()
    ensures keeps_disk { IsRefused KeepsDisk }
    ensures drops_disk { IsRefused DropsDisk }
    ensures blames_another { IsRefused BlamesAnotherDisk }
    ensures loses_image { IsRefused LosesImage }
    ensures invents_disk { IsRefused InventsDisk }
    ensures invents_lent_disk { IsRefused InventsLentDisk }
{}

/// Neither does one that keeps a failure of the outside or a call of a disk to itself, by trying again, whether it then
/// says so or not, or by saying something else, or that runs its mesh with sizes that the disks haven't, or takes another disk first.
#[tactic(auto, using(crate::proofs::WrongCalls::hidden_calls_are_refused))]
pub fn hidden_calls_are_refused()
    ensures write_fault { IsRefused HidesWriteFault }
    ensures read_fault { IsRefused HidesReadFault }
    ensures writes_on { IsRefused WritesOn }
    ensures reads_on { IsRefused ReadsOn }
    ensures gives_again { IsRefused GivesAgain }
    ensures takes_again { IsRefused TakesAgain }
    ensures asks_in_secret { IsRefused AsksInSecret }
    ensures asks_otherwise { IsRefused AsksOtherwise }
    ensures disk_fault { IsRefused HidesDiskFault }
    ensures invents_size { IsRefused InventsSize }
    ensures takes_another_first { IsRefused TakesAnotherFirst }
{}

/// Neither does one that answers words that aren't accepted by another status than 1, or 4 where the sink fails, or that
/// reads its source or calls its shelf on them.
#[tactic(auto, using(crate::proofs::WrongWords::no_words_are_refused))]
pub fn no_words_are_refused()
    ensures status { IsRefused AnswersNoWords }
    ensures outside { IsRefused ActsOnNoWords }
{}

/// Neither does one that starts no job on a word that asks for threads; and an event worker that doesn't look isn't
/// idle.
#[tactic(auto, using(crate::proofs::IdleJobs::drain_refused, crate::proofs::IdleJobs::event_worker_refused))]
pub fn idle_jobs_are_refused()
    ensures drain { IsRefused LeavesAllToTheDrain }
    ensures event_worker { (opened : World) (plan : Plan) (log : List Entry) → IdlesAtEvent opened plan log → ⊥ }
{}

/// What a run keeps can be kept: by a call of status 0, with a log, over a disk that isn't to stand yet.
#[tactic(auto, using(crate::proofs::RightCalls::quiet))]
pub fn a_right_call_keeps_all()
    ensures { KeepsAll quiet_call StepMode later_plan Reported }
{}
