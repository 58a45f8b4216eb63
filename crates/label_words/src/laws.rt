//! The laws of the words: they are a lawful core, and each call is the event of its name.

ghost use Rattle.label_words.specs.Laws.{TakeIsItsEvent, ReadIsItsEvent, RelaxIsItsEvent};
ghost use Rattle.label_words.specs.Laws.{RaiseIsItsEvent, RaiseByIsItsEvent, SetMarkIsItsEvent};
ghost use Rattle.label_words.specs.Laws.{FinishIsItsEvent, KeepIsItsEvent, ReturnIsItsEvent};
ghost use Rattle.label_words.specs.Laws.{SeeIsItsEvent, SplitIsItsEvent, JoinIsItsEvent};
ghost use Rattle.label_words.specs.Laws.{LawfulWordsHoldACore, UnmarkedPauseIsLeast};
ghost use Rattle.label_words.specs.Laws.{ResumedRunsEndAlike, PausesAreLeastUpTo};
ghost use Rattle.label_words.specs.Laws.{FarPausesAreLeast, PausesAreLeastToward};

/// States that words hold a lawful core between any two steps.
pub fn lawful_words_hold_a_core()
    ensures { LawfulWordsHoldACore }
{}

/// Each call does to its word and its seat what its event does to the core.
pub fn calls_are_events()
    ensures take { TakeIsItsEvent }
    ensures read { ReadIsItsEvent }
    ensures relax { RelaxIsItsEvent }
    ensures raise { RaiseIsItsEvent }
    ensures raise_by { RaiseByIsItsEvent }
    ensures set_mark { SetMarkIsItsEvent }
    ensures finish { FinishIsItsEvent }
    ensures keep { KeepIsItsEvent }
    ensures give_back { ReturnIsItsEvent }
    ensures see { SeeIsItsEvent }
{}

/// A split and a join do to seats what their events do to views, and change no word.
pub fn splits_and_joins_are_events()
    ensures split { SplitIsItsEvent }
    ensures join { JoinIsItsEvent }
{}

/// A pause in which no vertex is marked has least labels.
pub fn unmarked_pauses_are_least()
    ensures { UnmarkedPauseIsLeast }
{}

/// A run that goes on from a pause ends with the least labels of the pause's seeds, or with a pause of them. No label
/// rises.
pub fn resumed_runs_end_alike()
    ensures { ResumedRunsEndAlike }
{}

/// A pause whose marked vertices have labels of at least a limit has least labels up to it. So a run may stop early.
pub fn pauses_are_least_up_to()
    ensures { PausesAreLeastUpTo }
{}

/// States that labels of a pause are least up to a limit on the way to a vertex, if marked vertices are past it. So a run
/// may leave alone what is too far from the vertex.
pub fn pauses_are_least_toward()
    ensures { PausesAreLeastToward }
{}

/// States that a pause has least labels of targets, if its marked vertices are past them by bounds.
pub fn far_pauses_are_least()
    ensures { FarPausesAreLeast }
{}
