//! The laws of the events, over label functions, mark functions, the total and the views. The laws of cover ask nothing
//! of total, credits or saw, and those of the account nothing of labels.

ghost use Rattle.relax_core.specs.Laws.{
  EventsKeepLawful,
  FinishingKeepsAccount,
  FinishingKeepsCover,
  JoiningKeepsAccount,
  JoiningKeepsCover,
  KeepingKeepsAccount,
  KeepingKeepsCover,
  LoweringAttains,
  MarkingKeepsAccount,
  MarkingKeepsCover,
  QuietIsSettled,
  RaisingByKeepsAccount,
  RaisingKeepsAccount,
  ReadingKeepsAccount,
  ReadingKeepsCover,
  RelaxingKeepsAccount,
  RelaxingKeepsCover,
  ReturningKeepsAccount,
  ReturningKeepsCover,
  RunsDontStop,
  RunsKeepLawful,
  SeeingKeepsAccount,
  SplittingKeepsAccount,
  SplittingKeepsCover,
  StayingKeepsCover,
  StopsOnce,
  TakingKeepsAccount,
  TakingKeepsCover,
  TotalIsBounded,
  ZeroIsLeast,
};

/// States that what a seat takes stays covered, and that the mark's credit is now the seat's.
pub fn taking()
    ensures cover { TakingKeepsCover }
    ensures account { TakingKeepsAccount }
{}

/// A seat that reads a label has the whole row to relax with it.
pub fn reading()
    ensures cover { ReadingKeepsCover }
    ensures account { ReadingKeepsAccount }
{}

/// A seat that relaxes an arc owes the head a mark if its label fell.
pub fn relaxing()
    ensures cover { RelaxingKeepsCover }
    ensures account { RelaxingKeepsAccount }
    ensures attained { LoweringAttains }
{}

/// A seat that raises the total holds what it held.
pub fn raising()
    ensures cover { StayingKeepsCover }
    ensures account { RaisingKeepsAccount }
{}

/// A seat that raises the total by several credits holds what it held.
pub fn raising_by()
    ensures cover { StayingKeepsCover }
    ensures account { RaisingByKeepsAccount }
{}

/// A seat that sets a mark hands the head over to it.
pub fn marking()
    ensures cover { MarkingKeepsCover }
    ensures account { MarkingKeepsAccount }
{}

/// A seat at its row's end holds no arc, and its credits leave the total.
pub fn finishing()
    ensures cover { FinishingKeepsCover }
    ensures account { FinishingKeepsAccount }
{}

/// A seat at its row's end holds no arc, and keeps its credits.
pub fn keeping()
    ensures cover { KeepingKeepsCover }
    ensures account { KeepingKeepsAccount }
{}

/// A seat with credits alone gives some back.
pub fn returning()
    ensures cover { ReturningKeepsCover }
    ensures account { ReturningKeepsAccount }
{}

/// A seat that looks at the total holds what it held.
pub fn seeing()
    ensures cover { StayingKeepsCover }
    ensures account { SeeingKeepsAccount }
{}

/// An idle seat is split in two.
pub fn splitting()
    ensures cover { SplittingKeepsCover }
    ensures account { SplittingKeepsAccount }
{}

/// Two idle seats are joined.
pub fn joining()
    ensures cover { JoiningKeepsCover }
    ensures account { JoiningKeepsAccount }
{}

/// The total never wraps in 64 bits.
pub fn bound()
    ensures { TotalIsBounded }
{}

/// States that every arc is relaxed once nothing is marked or held. A total of 0 says so, and then the labels are
/// least.
pub fn closing()
    ensures settled { QuietIsSettled }
    ensures least { ZeroIsLeast }
{}

/// Events lead from a lawful state to a lawful state.
pub fn running()
    ensures event { EventsKeepLawful }
    ensures run { RunsKeepLawful }
{}

/// A list of events is a run or stops at one place, so it determines what `replay` returns.
pub fn stopping()
    ensures run { RunsDontStop }
    ensures once { StopsOnce }
{}
