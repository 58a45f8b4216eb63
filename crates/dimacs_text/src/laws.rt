//! Laws of texts: each is the contract of a function that does nothing.

ghost use Rattle.dimacs_text.specs.Laws.{EachTextIsAJobOrFails, JobTextsHaveNoFault};
ghost use Rattle.dimacs_text.specs.Laws.{ATextHasOneJob, ATextHasOneFirstFault};

/// Each text is a job's or has a first fault.
pub fn each_text_is_a_job_or_fails()
    ensures { EachTextIsAJobOrFails }
{}

/// A text that is a job's has no first fault.
pub fn job_texts_have_no_fault()
    ensures { JobTextsHaveNoFault }
{}

/// A text is that of at most one job.
pub fn a_text_has_one_job()
    ensures { ATextHasOneJob }
{}

/// A text has at most one first fault: one line, and one kind.
pub fn a_text_has_one_first_fault()
    ensures { ATextHasOneFirstFault }
{}
