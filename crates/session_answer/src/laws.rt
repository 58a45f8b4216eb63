//! Laws of sessions: each is the contract of a function that does nothing.

ghost use Rattle.session_answer.specs.Laws.{CutSessionsBeginTheirReplies, RepliesAreUnique, SessionsHaveReplies};

/// A graph and requests within the limits have replies, whatever the session asks for.
pub fn sessions_have_replies()
    ensures { SessionsHaveReplies }
{
    job_answer::laws::asked_jobs_have_answers_by_lines();
}

/// A graph and what becomes of the requests after it have only one text of replies.
pub fn replies_are_unique()
    ensures { RepliesAreUnique }
{
    job_answer::laws::answer_texts_by_lines_are_unique();
}

/// At each fault of a session there is exactly one text of replies of which a prefix was written.
pub fn cut_sessions_begin_their_replies()
    ensures { CutSessionsBeginTheirReplies }
{
    sessions_have_replies();
    replies_are_unique();
}
