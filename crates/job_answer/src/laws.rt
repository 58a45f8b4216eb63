//! Laws of answers.

ghost use Rattle.job_answer.specs.AnswerText.{AnswerTextsAreUnique, BlocksAreUnique};
ghost use Rattle.job_answer.specs.Costs.{AnswersSayCosts, AnswersSayPairCosts, AnswersSayComponents};
ghost use Rattle.job_answer.specs.Existence.{AskedJobsHaveAnswers, AskedJobsHaveAnswersByLines};
ghost use Rattle.job_answer.specs.Parts.{AnswersOfPartsJoin};
ghost use Rattle.job_answer.specs.Short.{RawLabelsSayTheSame, RawPairsSayTheSame, TotalsAddUp};
ghost use Rattle.job_answer.specs.Within.{AnswerTextsByLinesAreUnique, AnswersSayCostsWithin, LinesAreUnique};

/// A source has only one block of a kind, and so have a pair and components.
pub fn blocks_are_unique()
    ensures { BlocksAreUnique }
{
    route_walks::laws::least_labels_are_unique();
    walk_report::laws::hops_and_parents_are_unique();
}

/// A source has only one block by lines within a bound or in short.
pub fn lines_are_unique()
    ensures { LinesAreUnique }
{
    route_walks::laws::least_labels_are_unique();
    walk_report::laws::hops_and_parents_are_unique();
    blocks_are_unique();
}

/// A job has only one answer text of a kind, however the labels were worked out.
pub fn answer_texts_are_unique()
    ensures { AnswerTextsAreUnique }
{
    blocks_are_unique();
}

/// A job has only one answer text by any lines.
pub fn answer_texts_by_lines_are_unique()
    ensures { AnswerTextsByLinesAreUnique }
{
    blocks_are_unique();
    lines_are_unique();
}

/// A job within the limits has an answer text of each kind, unless it asks for nothing.
pub fn asked_jobs_have_answers()
    ensures { AskedJobsHaveAnswers }
{
    route_walks::laws::least_labels_exist();
    walk_report::laws::hops_and_parents_exist();
}

/// A job within the limits has an answer text by any lines, unless they are within a bound and it has pairs.
pub fn asked_jobs_have_answers_by_lines()
    ensures { AskedJobsHaveAnswersByLines }
{
    route_walks::laws::least_labels_exist();
    walk_report::laws::hops_and_parents_exist();
}

/// In an answer of distances or levels, a vertex's line says `inf` if no walk leads there, and else what the cheapest
/// costs. With walks the next line has the vertices of such a walk, with the fewest arcs.
pub fn answers_say_costs()
    ensures { AnswersSayCosts }
{
    route_walks::laws::inf_means_no_walk();
    walk_report::laws::printed_walks_are_walks();
}

/// Within a bound exactly the vertices have a line to which a walk leads that costs no more. It says what the cheapest
/// costs, and with walks its vertices.
pub fn answers_say_costs_within()
    ensures { AnswersSayCostsWithin }
{
    route_walks::laws::inf_means_no_walk();
    walk_report::laws::printed_walks_are_walks();
}

/// The line of a pair says `inf` or the cost from source to target, with its walk if asked for.
pub fn answers_say_pair_costs()
    ensures { AnswersSayPairCosts }
{
    route_walks::laws::inf_means_no_walk();
    walk_report::laws::printed_walks_are_walks();
}

/// In an answer of components, a line says the least vertex that arcs connect with it, whichever way they point.
pub fn answers_say_components()
    ensures { AnswersSayComponents }
{
    route_walks::laws::least_labels_are_components();
}

/// Raw labels are those of the lines.
pub fn raw_labels_say_the_same()
    ensures { RawLabelsSayTheSame }
{
    route_walks::laws::least_labels_are_unique();
}

/// The bytes of a pair are the label that its line says.
pub fn raw_pairs_say_the_same()
    ensures { RawPairsSayTheSame }
{
    route_walks::laws::least_labels_are_unique();
}

/// A line of totals says what the labels of the lines add up to.
pub fn totals_add_up()
    ensures { TotalsAddUp }
{
    route_walks::laws::least_labels_are_unique();
}

/// If the sources or pairs of a job are cut in two, the answers of both parts, one after the other, are the job's. Each
/// part has the graph and the added arcs.
pub fn answers_of_parts_join()
    ensures { AnswersOfPartsJoin }
{}
