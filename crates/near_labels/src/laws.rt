//! The laws of two searches that meet.

ghost use Rattle.near_labels.specs.Meeting.{FarByLabelsIsPast, MeetingIsLeast};
ghost use Rattle.near_labels.specs.UpDown.{MeetingAboveIsLeast};

/// States that the least sum of a vertex's two labels is the least cost from the source to the target. The lowest
/// marked labels of the two sides must have no lower sum with the weight of an arc between them.
pub fn meeting_is_least()
    ensures { MeetingIsLeast }
{}

/// States that a walk on to the target costs at least what a search from there tells: its label of a vertex, or if that is
/// less, the lowest that waits there with the weight of an arc.
pub fn far_by_labels_is_past()
    ensures { FarByLabelsIsPast }
{}

/// States that the least sum of a vertex's two labels, each along arcs of a graph of its own, is the least cost of two walks
/// that meet. On neither side a lower label may be marked.
pub fn meeting_above_is_least()
    ensures { MeetingAboveIsLeast }
{
    label_words::laws::pauses_are_least_up_to();
}
