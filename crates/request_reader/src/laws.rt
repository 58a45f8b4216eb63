//! Laws of requests: each is the contract of a function that does nothing.

ghost use Rattle.request_reader.specs.Laws.{AJobIsOneRequest, EachRequestHasItsSectionLine, LinesComeToOneList, WhatWasSaidStays};

/// States that lines after a graph come to at most one list of outcomes, if memory is not refused.
pub fn lines_come_to_one_list()
    ensures { LinesComeToOneList }
{}

/// States that what a reader has said of lines is a prefix of what all lines come to, whatever more of them come.
pub fn what_was_said_stays()
    ensures { WhatWasSaidStays }
{}

/// The lines of a job's text after its graph are one request, if no arcs are added and something is asked.
pub fn a_job_is_one_request()
    ensures { AJobIsOneRequest }
{}

/// There are as many outcomes as section lines, or one more: lines at the end may be refused without one. A request
/// that lacks lines at the end has one too, and no outcome.
pub fn each_request_has_its_section_line()
    ensures { EachRequestHasItsSectionLine }
{}
