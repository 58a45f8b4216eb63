//! Laws of every graph in rows.

ghost use Rattle.csr_graph.specs.Graph.{RowsAreRuns, RowsDetermine, RunsAreRows};

/// The arcs that leave a vertex stand from its first place to its end.
pub fn rows_are_runs()
    ensures { RowsAreRuns }
{}

/// No other arc stands from its first place to its end.
pub fn runs_are_rows()
    ensures { RunsAreRows }
{}

/// Rows determine the list of arcs.
pub fn rows_determine()
    ensures { RowsDetermine }
{}
