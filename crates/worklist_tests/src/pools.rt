mod callers;
mod calls;
mod locked;
mod obim;
mod refusals;
mod threads;
mod widening;
