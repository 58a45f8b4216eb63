mod bag;
mod callers;
mod chunks;
mod faults;
mod helpers;
mod logs;
mod refusals;
mod threads;
