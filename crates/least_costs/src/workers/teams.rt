//! Teams that share workers.

ghost use Rattle.std.specs.Prelude.{◌≡◌, ◌<◌, ◌≤◌};
ghost use Rattle.obim_engine.specs.declared.settings.TheConstants.{MAX_WORKERS};
ghost use Rattle.least_costs.specs.Teams.{team_size, workers_before};

use obim_engine::{Gate, MAX_WORKERS, Settings, Worklist};
use std::sync::Wait;

/// The workers of one task, numbered after those of the teams before.
#[derive(Clone, Copy, Debug, PartialEq, Eq)]
pub struct Team {
    pub first: u32,
    pub workers: u32,
    ghost within: { (1 ≤ workers) × (workers ≤ MAX_WORKERS) },
}

impl Team {
    /// The team at a place, of the teams that share these workers.
    pub fn at(place: usize, teams: usize, workers: u32) -> Team
        requires place { place < teams }
        requires teams { teams ≤ workers }
        requires few { workers ≤ MAX_WORKERS }
        ensures first { result.first ≡ workers_before workers teams place }
        ensures workers { result.workers ≡ team_size workers teams place }
    {
        let (place, teams) = (place as u32, teams as u32);
        let (each, more) = (workers / teams, workers % teams);
        Team {
            first: place * each + place.min(more),
            workers: if place < more { each + 1 } else { each },
        }
    }

    /// Returns these settings for the workers of the team.
    pub fn settings(self, settings: &Settings) -> Settings
        ensures workers { result.workers ≡ self.workers }
        ensures chunk { result.chunk ≡ settings.now.chunk }
        ensures buckets { result.buckets ≡ settings.now.buckets }
    {
        settings.with_workers(self.workers)
    }
}

/// The gate of all teams, for the workers of one.
#[derive(Drop)]
pub struct TeamGate<'a, G> {
    pub gate: &'a G,
    pub team: Team,
}

impl<G: Gate> Gate for TeamGate<'_, G> {
    fn pass<H: Wait>(&self, rt: &H, worker: u32, vertex: u32) {
        self.gate
            .pass(rt, self.team.first.saturating_add(worker), vertex);
    }

    fn end<H: Wait>(&self, rt: &H, worklist: Worklist) {
        self.gate.end(rt, worklist);
    }
}
