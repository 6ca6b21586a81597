//! What workers do with their passes: none of the calls but `new` takes memory, and none waits.
ghost use Rattle.std.specs.Prelude.{◌≡◌, ◌+◌, ◌<◌, ◌≤◌, length, map, All, IfOk, IfSome, IfNone};
ghost use Rattle.fsl_claim.specs.Claims.{view, IsPassOf, IsNew, StandsForSome};
ghost use Rattle.fsl_claim.specs.Steps.{drew, ended_once_more, looked, told, first_of_two, second_of_two, together, Settled};
ghost use Rattle.fsl_claim.specs.Views.{Drawn, times, count_reported, least_reported, least_seen};

use crate::claims::{Claiming, Claims, Pass};
use crate::steps::{Deal, Draw, Look, Merge, Report, Settle};
use crate::view::Plan;
use atomic_table::Table;
use fsl_base::List;
use std::alloc::{AllocError, Global};

impl Claims {
    /// Claims on the units below `units`, and a pass for each of `workers` workers.
    pub fn new(alloc: Global, units: u32, workers: u32) -> Result<Claiming, AllocError>
        requires { 0 < workers }
        ensures claims { IfOk result (λ made. (made.claims.units ≡ units) × (made.claims.workers ≡ workers)) }
        ensures count { IfOk result (λ made. length made.passes ≡ workers) }
        ensures passes { IfOk result (λ made. All (IsNew made.claims) made.passes) }
    {
        let plan = Plan { units, workers };
        let (table, seat) = Table::of_words(alloc, &[0, u64::from(units)], &plan)?;
        let claims = Claims::over(table, units, workers);
        let mut first = Pass { seat };
        let mut passes = List::new(alloc);
        for _turn in 1..workers {
            passes.push(claims.deal(&mut first))?;
        }
        passes.push(first)?;
        Ok(Claiming { claims, passes })
    }

    /// Draws a number that no other draw of these claims answers; `None` once all are drawn.
    pub fn draw(&self, pass: &mut Pass) -> Option<u32>
        requires of { IsPassOf self.now pass.old }
        requires open { (view pass.old).ended ≡ 0 }
        ensures of { IsPassOf self.now pass.new }
        ensures some { IfSome result (λ unit. (unit < self.now.units) × (view pass.new ≡ drew (view pass.old) unit)) }
        ensures few { length (view pass.new).drawn ≤ self.now.units }
        ensures none { IfNone result (view pass.new ≡ ended_once_more (view pass.old)) }
    {
        let found = self.table.shared.fetch_add::<Draw>(&mut pass.seat, 0, 1);
        if found < u64::from(self.units) {
            Some(found as u32)
        } else {
            None
        }
    }

    /// The least number reported so far; the number of units where none was.
    pub fn least(&self, pass: &mut Pass) -> u32
        requires { IsPassOf self.now pass.old }
        ensures of { IsPassOf self.now pass.new }
        ensures seen { view pass.new ≡ looked (view pass.old) result }
        ensures falls { result ≤ (view pass.old).seen }
        ensures within { result ≤ self.now.units }
    {
        let _units = self.units;
        self.table.shared.load::<Look>(&mut pass.seat, 1) as u32
    }

    /// Reports a number that this pass drew.
    pub fn report(&self, pass: &mut Pass, unit: u32)
        requires of { IsPassOf self.now pass.old }
        requires drawn { 0 < times unit (view pass.old).drawn }
        ensures of { IsPassOf self.now pass.new }
        ensures told { view pass.new ≡ told (view pass.old) unit }
    {
        self.table
            .shared
            .fetch_min::<Report>(&mut pass.seat, 1, u64::from(unit));
    }

    /// The least number that any of the passes reported; `None` exactly where none did. It takes all
    /// the passes that were made with these claims.
    pub fn gather(self, passes: List<Pass>) -> Option<u32>
        requires of { All (IsPassOf self) passes }
        requires all { length passes ≡ self.workers }
        ensures some { IfSome result (λ unit. (unit < self.units) × (unit ≡ least_reported self.units (map view passes))) }
        ensures none { IfNone result (count_reported (map view passes) ≡ 0) }
        ensures none_below { IfNone result (least_reported self.units (map view passes) ≡ self.units) }
        ensures seen { least_reported self.units (map view passes) ≤ least_seen self.units (map view passes) }
        ensures drawn { Drawn self.units (map view passes) }
    {
        let mut others = passes;
        let Some(mut one) = others.pop() else {
            unreachable!()
        };
        while let Some(other) = others.pop() {
            self.merge(&mut one, other);
        }
        let least = self.settle(&mut one);
        if least < self.units {
            Some(least)
        } else {
            None
        }
    }

    // A pass that has done nothing yet is made two.
    fn deal(&self, first: &mut Pass) -> Pass
        requires of { StandsForSome self.now first.old }
        requires two { 1 < (view first.old).passes }
        requires none_ended { (view first.old).ended ≡ 0 }
        ensures of { StandsForSome self.now first.new × IsPassOf self.now result }
        ensures first { view first.new ≡ first_of_two (view first.old) }
        ensures second { view result ≡ second_of_two (view first.old) }
    {
        Pass {
            seat: self.table.shared.split_seat::<Deal>(&mut first.seat),
        }
    }

    // All that the other pass knew goes over to the one.
    fn merge(&self, one: &mut Pass, other: Pass)
        requires one { StandsForSome self.now one.old }
        requires other { IsPassOf self.now other }
        ensures of { StandsForSome self.now one.new }
        ensures together { view one.new ≡ together (view one.old) (view other) }
    {
        self.table
            .shared
            .join_seat::<Merge>(&mut one.seat, other.seat);
    }

    // The last look, by a pass that stands for all.
    fn settle(&self, one: &mut Pass) -> u32
        requires of { StandsForSome self.now one.old }
        requires all { (view one.old).passes ≡ self.now.workers }
        ensures { Settled self.now.units (view one.old) result }
    {
        let _units = self.units;
        self.table.shared.load::<Settle>(&mut one.seat, 1) as u32
    }
}
