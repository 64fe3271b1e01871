//! The lease of a drawing: its model, and which times meet the term that keeps two people from writing at once.
#![tactic(auto)]

mod lists;
mod sentences;
mod standing;

use anyhow::anyhow;
use report::Formula;
use rows::Valuation;
use sentences::Report;
use standing::{Standing, TERM};

// One unit of time is a second, so a value of 1 is a millisecond.
const SCALE: u32 = 1000;

fn report_setting(rt: &impl Print, renew: u32, keep: u32) -> anyhow::Result<()> {
    let values = [renew, keep];
    let standing = Standing::of(&Valuation {
        scale: SCALE,
        values: &values,
    });
    println!(rt; "At scale {SCALE}, the setting p1 = {renew}, p2 = {keep} {standing}.")?;
    Ok(())
}

fn main(rt: HostRuntime) -> anyhow::Result<()> {
    let term = Formula { row: TERM };
    println!(rt; "An editor of a drawing must renew within p1; a silent editor keeps it for p2.")?;
    let model = lists::lease(rt.alloc())?;
    if !model.is_well_formed() {
        return Err(anyhow!("the lists of the lease are not well-formed"));
    }
    let report = Report {
        rt: &rt,
        model: &model,
    };
    report.all()?;
    println!(rt; "The term is {term}: a drawing is kept longer than an editor may take to renew.")?;
    report_setting(&rt, 30_000, 45_000)?;
    report_setting(&rt, 45_000, 45_000)
}
