//! Seals messages with one end of the link and takes them with the other, across a joint of a pipe that loses words at its welds.
#![tactic(auto)]

ghost use Rattle.std.specs.Prelude.{IfOk, OnOk};
ghost use Rattle.weld.specs.Observed.{CountsItsRun, PrintsItsRun};

mod crossing;
mod failure;
mod hex;
mod joint;
mod line;
mod passage;
mod places;
mod report;
mod scenario;
mod sending;
mod span;
mod spot;
mod tally;

use crossing::Link;
use failure::Failure;
use fields::Lines;
use line::Line;
use link::Issuer;
use scenario::Plan;
use spot::SpotCheck;
use std::alloc::Global;
use std::io::Write;
use tally::Tally;

/// A run, and what there is to report of it.
#[derive(Drop)]
struct Findings {
    link: Link,
    lines: Vec<Line>,
    tally: Tally,
    spot: SpotCheck,
}

/// Makes the run of these messages, reads its log and counts what is seen there.
fn observed(heap: Global, plans: &[Plan]) -> Result<Findings, Failure>
    ensures { IfOk result (CountsItsRun plans.now) }
{
    let mut issuer = Issuer::new(scenario::RUN);
    let link = crossing::whole_run(heap, plans, &mut issuer)?;
    let events = passage::events(heap, &link.log)?;
    let lines = report::lines(heap, &events)?;
    let tally = Tally::of(&events);
    let spot = spot::spot_check(issuer.draw()?, scenario::thickness(0))?;
    Ok(Findings {
        link,
        lines,
        tally,
        spot,
    })
}

/// Prints the report of the run of these messages, where this build works out the known figures.
fn reported<W: Write>(heap: Global, plans: &[Plan], writer: &mut W) -> anyhow::Result<()>
    ensures { OnOk result (PrintsItsRun plans.now (W.contents writer.old) (W.contents writer.new)) }
{
    if !figures::self_test() {
        return Err(Failure::Figures.into());
    }
    let findings = observed(heap, plans)?;
    writeln!(writer, "{findings}")?;
    Ok(())
}

fn main(rt: HostRuntime) -> anyhow::Result<()> {
    // With no memory to hold a line back, each piece of it is written as it comes.
    match Lines::new(rt.alloc(), rt.stdout()) {
        Ok(mut lines) => reported(rt.alloc(), &scenario::PLANS, &mut lines),
        Err(_) => reported(rt.alloc(), &scenario::PLANS, &mut rt.stdout()),
    }
}
