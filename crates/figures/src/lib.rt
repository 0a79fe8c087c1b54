//! Known figures of the cipher and of the link, worked out by this code: a test to run before the first message.
#![tactic(auto)]

ghost use Rattle.std.specs.Prelude.{◌≡◌, true};
ghost use Rattle.figures.specs.Figures.{FiguresHold};

mod issuing;
mod receiving;

use sss::Fault;

/// Whether this build works out the known figures as they are published. It does: `false` tells of a broken machine or compiler.
pub fn self_test() -> bool
    ensures value { result ≡ true }
    ensures figures { FiguresHold }
{
    functions::self_test() & link_figures().unwrap_or(false)
}

/// The figures of the link.
fn link_figures() -> Result<bool, Fault>
    ensures { result ≡ Ok true }
{
    Ok(receiving::seventeen_sealed()? & receiving::open_after_ten()? & issuing::third_of_run_one()?)
}
