//! The runs of the link: a sealer and a receiver of one key that work by different implementations.
ghost use Rattle.std.specs.Prelude.{◌≡◌, ◌+◌, ◌⊎◌, length, IfErr, IfOk, OnOk};
ghost use Rattle.sss.specs.Cipher.{KeyFits};
ghost use Rattle.sss.specs.declared.Fault.TheVariants.{Key};
ghost use Rattle.weld.specs.Crossings.{Crosses};
ghost use Rattle.weld.specs.Failures.{OfMemory};
ghost use Rattle.weld.specs.Runs.{IsRunOf, KeepsLaw};
ghost use Rattle.weld.specs.Scenario.{the_key};
ghost use Rattle.weld.specs.declared.failure.Failure.TheVariants.{Refused};

use crate::failure::Failure;
use crate::scenario::{KEY, Plan, RUN};
use crate::{joint, sending};
use functions::{FieldRule, FilledTable, FromKey, PrintedTable};
use link::{Call, History, Issuer};
use std::alloc::Global;

/// A sealer by tables and a receiver by rules, after some calls.
pub type Link = History<FilledTable, PrintedTable, FromKey, FieldRule>;

/// Makes the calls of a list on a new sealer and a new receiver of one key. The law of a loss holds of what comes of it.
pub(crate) fn run(key: &[u8], calls: Vec<Call>) -> Result<Link, Failure>
    ensures law { IfOk result (KeepsLaw key.now) }
    ensures run { IfOk result (IsRunOf key.now calls.items) }
    ensures failure { IfErr result (λ e. OfMemory e ⊎ ((KeyFits key.now → ⊥) × (e ≡ Refused Key))) }
{
    let filled = FilledTable::of(key)?;
    let worked_out = FromKey::of(key)?;
    let log = Vec::new(*calls.allocator());
    Ok(link::run((filled, PrintedTable), (worked_out, FieldRule), calls, log)?)
}

/// The run of the whole link, by the plans of its messages. A first run with the sealer alone tells the wire words and
/// tags that the joint then carries. The law of a loss holds of the whole run.
pub(crate) fn whole_run(heap: Global, plans: &[Plan], issuer: &mut Issuer) -> Result<Link, Failure>
    ensures law { IfOk result (KeepsLaw the_key) }
    ensures crosses { IfOk result (Crosses plans.now issuer.old.run issuer.old.issued) }
    ensures issued { OnOk result (issuer.new ≡ record issuer.old { issued = issuer.old.issued + length plans.now }) }
{
    let mut rehearsal = Issuer::new(RUN);
    let sealed = run(&KEY, sending::calls(heap, plans, &mut rehearsal)?)?;
    let calls = joint::calls(plans, sending::calls(heap, plans, issuer)?, &sealed.log)?;
    run(&KEY, calls)
}
