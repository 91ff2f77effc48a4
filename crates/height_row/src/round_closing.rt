//! How each open height closes its round.
ghost use Rattle.std.specs.Prelude.{◌≡◌, ◌<◌, ◌≤◌, ◌+◌, ℕ, map, IfOk, IfSome};
ghost use Rattle.std.specs.List.{AllByRecursion};
ghost use Rattle.ledger_model.specs.Limits.{last_round};
ghost use Rattle.ledger_model.specs.declared.config.Config.{Config};
ghost use Rattle.ledger_model.specs.Spelling.{IsStatement};
ghost use Rattle.instance.specs.Plans.{opened_effects};
ghost use Rattle.height_row.specs.Closings.{AreClosings};
ghost use Rattle.height_row.specs.Heights.{height_plan, closed_each};
ghost use Rattle.height_row.specs.Slots.{AreSlots};
ghost use Rattle.tally.specs.Tallies.{all_read};

use instance::{Instance, RoundEffects, RoundPlan, RoundStatement};
use std::alloc::{AllocError, Global};

/// How one open height closes its round: the prepared effects, and the replica's own statement there.
#[derive(Drop)]
pub struct RoundClosing {
    pub ending: RoundEffects,
    pub made: RoundStatement,
}

/// The plan for each open height as the next round opens, in order.
pub(crate) fn plan_each(
    alloc: Global,
    slots: &[Option<Instance>],
    clock: u32,
) -> Result<Vec<RoundPlan>, AllocError>
    requires clock { clock < last_round }
    ensures plans { IfOk result (λ plans. plans.items ≡ map (height_plan (clock + 1)) (all_read slots.now)) }
    ensures spelled { IfOk result (λ plans. AllByRecursion (λ plan. IfSome plan.statement IsStatement) plans.items) }
{
    let mut plans = Vec::with_capacity(alloc, slots.len())?;
    for slot in slots {
        if let Some(instance) = slot {
            plans.push(instance.plan_end(alloc, clock)?)?;
        }
    }
    Ok(plans)
}

/// Prepares the effects of ending round `clock` at each open height, in order, which don't depend on what is sent.
pub(crate) fn prepare_each(
    alloc: Global,
    slots: &[Option<Instance>],
    clock: u32,
) -> Result<Vec<RoundEffects>, AllocError>
    requires clock { clock < last_round }
    ensures { IfOk result (λ endings. endings.items ≡ map (λ row. opened_effects row (clock + 1)) (all_read slots.now)) }
{
    let mut endings = Vec::with_capacity(alloc, slots.len())?;
    for slot in slots {
        if let Some(instance) = slot {
            endings.push(instance.prepare_end(alloc, clock)?)?;
        }
    }
    Ok(endings)
}

/// Opens the next round at each open height, in order. Allocates nothing.
pub(crate) fn close_each(slots: &mut [Option<Instance>], closings: Vec<RoundClosing>, clock: u32)
    requires clock { clock < last_round }
    requires closings { AreClosings (clock + 1) (all_read slots.old) closings.items }
    ensures rows { all_read slots.new ≡ closed_each (clock + 1) (all_read slots.old) (map (λ c. c.made) closings.items) }
    // Each slot keeps its height.
    ensures slots { (config : Config) (id floor : ℕ) → AreSlots config id floor slots.old → AreSlots config id floor slots.new }
{
    let mut closings = closings.into_iter();
    for slot in slots.iter_mut() {
        if let Some(instance) = slot {
            let closing = closings.next().unwrap();
            instance.close(closing.ending, closing.made, clock);
        }
    }
}
