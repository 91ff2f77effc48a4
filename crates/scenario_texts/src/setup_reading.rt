//! Reads the lines before the commands: the cluster, the parameter set of its keys, and its liars.
ghost use Rattle.std.specs.Prelude.{◌≡◌, map, option_map, IfSome};
ghost use Rattle.ledger_model.specs.declared.version.Version.TheVariants.{One};
ghost use Rattle.scenario_texts.specs.Reading.{config_of, params_from};

use crate::fields::three_numbers;
use ledger_model::{AppKind, AppKinds, Config};
use lm_ots::{Params, TreeHeight, Width};

/// `config N T KIND`, in a program that has these kinds.
#[tactic(auto, unfolding(crate::specs::Reading::config_of))]
pub(crate) fn config(kinds: AppKinds, fields: &[&str]) -> Option<Config>
    ensures read { option_map (λ c. (c.replicas, c.faults, c.kind)) result ≡ config_of kinds (map (λ field. field.now) fields.now) }
    ensures first { IfSome result (λ config. config.frames ≡ One) }
{
    let (replicas, faults, number) = three_numbers(fields)?;
    let kind = AppKind::from_number(number)?;
    if !kinds.has(kind) {
        return None;
    }
    let replicas = u8::try_from(replicas).ok()?;
    let faults = u8::try_from(faults).ok()?;
    Config::new(replicas, faults, kind).ok()
}

/// The parameter set of a width and a height of the tree.
#[tactic(auto, unfolding(crate::specs::Reading::params_from))]
pub(crate) fn params(numbers: (u32, u32)) -> Option<Params>
    ensures { result ≡ params_from numbers }
{
    let width = match numbers.0 {
        4 => Width::W4,
        8 => Width::W8,
        _ => return None,
    };
    let height = match numbers.1 {
        5 => TreeHeight::H5,
        10 => TreeHeight::H10,
        _ => return None,
    };
    Some(Params { width, height })
}
