//! Which cluster histories are of: that of the options, or that of a cluster's file.
ghost use Rattle.std.specs.Prelude.{◌≡◌, ℕ, List, Option, true, IfOk, IfErr, IfSome, IfNone, OnErr, All, Contains, Some, None, codes, map};
ghost use Rattle.clap.specs.Words.{found_of, rows_of, first_of};
ghost use Rattle.ledger_model.specs.Meanings.{Meanings};
ghost use Rattle.ledger_model.specs.Numbers.{has_kind};
ghost use Rattle.cluster_setup.specs.declared.known_cluster.KnownCluster.{KnownCluster};
ghost use Rattle.cluster_setup.specs.declared.public_cluster.PublicCluster.{PublicCluster};
ghost use Rattle.command_line.specs.Faults.{IsRightOf, IsUnfit};
ghost use Rattle.command_line.specs.Options.{ContainsNoOther, HasCluster, HasOption, IsNamed, OptionTable, SetsKnown, cluster_names};
ghost use Rattle.command_line.specs.declared.seed_words.SeedWords.TheVariants.{Digits};

use crate::given_keys::GivenKeys;
use crate::options::{cluster, is_named, optional_text};
use crate::seed_words::SeedWords;
use crate::usage_fault::UsageFault;
use app_states::Opening;
use clap::ArgMatches;
use cluster_setup::{KnownCluster, PublicCluster};

/// The options that a cluster's file stands for.
const IN_FILE: [&str; 8] = ["n", "t", "kind", "w", "tree", "frames", "seed", "seed-file"];

/// The first of these options that the words contain.
fn contained(matches: &ArgMatches<'_>, options: &[&'static str]) -> Option<&'static str>
    ensures some { IfSome result (λ option. Contains (map (λ o. o.now) options.now) option.now) }
    ensures named { IfSome result (λ option. IsNamed (rows_of (found_of matches.now)) option.now) }
    ensures none { IfNone result (All (λ option. IsNamed (rows_of (found_of matches.now)) option → ⊥) (map (λ o. o.now) options.now)) }
{
    for option in options {
        if is_named(matches, option) {
            return Some(option);
        }
    }
    None
}

/// The cluster of the file that the words name, which is the given one.
fn file_cluster<'a, A: Opening>(
    matches: &ArgMatches<'a>,
    file: &'a str,
    given: Option<PublicCluster>,
) -> Result<PublicCluster, UsageFault<'a>>
    requires { first_of (codes "cluster") (rows_of (found_of matches.now)) ≡ Some file.now }
    ensures alone { IfOk result (λ _. ContainsNoOther (rows_of (found_of matches.now))) }
    ensures given { IfOk result (λ c. given ≡ Some c) }
    ensures kind { IfOk result (λ c. has_kind A.words.kinds c.config.kind ≡ true) }
    ensures none { OnErr result (ContainsNoOther (rows_of (found_of matches.now)) → (c : PublicCluster) → given ≡ Some c
        → has_kind A.words.kinds c.config.kind ≡ true → ⊥) }
    ensures unfit { IfErr result (IsUnfit A.words.kinds given) }
    ensures right { (meaning : Meanings) (seed : Option (List ℕ)) (table : OptionTable) → HasOption A.words.kinds table (codes "cluster")
        → IfErr result (IsRightOf A.words.kinds meaning seed table (rows_of (found_of matches.now))) }
{
    if let Some(option) = contained(matches, &IN_FILE) {
        return Err(UsageFault::BesideFile(option));
    }
    match given {
        Some(cluster) if A::kinds().has(cluster.config.kind) => Ok(cluster),
        _ => Err(UsageFault::ClusterFile(file)),
    }
}

/// The cluster that histories are of.
pub(crate) fn known_cluster<'a, A: Opening>(
    matches: &ArgMatches<'a>,
    given: GivenKeys,
) -> Result<KnownCluster, UsageFault<'a>>
    ensures some { IfOk result (SetsKnown A.words.kinds given (rows_of (found_of matches.now))) }
    ensures none { OnErr result ((c : KnownCluster) → SetsKnown A.words.kinds given (rows_of (found_of matches.now)) c → ⊥) }
    ensures unfit { IfErr result (IsUnfit A.words.kinds given.cluster) }
    ensures right { (meaning : Meanings) (table : OptionTable) → HasCluster A.words.kinds Digits table
        → HasOption A.words.kinds table (codes "cluster")
        → IfErr result (IsRightOf A.words.kinds meaning given.seed table (rows_of (found_of matches.now))) }
{
    match optional_text(matches, "cluster") {
        Some(file) => {
            let public = file_cluster::<A>(matches, file, given.cluster)?;
            Ok(KnownCluster::ByKeys(public))
        }
        None => {
            let seeded = cluster::<A>(matches, SeedWords::Digits, given.seed)?;
            Ok(KnownCluster::BySeed(seeded))
        }
    }
}
