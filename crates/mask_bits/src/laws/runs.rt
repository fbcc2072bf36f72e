//! Laws of runs, and of ranges that hold exactly the true indices.

#![tactic(auto, using(crate::proofs::LawRules::laws))]

ghost use Rattle.std.specs.Prelude.{◌≡◌, ◌↔◌, Bool, List};
ghost use Rattle.mask_bits.specs.Laws.Runs.{RunsExist, RunsAreUnique, RunsAreRanges, RunsAreTheList};
ghost use Rattle.mask_bits.specs.RunScan.{runs};
ghost use Rattle.mask_bits.specs.Runs.{AreRuns};

/// Each list has a list of runs.
pub fn runs_exist()
    ensures exist { RunsExist }
{}

/// No list has two lists of runs: lists of ranges that are runs of one list are the same.
pub fn runs_are_unique(left: &[(usize, usize)], right: &[(usize, usize)])
    ensures unique { RunsAreUnique }
    ensures given { ((m : List Bool) × (AreRuns m left.now × AreRuns m right.now))
        → left.now ≡ right.now }
{}

/// Runs are ranges that hold exactly the true indices.
pub fn runs_are_ranges()
    ensures ranges { RunsAreRanges }
{}

/// Ranges are a list's runs exactly if they are what `runs` gives.
pub fn runs_are_the_list(ranges: &[(usize, usize)])
    ensures only { RunsAreTheList }
    ensures given { (m : List Bool) → (ranges.now ≡ runs m) ↔ AreRuns m ranges.now }
{}
