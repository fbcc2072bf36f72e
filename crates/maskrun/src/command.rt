//! The commands: how each reads its arguments, and what it prints.

ghost use Rattle.std.specs.Prelude.{◌≡◌, ◌⊎◌, ◌∷◌, ◌↔◌, Bool, List, Ok, Err, Some, None, IfOk, IfErr, MatchResult, length, map, slice_range, string_bytes};
ghost use Rattle.std.specs.Fmt.{decimal};
ghost use Rattle.maskrun.specs.Arguments.{◌unless◌};
ghost use Rattle.maskrun.specs.Commands.{command_of, printed, Prints, len_fault, part_fault, sum_fault, misfit, out_of_memory};
ghost use Rattle.maskrun.specs.declared.error.RunError.TheVariants as run_error;
ghost use Rattle.maskrun.specs.Text.{list_text, range_text};
ghost use Rattle.mask_bits.specs.Lists.{and_of, or_of, and_not_of, concat};
ghost use Rattle.mask_bits.specs.Positions.{positions, count, rank_intersection};
ghost use Rattle.mask_bits.specs.RunScan.{runs};
ghost use Rattle.mask_bits.specs.Stacks.{IsStack, folded_left};
ghost use Rattle.vortex_mask.specs.Mask.{truth};
ghost use Rattle.vortex_mask.specs.Text.{mask_text};

use crate::argument::{
    MaskArgument, MaskList, mask_and_number, mask_and_range, masks, one_mask, two_masks,
};
use crate::error::RunError;
use crate::print::list_text;
use std::alloc::Global;
use vortex_mask::{AllOr, Mask, MaskError};

// A command with its arguments read.
#[derive(Drop)]
pub(crate) enum Command<'a> {
    Rank(MaskArgument<'a>, MaskArgument<'a>),
    And(MaskArgument<'a>, MaskArgument<'a>),
    Or(MaskArgument<'a>, MaskArgument<'a>),
    AndNot(MaskArgument<'a>, MaskArgument<'a>),
    Not(MaskArgument<'a>),
    Slice(MaskArgument<'a>, usize, usize),
    Limit(MaskArgument<'a>, usize),
    Cat(MaskList<'a>),
    Pipe(MaskList<'a>),
    Indices(MaskArgument<'a>),
    Ranges(MaskArgument<'a>),
}

impl<'a> Command<'a> {
    // What a command line says, which needs no memory.
    pub(crate) fn parse(words: &'a [String]) -> Result<Command<'a>, RunError>
        ensures { result ≡ command_of (map string_bytes words.now) }
    {
        let [name, arguments @ ..] = words else {
            return Err(RunError::Usage);
        };
        match name.as_str() {
            "rank" => two_masks(arguments).map(|(a, b)| Command::Rank(a, b)),
            "and" => two_masks(arguments).map(|(a, b)| Command::And(a, b)),
            "or" => two_masks(arguments).map(|(a, b)| Command::Or(a, b)),
            "andnot" => two_masks(arguments).map(|(a, b)| Command::AndNot(a, b)),
            "not" => one_mask(arguments).map(Command::Not),
            "slice" => mask_and_range(arguments).map(|(a, from, to)| Command::Slice(a, from, to)),
            "limit" => mask_and_number(arguments).map(|(a, k)| Command::Limit(a, k)),
            "cat" => masks(1, arguments).map(Command::Cat),
            "pipe" => masks(2, arguments).map(Command::Pipe),
            "indices" => one_mask(arguments).map(Command::Indices),
            "ranges" => one_mask(arguments).map(Command::Ranges),
            _ => Err(RunError::Usage),
        }
    }

    // The line that the command prints.
    pub(crate) fn line(&self, alloc: Global) -> Result<String, RunError>
        ensures { Prints result (printed self.now) }
    {
        match self {
            Command::Rank(a, b) => rank(alloc, a, b),
            Command::And(a, b) => and(alloc, a, b),
            Command::Or(a, b) => or(alloc, a, b),
            Command::AndNot(a, b) => and_not(alloc, a, b),
            Command::Not(a) => print(alloc, a.mask(alloc)?.not(alloc)),
            Command::Slice(a, start, end) => slice(alloc, a, *start, *end),
            Command::Limit(a, k) => print(alloc, a.mask(alloc)?.limit(alloc, *k)),
            Command::Cat(list) => cat(alloc, list),
            Command::Pipe(list) => pipe(alloc, list),
            Command::Indices(a) => indices(alloc, a),
            Command::Ranges(a) => ranges(alloc, a),
        }
    }
}

fn rank(alloc: Global, a: &MaskArgument, b: &MaskArgument) -> Result<String, RunError>
    ensures { Prints result (mask_text (rank_intersection a.now b.now) unless len_fault (count a.now) b.now) }
{
    let (a, b) = (a.mask(alloc)?, b.mask(alloc)?);
    expect_len(&b, a.true_count())?;
    print(alloc, a.intersect_by_rank(alloc, &b))
}

fn and(alloc: Global, a: &MaskArgument, b: &MaskArgument) -> Result<String, RunError>
    ensures { Prints result (mask_text (and_of a.now b.now) unless len_fault (length a.now) b.now) }
{
    let (a, b) = of_one_len(alloc, a, b)?;
    print(alloc, a.into_bitand(alloc, &b))
}

fn or(alloc: Global, a: &MaskArgument, b: &MaskArgument) -> Result<String, RunError>
    ensures { Prints result (mask_text (or_of a.now b.now) unless len_fault (length a.now) b.now) }
{
    let (a, b) = of_one_len(alloc, a, b)?;
    print(alloc, a.into_bitor(alloc, &b))
}

fn and_not(alloc: Global, a: &MaskArgument, b: &MaskArgument) -> Result<String, RunError>
    ensures { Prints result (mask_text (and_not_of a.now b.now) unless len_fault (length a.now) b.now) }
{
    let (a, b) = of_one_len(alloc, a, b)?;
    print(alloc, a.bitand_not(alloc, &b))
}

// Two masks of the same length.
fn of_one_len(alloc: Global, a: &MaskArgument, b: &MaskArgument) -> Result<(Mask, Mask), RunError>
    ensures first { IfOk result (λ m. truth m.0 ≡ a.now) }
    ensures second { IfOk result (λ m. truth m.1 ≡ b.now) }
    ensures fits { IfOk result (λ _. len_fault (length a.now) b.now ≡ None) }
    ensures fault { IfErr result (λ e.
        (len_fault (length a.now) b.now ≡ Some e) ⊎ (e ≡ out_of_memory)) }
{
    let (a, b) = (a.mask(alloc)?, b.mask(alloc)?);
    expect_len(&b, a.len())?;
    Ok((a, b))
}

// The line of a mask, where it was found.
fn print(alloc: Global, mask: Result<Mask, MaskError>) -> Result<String, RunError>
    ensures found { IfOk mask (λ m. Prints result (Ok (mask_text (truth m)))) }
    ensures fault { IfErr mask (λ e. result ≡ Err (run_error.Mask e)) }
{
    Ok(mask?.to_string(alloc)?)
}

// The mask has so many values.
fn expect_len(mask: &Mask, want: usize) -> Result<(), RunError>
    ensures { MatchResult result (λ _. len_fault want (truth mask.now) ≡ None)
        (λ e. len_fault want (truth mask.now) ≡ Some e) }
{
    let got = mask.len();
    if got != want {
        return Err(RunError::LengthsDiffer { want, got });
    }
    Ok(())
}

fn slice(alloc: Global, a: &MaskArgument, start: usize, end: usize) -> Result<String, RunError>
    ensures { Prints result (mask_text (slice_range a.now start end) unless part_fault a.now start end) }
{
    let a = a.mask(alloc)?;
    if a.len() < end {
        return Err(RunError::OutOfRange { word: 3 });
    }
    if end < start {
        return Err(RunError::OutOfRange { word: 2 });
    }
    print(alloc, a.slice(alloc, start, end))
}

fn cat(alloc: Global, list: &MaskList) -> Result<String, RunError>
    ensures { Prints result (mask_text (concat list.now) unless sum_fault list.now) }
{
    let masks = list.masks(alloc)?;
    print(alloc, Mask::from_masks(alloc, masks.into_iter()))
}

fn pipe(alloc: Global, list: &MaskList) -> Result<String, RunError>
    ensures { Prints result (mask_text (folded_left list.now) unless misfit list.now) }
{
    let masks = list.masks(alloc)?;
    let mask = folded(alloc, &masks)?;
    Ok(mask.to_string(alloc)?)
}

// The fold of a stack of masks. No masks fold to the empty one.
#[tactic(auto, unfolding(mask_bits::specs::Positions::repeated))]
fn folded(alloc: Global, masks: &[Mask]) -> Result<Mask, RunError>
    ensures fits { IfOk result (λ _. misfit (map truth masks.now) ≡ None) }
    ensures list { IfOk result (λ m. truth m ≡ folded_left (map truth masks.now)) }
    ensures fault { IfErr result (λ e.
        (misfit (map truth masks.now) ≡ Some e) ⊎ (e ≡ out_of_memory)) }
{
    let Some((first, rest)) = masks.split_first() else {
        return Ok(Mask::new_false(0));
    };
    stacks_have_no_misfit();
    expect_stack(first, rest)?;
    Ok(first.intersect_all_by_rank(alloc, rest)?)
}

// Each mask has a value for each true value of the one before it.
fn expect_stack(first: &Mask, rest: &[Mask]) -> Result<(), RunError>
    ensures { MatchResult result (λ _. misfit (truth first.now ∷ map truth rest.now) ≡ None)
        (λ e. misfit (truth first.now ∷ map truth rest.now) ≡ Some e) }
{
    let mut before = first;
    for mask in rest {
        expect_len(mask, before.true_count())?;
        before = mask;
    }
    Ok(())
}

// Masks without a misfit are a stack, and no others are.
#[tactic(auto, using(crate::proofs::MisfitLemmas::stacks_have_no_misfit))]
fn stacks_have_no_misfit()
    ensures { (ms : List (List Bool)) → (misfit ms ≡ None) ↔ IsStack ms }
{}

fn indices(alloc: Global, a: &MaskArgument) -> Result<String, RunError>
    ensures { Prints result (Ok (list_text decimal (positions a.now))) }
{
    let mask = a.mask(alloc)?;
    let indices: Vec<_> = mask.set_indices().collect(alloc)?;
    Ok(list_text(alloc, &indices)?)
}

#[tactic(auto, using(mask_bits::proofs::Lists::Runs::RunListLemmas::run_of_all_true, mask_bits::proofs::Lists::Runs::RunListLemmas::runs_of_all_false, vortex_mask::proofs::Lists::VariantLemmas::variants_of_one_value))]
fn ranges(alloc: Global, a: &MaskArgument) -> Result<String, RunError>
    ensures { Prints result (Ok (list_text range_text (runs a.now))) }
{
    let mut mask = a.mask(alloc)?;
    let len = mask.len();
    match mask.slices(alloc)? {
        AllOr::All if len > 0 => Ok(list_text(alloc, &[(0, len)])?),
        AllOr::All => Ok(list_text::<(usize, usize)>(alloc, &[])?),
        AllOr::None => Ok(list_text::<(usize, usize)>(alloc, &[])?),
        AllOr::Some(runs) => Ok(list_text(alloc, runs)?),
    }
}
