//! What the arguments of a command say, which needs no memory, and the masks that they name.

ghost use Rattle.std.specs.Prelude.{◌≡◌, IfOk, IfErr, map, position, string_bytes};
ghost use Rattle.std.specs.Char.{is_ascii_digit};
ghost use Rattle.std.specs.List.{list_all};
ghost use Rattle.maskrun.specs.Arguments.{is_bad_digit, mask_argument, number_argument, one_mask, two_masks, mask_and_number, mask_and_range, masks};
ghost use Rattle.maskrun.specs.Commands.{out_of_memory};
ghost use Rattle.vortex_mask.specs.Mask.{truth};

use crate::error::RunError;
use std::alloc::Global;
use std::marker::Model;
use vortex_mask::Mask;

// A mask as an argument says it: `-`, or its digits, of which each `1` is a true value.
#[derive(Drop)]
pub(crate) struct MaskArgument<'a> {
    text: &'a str,
}

impl<'a> Model for MaskArgument<'a> {
    ghost use Rattle.std.specs.Prelude.{Bool, List};
    ghost use Rattle.maskrun.specs.Arguments.{mask_said};

    ghost Value = { List Bool };

    ghost view = { λ a. mask_said a.text.now };
}

impl<'a> MaskArgument<'a> {
    // What the argument of this number says.
    fn read(number: usize, text: &'a str) -> Result<MaskArgument<'a>, RunError>
        ensures { result ≡ mask_argument number text.now }
    {
        if text == "-" {
            return Ok(MaskArgument { text });
        }
        if text.is_empty() {
            return Err(RunError::BadBit {
                word: number,
                at: 0,
            });
        }
        match first_bad_digit(text.as_bytes()) {
            Some(at) => Err(RunError::BadBit { word: number, at }),
            None => Ok(MaskArgument { text }),
        }
    }

    #[tactic(auto, unfolding(mask_bits::specs::Positions::repeated))]
    pub(crate) fn mask(&self, alloc: Global) -> Result<Mask, RunError>
        ensures list { IfOk result (λ m. truth m ≡ self.now) }
        ensures fault { IfErr result (λ e. e ≡ out_of_memory) }
    {
        if self.text == "-" {
            return Ok(Mask::new_false(0));
        }
        let digits = self.text.as_bytes().iter().copied();
        Ok(Mask::from_bools(alloc, digits.map(|digit| digit == b'1'))?)
    }
}

// The place of the first byte that is neither `0` nor `1`.
fn first_bad_digit(digits: &[u8]) -> Option<usize>
    ensures { result ≡ position is_bad_digit digits.now }
{
    digits.iter().position(|c| !(*c == b'0' || *c == b'1'))
}

// Masks, each as an argument says it.
#[derive(Drop)]
pub(crate) struct MaskList<'a> {
    texts: &'a [String],
}

impl<'a> Model for MaskList<'a> {
    ghost use Rattle.std.specs.Prelude.{Bool, List, map, string_bytes};
    ghost use Rattle.maskrun.specs.Arguments.{mask_said};

    ghost Value = { List (List Bool) };

    ghost view = { λ a. map mask_said (map string_bytes a.texts.now) };
}

impl<'a> MaskList<'a> {
    pub(crate) fn masks(&self, alloc: Global) -> Result<Vec<Mask>, RunError>
        ensures list { IfOk result (λ v. map truth v.items ≡ self.now) }
        ensures fault { IfErr result (λ e. e ≡ out_of_memory) }
    {
        let mut masks = Vec::new(alloc);
        for text in self.texts {
            let argument = MaskArgument {
                text: text.as_str(),
            };
            masks.push(argument.mask(alloc)?)?;
        }
        Ok(masks)
    }
}

// The number that the argument of this number says.
fn read_number(argument: usize, text: &str) -> Result<usize, RunError>
    ensures { result ≡ number_argument argument text.now }
{
    // `parse` takes a sign in front.
    if !has_only_digits(text) {
        return Err(RunError::BadNumber { word: argument });
    }
    match text.parse::<usize>() {
        Ok(number) => Ok(number),
        Err(_) => Err(RunError::BadNumber { word: argument }),
    }
}

fn has_only_digits(text: &str) -> bool
    ensures { result ≡ list_all is_ascii_digit text.now }
{
    text.as_bytes().iter().all(|c| c.is_ascii_digit())
}

pub(crate) fn one_mask<'a>(arguments: &'a [String]) -> Result<MaskArgument<'a>, RunError>
    ensures { result ≡ one_mask (map string_bytes arguments.now) }
{
    let [a] = arguments else {
        return Err(RunError::Usage);
    };
    MaskArgument::read(1, a.as_str())
}

pub(crate) fn two_masks<'a>(
    arguments: &'a [String],
) -> Result<(MaskArgument<'a>, MaskArgument<'a>), RunError>
    ensures { result ≡ two_masks (map string_bytes arguments.now) }
{
    let [a, b] = arguments else {
        return Err(RunError::Usage);
    };
    let a = MaskArgument::read(1, a.as_str())?;
    Ok((a, MaskArgument::read(2, b.as_str())?))
}

pub(crate) fn mask_and_number<'a>(
    arguments: &'a [String],
) -> Result<(MaskArgument<'a>, usize), RunError>
    ensures { result ≡ mask_and_number (map string_bytes arguments.now) }
{
    let [a, k] = arguments else {
        return Err(RunError::Usage);
    };
    let a = MaskArgument::read(1, a.as_str())?;
    Ok((a, read_number(2, k.as_str())?))
}

pub(crate) fn mask_and_range<'a>(
    arguments: &'a [String],
) -> Result<(MaskArgument<'a>, usize, usize), RunError>
    ensures { result ≡ mask_and_range (map string_bytes arguments.now) }
{
    let [a, start, end] = arguments else {
        return Err(RunError::Usage);
    };
    let a = MaskArgument::read(1, a.as_str())?;
    let start = read_number(2, start.as_str())?;
    Ok((a, start, read_number(3, end.as_str())?))
}

// So many masks, or more.
pub(crate) fn masks<'a>(least: usize, arguments: &'a [String]) -> Result<MaskList<'a>, RunError>
    ensures { result ≡ masks least (map string_bytes arguments.now) }
{
    if arguments.len() < least {
        return Err(RunError::Usage);
    }
    for (i, text) in arguments.iter().enumerate() {
        MaskArgument::read(i + 1, text.as_str())?;
    }
    Ok(MaskList { texts: arguments })
}
