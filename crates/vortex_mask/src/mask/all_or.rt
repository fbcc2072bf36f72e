//! A value, or all rows, or none.

ghost use Rattle.std.specs.Prelude.{◌≡◌, IfErr, IfOk, IsOkUnless, alloc_error};
ghost use Rattle.vortex_mask.specs.AllOr.{all_or_copied, MatchAllOr, ForValue, IsOnlyClone};

use crate::mask::MaskError;

/// All rows, no row, or a value that says which.
#[derive(Debug, Drop, PartialEq, Eq)]
pub enum AllOr<T> {
    /// Each row.
    All,
    /// No row.
    None,
    /// The rows that a value says.
    Some(T),
}

impl<T> AllOr<T> {
    /// The value of `Some`, or what `all_true` returns for `All` and `all_false` for `None`.
    pub fn unwrap_or_else<F: FnOnce() -> T, G: FnOnce() -> T>(self, all_true: F, all_false: G) -> T
        requires all_true { self ≡ AllOr.All → F.pre all_true }
        requires all_false { self ≡ AllOr.None → G.pre all_false }
        ensures { MatchAllOr self (F.post all_true result) (G.post all_false result) (λ x. result ≡ x) }
    {
        match self {
            AllOr::All => all_true(),
            AllOr::None => all_false(),
            AllOr::Some(value) => value,
        }
    }
}

impl<T: Clone> AllOr<&T> {
    /// Clones the value behind the reference, which its clones have to equal.
    // rust: named try_cloned
    pub fn cloned(self) -> Result<AllOr<T>, MaskError>
        requires { ForValue self (λ x. IsOnlyClone T.is_clone x.now) }
        ensures same { IfOk result (λ a. a ≡ all_or_copied self.entry) }

        // Memory is needed for the value's clone alone.
        ensures clone { IfErr result
            (λ _. MatchAllOr self.entry ⊥ ⊥ (λ x. ¬ (T.is_infallible x.now))) }
        ensures refused { IsOkUnless result (MaskError.Memory alloc_error) }
    {
        match self {
            AllOr::All => Ok(AllOr::All),
            AllOr::None => Ok(AllOr::None),
            AllOr::Some(value) => Ok(AllOr::Some(value.clone()?)),
        }
    }
}
