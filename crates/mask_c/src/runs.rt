//! The runs of true values of a bitmap.

ghost use Rattle.std.specs.Prelude.{◌≡◌, ◌+◌, ◌<◌, ℕ, drop, length, map, min, take, true, false};
ghost use Rattle.mask_bits.specs.Bitmap.{bitmap};
ghost use Rattle.mask_bits.specs.Buffer.{IsWithinBytes};
ghost use Rattle.mask_bits.specs.Positions.{IsFirstFrom};
ghost use Rattle.mask_bits.specs.RunScan.{runs, runs_from};

use mask_bits::{BitChunks, SetSlices};

/// The indices from `start` to `end`, the end left out.
#[derive(Clone, Copy)]
#[repr(C)]
pub struct RowMaskRun {
    pub start: usize,
    pub end: usize,
}

/// The first run of true values from `from` on, and the empty one at `len` where there is none, also from past the end.
/// A run that `from` is inside begins there. So a walk over all runs goes on from the end of the one that it got.
#[unsafe(no_mangle)]
pub extern "C" fn row_mask_next_run(
    bytes: &[u8],
    offset: usize,
    len: usize,
    from: usize,
) -> RowMaskRun
    requires { IsWithinBytes bytes.now offset len }
    ensures starts { IsFirstFrom (bitmap bytes.now offset len) (min from len) true result.start }
    ensures ends { IsFirstFrom (bitmap bytes.now offset len) result.start false result.end }
{
    let values = BitChunks::new(bytes, offset, len);
    let start = values.first_from(from.min(len), true);
    let end = values.first_from(start, false);
    RowMaskRun { start, end }
}

/// Writes the runs of true values from `from` on, ascending, to the front of `out`, as many as there are or
/// as it takes, and returns how many these are: none from past the end. A run that `from` is inside begins
/// there. So a walk over all runs goes on from the end of the last, until fewer come than `out` takes.
/// What is behind them in `out` stays as it was.
#[unsafe(no_mangle)]
pub extern "C" fn row_mask_next_runs(
    bytes: &[u8],
    offset: usize,
    len: usize,
    from: usize,
    out: &mut [RowMaskRun],
) -> usize
    requires { IsWithinBytes bytes.now offset len }
    ensures runs { map {B = ℕ × ℕ} (λ r. (r.start, r.end)) (take result out.new) ≡ take (length out.old)
        (runs_from from (drop from (bitmap bytes.now offset len))) }
    ensures count { result ≡ min (length out.old)
        (length (runs_from from (drop from (bitmap bytes.now offset len)))) }
    ensures behind { drop result out.new ≡ drop result out.old }
{
    if from > len {
        return 0;
    }
    let mut runs = SetSlices::new(BitChunks::new(bytes, offset + from, len - from));
    let mut at = 0;
    while at < out.len() {
        let Some((start, end)) = runs.next() else {
            return at;
        };
        out[at] = RowMaskRun {
            start: from + start,
            end: from + end,
        };
        at += 1;
    }
    at
}
