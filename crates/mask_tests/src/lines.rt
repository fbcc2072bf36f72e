//! How a call stands in a line.

/// The names of the operands that a line reads, where there is a line of this name and they are there.
pub(crate) type Found = Option<&'static str>;

/// Calls by lines such as
///
///     "slice" (a m n) [m <= n && n <= a.len(), "a range within the mask"] => a.slice(alloc, m, n),
///
/// A line has the name of a call; what it reads from a row, by names that `Operands::read` and `operand` know; what the
/// call requires, in words too; and the call, whose answer is told by `Tell`. A line may also write it itself. A name
/// that no line has is looked for by another function.
macro_rules! calls {
    ($name:ident, $o:ident, $text:ident, $alloc:ident, else $others:expr; $(
        $call:literal ($first:ident $($next:ident)*) $([$is_met:expr, $condition:literal])? => $answer:expr,
    )*) => {
        match $name {
            $($call => {
                if $o.are_read {
                    let $alloc = $o.alloc;
                    let $first = $crate::lines::operand!($o, $first, $alloc);
                    $(let $next = $crate::lines::operand!($o, $next, $alloc);)*
                    $(if !($is_met) {
                        $crate::tell::tell_fault($text, $crate::fault::Fault::Unmet($condition));
                        return Some("");
                    })?
                    $crate::tell::Tell::tell($answer, $text);
                }
                Some(concat!(stringify!($first) $(, " ", stringify!($next))*))
            })*
            _ => $others,
        }
    };
}

// How a call takes an operand that is not a number: lent, for a change, or by value.
macro_rules! operand {
    ($o:ident, taken, $alloc:ident) => { std::mem::take(&mut $o.a.it) };
    ($o:ident, changed, $alloc:ident) => { &mut $o.a.it };
    ($o:ident, taken_masks, $alloc:ident) => { std::mem::replace(&mut $o.masks.it, Vec::new($alloc)) };
    ($o:ident, taken_x, $alloc:ident) => { std::mem::replace(&mut $o.x.it, $crate::packed::empty()) };
    ($o:ident, taken_ranges, $alloc:ident) => { std::mem::replace(&mut $o.ranges, Vec::new($alloc)) };
    ($o:ident, taken_bytes, $alloc:ident) => { std::mem::replace(&mut $o.bytes, Vec::new($alloc)) };
    ($o:ident, taken_ranged, $alloc:ident) => { $crate::lines::there!($o.ranged.take()) };
    ($o:ident, values, $alloc:ident) => { $crate::lines::there!(&$o.values.it) };
    ($o:ident, changed_values, $alloc:ident) => { $crate::lines::there!(&mut $o.values.it) };
    ($o:ident, rows, $alloc:ident) => { $crate::lines::there!(&$o.rows) };
    ($o:ident, ranks, $alloc:ident) => { $crate::lines::there!(&$o.ranks) };
    ($o:ident, v, $alloc:ident) => { $crate::lines::there!(&$o.v) };
    ($o:ident, w, $alloc:ident) => { $crate::lines::there!(&$o.w) };
    ($o:ident, builder, $alloc:ident) => { $crate::lines::there!(&mut $o.builder) };
    ($o:ident, list, $alloc:ident) => { &$o.list };
    ($o:ident, flags, $alloc:ident) => { &$o.flags };
    ($o:ident, source, $alloc:ident) => { $o.m as u64 };
    ($o:ident, word, $alloc:ident) => { $o.n as u64 };
    ($o:ident, m, $alloc:ident) => { $o.m };
    ($o:ident, n, $alloc:ident) => { $o.n };
    ($o:ident, p, $alloc:ident) => { $o.p };
    ($o:ident, q, $alloc:ident) => { $o.q };
    ($o:ident, $held:ident, $alloc:ident) => { &$o.$held.it };
}

macro_rules! there {
    ($operand:expr) => {
        match $operand {
            Some(it) => it,
            None => return None,
        }
    };
}

pub(crate) use calls;
pub(crate) use operand;
pub(crate) use there;
