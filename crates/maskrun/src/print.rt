//! A list as it is printed.

ghost use Rattle.std.specs.Prelude.{◌≡◌, ◌++◌, IfOk, OnOk, string_bytes};
ghost use Rattle.std.specs.Fmt.{decimal};
ghost use Rattle.maskrun.specs.Text.{list_text, range_text};

use std::alloc::{AllocError, Global};

// What a printed list may have as an item.
pub(crate) trait Item {
    ghost use Rattle.std.specs.Prelude.{ℕ, List};

    ghost text: { Self → List ℕ };

    // Writes the item behind what is there.
    fn write(&self, line: &mut String) -> Result<(), AllocError>
        ensures { OnOk result (string_bytes line.new ≡ string_bytes line.old ++ text self.now) };
}

// An index.
impl Item for usize {
    ghost text = { decimal };

    fn write(&self, line: &mut String) -> Result<(), AllocError> {
        write!(line, "{self}")
    }
}

// A range: its first index, and the index past its last.
impl Item for (usize, usize) {
    ghost text = { range_text };

    fn write(&self, line: &mut String) -> Result<(), AllocError> {
        let (start, end) = *self;
        write!(line, "{start}..{end}")
    }
}

pub(crate) fn list_text<T: Item>(alloc: Global, items: &[T]) -> Result<String, AllocError>
    ensures { IfOk result (λ line. string_bytes line ≡ list_text T.text items.now) }
{
    let [first, rest @ ..] = items else {
        return String::from_str(alloc, "-");
    };
    let mut line = String::new(alloc);
    first.write(&mut line)?;
    for item in rest {
        line.push(' ')?;
        item.write(&mut line)?;
    }
    Ok(line)
}
