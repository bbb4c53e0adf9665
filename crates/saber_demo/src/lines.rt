// The line of one generated row.
ghost use Rattle.std.specs.Prelude.{◌≡◌, ◌≤◌, ◌+◌, ◌++◌, ◌<◌, ◌^◌, length, decimal};
ghost use Rattle.saber_demo.specs.Rows.{row_line, row_of};

use arrayvec::ArrayString;
use itoa::Buffer;

// A number in decimal behind what is there.
fn add_number(line: &mut ArrayString<64>, number: u64)
    requires { length line.old.bytes ≤ 44 }
    ensures bytes { line.new.bytes ≡ line.old.bytes ++ decimal number }
    ensures short { length line.new.bytes ≤ length line.old.bytes + 20 }
{
    let mut digits = Buffer::new();
    line.push_str(digits.format(number));
}

/// The line of row `number`, for which `drawn` was drawn, in place of what is there.
pub(crate) fn write_row(line: &mut ArrayString<64>, number: u64, drawn: u64)
    ensures { line.new.bytes ≡ row_line (row_of number drawn) }
{
    line.clear();
    add_number(line, number);
    line.push_str(",");
    add_number(line, drawn % 4);
    line.push_str(",");
    add_number(line, drawn);
    line.push_str("\n");
}
