// The print line: the line's number, the series, the code and a last number, right-justified, and a line feed.
ghost use Rattle.std.specs.Prelude.{◌≡◌, length};
ghost use Rattle.simulator.specs.Print.{column, columns_before, justified, printed};

use crate::answer::Columns;

// The bytes of a print line.
pub const PRINT_BYTES: usize = 34;

// What this number is.
pub fn print_limit()
    ensures { PRINT_BYTES ≡ 34 }
{}

// The last digit of what is left of a number; a space where nothing is left.
fn column(rest: u64) -> u8
    ensures { result ≡ column rest }
{
    if rest == 0 {
        b' '
    } else {
        b'0' + (rest % 10) as u8
    }
}

// The columns before a number's last digit: the digits of the rest at the right end, spaces before them. One column a
// call, since an invariant has no name for what a loop over `iter_mut().rev()` has written.
fn fill_before(columns: &mut [u8], rest: u64)
    ensures { columns.new ≡ columns_before (length columns.old) rest }
{
    if let Some((last, front)) = columns.split_last_mut() {
        *last = column(rest);
        fill_before(front, rest / 10);
    }
}

// A number in all of the columns: its digits at the right end, spaces before them. Written by hand: no clause of std
// says what `write!` leaves in bytes.
fn right_justify(columns: &mut [u8], number: u64)
    ensures { columns.new ≡ justified (length columns.old) number }
{
    if let Some((last, front)) = columns.split_last_mut() {
        *last = b'0' + (number % 10) as u8;
        fill_before(front, number / 10);
    }
}

// Writes a print line.
pub(crate) fn write_line(print: &mut [u8; PRINT_BYTES], number: u64, columns: Columns)
    ensures { print.new ≡ printed number columns }
{
    right_justify(&mut print[..6], number);
    right_justify(&mut print[6..10], columns.series);
    right_justify(&mut print[10..13], u64::from(columns.code));
    right_justify(&mut print[13..33], columns.last);
    print[33] = b'\n';
}
