// A request line: a letter, two fields and a line feed.
ghost use Rattle.std.specs.Prelude.{◌≡◌, Some, ok_or};
ghost use Rattle.simulator.specs.Request.{command_for, command_in, is_closed, fields_in, column_of, item_text, uses_b};
ghost use Rattle.simulator.specs.declared.request.Item.TheVariants.{Letter};

use crate::field::number_in;
use std::error::Error;
use std::fmt;

// What a line asks for.
#[derive(Clone, Copy)]
pub enum Command {
    Disk,
    Serial,
    Time,
    Box,
    Give,
    Cut,
}

// The items of a line.
#[derive(Clone, Copy, PartialEq, Eq, Debug)]
pub enum Item {
    Letter,
    A,
    B,
    LineFeed,
}

// The two fields of a line.
#[derive(Clone, Copy)]
pub struct Fields {
    pub a: u64,
    pub b: u64,
}

impl Item {
    // The column that the item begins in, from 1.
    pub fn column(self) -> u64
        ensures { result ≡ column_of self }
    {
        match self {
            Item::Letter => 1,
            Item::A => 2,
            Item::B => 7,
            Item::LineFeed => 21,
        }
    }
}

// What is wrong with the item.
impl fmt::Display for Item {
    ghost output = { λ item. Some (item_text item) };

    fn fmt<W: fmt::Write>(&self, f: &mut fmt::Formatter<W>) -> fmt::Result {
        f.write_str(match self {
            Item::Letter => "the letter in column 1 is none that may come here",
            Item::A => "field A is no number at the right end of columns 2 to 6",
            Item::B => "field B is no number at the right end of columns 7 to 20, or must be 0",
            Item::LineFeed => "the line does not end with a line feed in column 21",
        })
    }
}

impl Error for Item {}

// The command that a letter stands for.
impl TryFrom<char> for Command {
    type Error = Item;

    ghost try_from_gives = { λ letter r. r ≡ ok_or (command_for letter) Letter };

    fn try_from(letter: char) -> Result<Command, Item> {
        match letter {
            'D' => Ok(Command::Disk),
            'S' => Ok(Command::Serial),
            'T' => Ok(Command::Time),
            'B' => Ok(Command::Box),
            'G' => Ok(Command::Give),
            'C' => Ok(Command::Cut),
            _ => Err(Item::Letter),
        }
    }
}

impl Command {
    // Whether field B tells something; where not, it must be 0.
    fn uses_b(self) -> bool
        ensures { result ≡ uses_b self }
    {
        !matches!(self, Command::Serial | Command::Time)
    }
}

// The command of a line, by its first byte.
pub(crate) fn command_in(line: &[u8]) -> Result<Command, Item>
    ensures { result ≡ ok_or (command_in line.now) Letter }
{
    let letter = line.first().ok_or(Item::Letter)?;
    Command::try_from(char::from(*letter))
}

// Whether a line has 21 bytes, the last of them a line feed.
fn is_closed(line: &[u8]) -> bool
    ensures { result ≡ is_closed line.now }
{
    matches!(line.get(20..), Some([b'\n']))
}

// The fields of a line, or its first item after the letter that is wrong.
pub(crate) fn fields_in(line: &[u8], command: Command) -> Result<Fields, Item>
    ensures { result ≡ fields_in command line.now }
{
    let a = line.get(1..6).and_then(number_in).ok_or(Item::A)?;
    let b = line.get(6..20).and_then(number_in).ok_or(Item::B)?;
    if b != 0 && !command.uses_b() {
        return Err(Item::B);
    }
    if !is_closed(line) {
        return Err(Item::LineFeed);
    }
    Ok(Fields { a, b })
}
