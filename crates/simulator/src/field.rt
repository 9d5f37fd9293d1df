// A field of a request line: a whole number, right-justified, with spaces before it.
ghost use Rattle.std.specs.Prelude.{◌≡◌, ◌^◌, ◌≤◌, length};
ghost use Rattle.simulator.specs.Field.{field, after_byte, told_number, Below};

// What the bytes of a field have told so far.
#[derive(Clone, Copy)]
enum Told {
    // Nothing but spaces.
    Spaces,
    Number(u64),
    // No number.
    Wrong,
}

impl Told {
    // The same after one byte more. A number that begins with 0 has no other digit.
    fn then(self, byte: u8) -> Told
        requires { Below (10 ^ 18) self }
        ensures { result ≡ after_byte self byte }
    {
        let digit = byte.is_ascii_digit();
        match self {
            Told::Spaces if byte == b' ' => Told::Spaces,
            Told::Spaces if digit => Told::Number(u64::from(byte - b'0')),
            Told::Number(number) if digit && number != 0 => {
                Told::Number(10 * number + u64::from(byte - b'0'))
            }
            _ => Told::Wrong,
        }
    }

    // The number, where one was told.
    fn number(self) -> Option<u64>
        ensures { result ≡ told_number self }
    {
        match self {
            Told::Number(number) => Some(number),
            _ => None,
        }
    }
}

// The number in a field of at most 18 bytes; none where it is not written as a number has to be.
pub(crate) fn number_in(bytes: &[u8]) -> Option<u64>
    requires { length bytes.now ≤ 18 }
    ensures { result ≡ field bytes.now }
{
    bytes
        .iter()
        .fold(Told::Spaces, |told, byte| told.then(*byte))
        .number()
}
