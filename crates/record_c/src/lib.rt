// The checksum for programs in C or Rust.
#![tactic(auto)]

ghost use Rattle.std.specs.Prelude.{◌≡◌};
ghost use Rattle.record.specs.Crc.{crc};

use record::crc32;

// The checksum under a name of its own for programs in C or Rust: a pointer and a length.
#[unsafe(no_mangle)]
pub extern "C" fn record_crc32(bytes: &[u8]) -> u32
    ensures { result ≡ crc bytes.now }
{
    crc32(bytes)
}
