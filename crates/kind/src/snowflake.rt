// Twitter's Snowflake layout: 41 bits of milliseconds, 10 of a worker and 12 of a step.
ghost use Rattle.std.specs.Prelude.{◌≡◌, IfOk, Ok};
ghost use Rattle.kind.specs.Snowflake.{packing, taking_apart};

use crate::fault::SettingFault;
use record::Identifier;

// The three fields of an identifier.
#[derive(Clone, Copy, PartialEq, Eq, Debug)]
pub struct Parts {
    pub milliseconds: u64,
    pub worker: u64,
    pub step: u64,
}

// The identifier that has these fields. The first that does not fit its bits is denied.
pub fn pack(parts: Parts) -> Result<Identifier, SettingFault>
    ensures answers { result ≡ packing parts }
    ensures apart_again { IfOk result (λ i. taking_apart i ≡ Ok parts) }
{
    if parts.milliseconds >= 1 << 41 {
        return Err(SettingFault::Milliseconds);
    }
    if parts.worker >= 1 << 10 {
        return Err(SettingFault::Worker);
    }
    if parts.step >= 1 << 12 {
        return Err(SettingFault::Step);
    }
    Ok(Identifier((parts.milliseconds << 22) + (parts.worker << 12) + parts.step))
}

// The fields of an identifier. One of 2^63 or more is denied.
pub fn take_apart(identifier: Identifier) -> Result<Parts, SettingFault>
    ensures answers { result ≡ taking_apart identifier }
    ensures packed_again { IfOk result (λ parts. packing parts ≡ Ok identifier) }
{
    if identifier.0 >= 1 << 63 {
        return Err(SettingFault::Identifier);
    }
    Ok(Parts {
        milliseconds: identifier.0 >> 22,
        worker: (identifier.0 >> 12) % (1 << 10),
        step: identifier.0 % (1 << 12),
    })
}
