// Worked cases, shown to follow from the rules themselves: no code is run.
#![tactic(auto)]

ghost use Rattle.cases.specs.Table.{EveryCaseHolds};

// Each case of the table holds: three request files and their whole prints, the calls that are made for the lines of
// one, checksums, corrections, floors, an identifier, and the last serial identifier. A file's print and its calls
// are computed by the definitions that the simulator has for its contracts.
pub fn worked_cases()
    ensures { EveryCaseHolds }
{}

#[cfg(test)]
mod lists;
#[cfg(test)]
mod tests;
