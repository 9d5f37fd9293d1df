// The kinds keep the laws that the promise asks of a kind.
ghost use Rattle.worked.specs.Kinds.{KindsLawful};

// Every serial kind and every time kind does, and a serial kind has the floor 0 at every reading.
pub fn kinds_are_lawful()
    ensures { KindsLawful }
{}
