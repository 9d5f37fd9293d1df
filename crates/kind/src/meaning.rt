// What a kind of identifier is: what it tells, and the laws of that.
ghost use Rattle.std.specs.Prelude.{◌≡◌, ◌<◌, ◌≤◌};
ghost use Rattle.std.specs.Option.{SomeIff};
ghost use Rattle.kind.specs.Meaning.{Numbering, LawfulKind};

use record::{Identifier, Rank, Reading};

// A kind of identifier. It is only asked, and tells the same each time.
pub trait Kind {
    // What the kind tells.
    ghost numbering: { Self → Numbering };

    // The number by which a record names the kind.
    fn tag(&self) -> u8
        ensures { result ≡ (numbering self.now).tag };

    // The highest rank that has an identifier.
    fn top(&self) -> Rank
        ensures { result ≡ (numbering self.now).top };

    // How many ranks a reservation takes.
    fn block_size(&self) -> u64
        ensures { result ≡ (numbering self.now).block };

    // The floor of a reading, as the clock gave it: from which rank on it lets identifiers be given.
    fn floor(&self, reading: Reading) -> Option<Rank>
        ensures { result ≡ (numbering self.now).floor reading };

    // The identifier of a rank in a series; none for a series above 7 and none for a rank above the top.
    fn identifier(&self, series: u8, rank: Rank) -> Option<Identifier>
        ensures { let k = numbering self.now in
            SomeIff result ((series < 8) × (rank.0 ≤ k.top.0)) (k.identifier series rank) };

    // It keeps the laws.
    ghost lawful: { (k : Self) → LawfulKind (numbering k) };
}
