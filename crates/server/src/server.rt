// The server over any disk and any kind.
ghost use Rattle.std.specs.Prelude.{◌≡◌, ◌<◌, ◌≤◌};
ghost use Rattle.std.specs.Option.{SomeIff};
ghost use Rattle.server.specs.Knows.{Knows, KnowsDisk, KnowsDisk-prop};
ghost use Rattle.ring.specs.Operations.{Chain};
ghost use Rattle.server.specs.Rules.{one, tries, woken, Gave, WasCut};

use crate::fault::ServerFault;
use crate::state::{State, brings_down, wake};
use disk::Disk;
use kind::Kind;
use record::{Identifier, Rank, Reading, Sequence};
use ring::{Drawn, Ring};

// A disk, a kind, and whether the server is up. While it is, its ring knows what the disk reads, and the blocks in hand end where
// the ring knows that their series do: no server is without that, so each contract speaks of every server there is. The kind
// stays: each call says so, since that ties two values of this type together, which a fact about one cannot.
#[derive(Drop)]
pub struct Server<D: Disk, K: Kind> {
    pub(crate) disk: D,
    pub(crate) kind: K,
    pub(crate) state: State,
    ghost knows: { KnowsDisk (K.numbering kind) state (D.meaning disk) } by { KnowsDisk-prop (K.numbering kind) state (D.meaning disk) },
}

// The identifier of a rank that was drawn. The kind is asked for no other.
fn identify<K: Kind>(kind: &K, drawn: Drawn) -> Option<Identifier>
    ensures { SomeIff result
        ((drawn.series < 8) × (drawn.rank.0 ≤ (K.numbering kind.now).top.0))
        ((K.numbering kind.now).identifier drawn.series drawn.rank) }
{
    kind.identifier(drawn.series(), drawn.rank())
}

impl<D: Disk, K: Kind> Server<D, K> {
    // Puts a server together: reads all sectors of the disk.
    pub fn new(disk: D, kind: K) -> Server<D, K>
        ensures parts { (result.disk ≡ disk) × (result.kind ≡ kind) }
        ensures woken { result.state ≡ woken (K.numbering kind) (D.meaning disk) }
    {
        let state = wake(Ring::recover(&disk, kind.tag(), kind.top()));
        Server { disk, kind, state }
    }

    // An identifier of a series at a clock's reading: its rank is the larger of next and the reading's floor.
    pub fn give(&mut self, series: u8, reading: Reading) -> Result<Identifier, ServerFault>
        ensures kind { self.new.kind ≡ self.old.kind }
        ensures rules { let k = K.numbering self.old.kind in
            let m = D.meaning self.old.disk in
            Gave k self.old.state m series reading result self.new.state (D.meaning self.new.disk) }
        ensures moves { let k = K.numbering self.old.kind in
            let tried = tries k self.old.state (D.meaning self.old.disk) (one series reading) in
            Chain D.moves self.old.disk tried self.new.disk }
    {
        let up = match &mut self.state {
            State::Up(up) => up,
            State::Down(fault) => return Err(ServerFault::Down(*fault)),
        };
        if series >= 8 {
            return Err(ServerFault::Series(series));
        }
        let floor = self.kind.floor(reading).ok_or(ServerFault::Reading)?;
        let top = self.kind.top();
        let rank = up.next(series).max(floor);
        if rank > top {
            return Err(ServerFault::AboveTop);
        }
        let end = Rank((rank.0 + self.kind.block_size()).min(top.0 + 1));
        if let Err(fault) = up.ready(&mut self.disk, series, rank, end) {
            if brings_down(fault) {
                self.state = State::Down(fault);
            }
            return Err(ServerFault::Ring(fault));
        }
        let drawn = up.draw(series, floor).ok_or(ServerFault::AboveTop)?;
        identify(&self.kind, drawn).ok_or(ServerFault::AboveTop)
    }

    // A power cut, and the fresh start after it: answers the top record.
    pub fn cut(&mut self, tear: u64, supply: u64) -> Result<Sequence, ServerFault>
        ensures kind { self.new.kind ≡ self.old.kind }
        ensures moves { D.moves.cuts self.old.disk tear supply self.new.disk }
        ensures rules { let k = K.numbering self.old.kind in
            let m = D.meaning self.old.disk in
            WasCut k m supply result self.new.state (D.meaning self.new.disk) }
    {
        self.disk.cut(tear, supply);
        let recovered = Ring::recover(&self.disk, self.kind.tag(), self.kind.top());
        self.state = wake(recovered);
        Ok(recovered?.top_record())
    }
}
