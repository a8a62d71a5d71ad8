//! A connection: what carries octets both ways, and tells the time.

ghost use Rattle.std.specs.Prelude.{◌≡◌, ℕ, ◌<◌, ◌≤◌, List, [], ◌∷◌, ◌++◌, length, take, IfOk};
ghost use Rattle.std.specs.Prelude.{OnErr, is_ok};
ghost use Rattle.mrt.specs.Failures.{failures_after};
ghost use Rattle.bgp_talk.specs.Account.{Telling, Asked, Read, Clock, Wrote};
ghost use Rattle.bgp_talk.specs.Account.{connection_after, failures_after_read};
ghost use Rattle.bgp_talk.specs.Account.{read_told, IsWithin};
ghost use Rattle.bgp_talk.specs.declared.wire.Connection.TheVariants.{NotAsked, Stands};

use bgp_prefix::Seconds;
use mrt::Failed;

/// Whether there is a connection.
#[derive(Clone, Copy, Debug, PartialEq, Eq)]
pub enum Connection {
    /// It wasn't asked for yet.
    NotAsked,
    /// It was asked for, and came to be. It may have failed since.
    Stands,
    /// It was asked for, and didn't come to be.
    Refused,
}

/// What a read of a wire answers.
#[derive(Clone, Copy, Debug, PartialEq, Eq)]
pub enum ReadAnswer {
    /// So many octets came.
    Bytes(usize),
    /// Nothing came yet.
    Nothing,
    /// The peer has ended the connection.
    Closed,
    /// The read failed.
    Failed,
}

/// A connection that is asked for once, and a clock.
///
/// The members say what a wire tells of itself, one call after another: one in memory tells all,
/// a socket nothing.
pub trait Wire {
    ghost use Rattle.bgp_talk.specs.declared.wire.Connection.{Connection};

    /// From one state to another it told this, as far as it tells.
    ghost tells: { Self → Self → List Telling → Type 0 };

    /// How often it has failed.
    ghost failures: { Self → ℕ };

    /// Whether there is a connection.
    ghost connection: { Self → Connection };

    /// Connects, or waits for the peer to. It may be asked once.
    fn connect(&mut self) -> Result<(), Failed>
        requires fresh { connection self.old ≡ NotAsked }
        requires failures { failures self.old < u64.MAX }
        ensures told { tells self.old self.new (Asked (is_ok result) ∷ []) }
        ensures connection { connection self.new ≡ connection_after (is_ok result) }
        ensures failures { failures self.new ≡ failures_after (failures self.old) result };

    /// Reads what came into the front of `buffer`.
    fn read(&mut self, buffer: &mut [u8]) -> ReadAnswer
        requires stands { connection self.old ≡ Stands }
        requires failures { failures self.old < u64.MAX }
        ensures within { IsWithin result (length buffer.new) }
        ensures told { tells self.old self.new
            (Read (length buffer.new) (read_told result buffer.new) ∷ []) }
        ensures connection { connection self.new ≡ connection self.old }
        ensures failures { failures self.new ≡ failures_after_read (failures self.old) result };

    /// Takes octets at the front of `octets`, maybe none of them, and answers how many. At `Failed`
    /// it took none. There are octets to take: so one that takes none takes fewer than it could.
    fn write(&mut self, octets: &[u8]) -> Result<usize, Failed>
        requires some { 0 < length octets.now }
        requires stands { connection self.old ≡ Stands }
        requires failures { failures self.old < u64.MAX }
        ensures bound { IfOk result (λ count. count ≤ length octets.now) }
        ensures ok { IfOk result (λ count. tells self.old self.new
            (Wrote (length octets.now) (take count octets.now) ∷ [])) }
        ensures err { OnErr result
            (tells self.old self.new (Wrote (length octets.now) [] ∷ [])) }
        ensures connection { connection self.new ≡ connection self.old }
        ensures failures { failures self.new ≡ failures_after (failures self.old) result };

    /// The second.
    fn now(&mut self) -> Seconds
        ensures told { tells self.old self.new (Clock result ∷ []) }
        ensures connection { connection self.new ≡ connection self.old }
        ensures failures { failures self.new ≡ failures self.old };

    /// How often it has failed.
    fn failures(&self) -> u64
        ensures { result ≡ failures self.now };

    /// From a state to itself it told nothing.
    ghost nothing: { (a : Self) → tells a a [] };

    /// What it told, and then more, it told in all.
    ghost joined: { (a b c : Self) (xs ys : List Telling) →
        tells a b xs → tells b c ys → tells a c (xs ++ ys) };
}
