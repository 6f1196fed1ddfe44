//! Looking at a link's first fragment, and passing it on.

ghost use Rattle.std.specs.Prelude.{◌≡◌, ◌≢◌, ◌<◌, false, length, slice_get, Some};
ghost use Rattle.fl_base.specs.Control.{is_ack_only, with_circuit, bare};
ghost use Rattle.fl_link.specs.Looks.{saw};
ghost use Rattle.fl_hop.specs.OfCircuit.{as_carried};
ghost use Rattle.fl_hop.specs.Forward.{Finds, put_label, Leaves, Forwards, Crosses};

use crate::circuits::Circuits;
use crate::entry::HopTarget;
use crate::fault::HopFault;
use fl_base::{Circuit, EndId, Frag, LinkId};
use fl_link::{PutFault, PutSide, Sight, TakeSide};

/// What stands first on a link.
#[derive(Clone, Copy, Debug, PartialEq, Eq)]
pub enum HopFront {
    /// Nothing.
    Nothing,
    /// A fragment that only acknowledged, and was taken.
    Acknowledged,
    /// A fragment of the monitors' own messages, which stays.
    Monitor(Frag),
    /// A fragment of a circuit, which stays, and where its entry leads.
    Goes(Frag, HopTarget),
}

/// What became of a fragment that was to pass on.
#[derive(Clone, Copy, Debug, PartialEq, Eq)]
pub enum ForwardOutcome {
    /// It was taken, and stands on the way out now.
    Moved,
    /// The way out has no room, and the fragment stays.
    Full,
    /// The way out is spent, and the fragment stays. To the layers above that is a way out with no room.
    Spent,
}

/// What a forward did.
#[derive(Clone, Copy, Debug, PartialEq, Eq)]
pub enum Forwarded {
    /// Nothing stood there.
    Nothing,
    /// A fragment only acknowledged, and was taken.
    Acknowledged,
    /// A fragment of the monitors' own messages stands first, and stays.
    Monitor(Frag),
    /// A fragment for an end at this core stands first, and stays: [`deliver`] takes it to the end's arrival
    /// queue.
    Arrives(Frag, EndId),
    /// A fragment was to pass on to another link.
    Onward(ForwardOutcome),
}

/// Passes on a fragment that was seen to stand first: puts it on the way out with this circuit, and takes it where that
/// succeeds. Where the way out has no room nothing is taken, and nothing is put.
#[inline]
pub fn move_on<T: TakeSide, P: PutSide>(
    from: &mut T,
    to: &mut P,
    frag: &Frag,
    circuit: Circuit,
) -> ForwardOutcome
    requires seen { T.front from.old ≡ saw (bare frag.now) }
    requires call { is_ack_only (with_circuit circuit.0 frag.now) ≡ false }
    ensures put { P.puts to.old (put_label result (bare (with_circuit circuit.0 frag.now))) to.new }
    ensures left { Leaves T.takes result (bare frag.now) (record { before = from.old; after = from.new }) }
{
    let frag = frag.with_circuit(circuit);
    match to.put(&frag) {
        Err(PutFault::Full) => ForwardOutcome::Full,
        Err(PutFault::Spent) => ForwardOutcome::Spent,
        Ok(()) => {
            let _ = from.take();
            ForwardOutcome::Moved
        }
    }
}

// Passes on a fragment that was seen to stand first on one of two sides, over the other.
#[inline]
fn cross<S: TakeSide + PutSide>(
    sides: &mut [S],
    from: usize,
    to: usize,
    frag: &Frag,
    circuit: Circuit,
) -> ForwardOutcome
    requires from { from < length sides.old }
    requires to { to < length sides.old }
    requires two { from ≢ to }
    requires seen { (s : S) → slice_get sides.old from ≡ Some s → S.front s ≡ saw (bare frag.now) }
    requires call { is_ack_only (with_circuit circuit.0 frag.now) ≡ false }
    ensures crosses { Crosses S.takes S.puts
        (record { from = from; to = to; frag = frag.now; circuit = circuit.0; outcome = result })
        (record { before = sides.old; after = sides.new }) }
{
    let frag = frag.with_circuit(circuit);
    match sides[to].put(&frag) {
        Err(PutFault::Full) => ForwardOutcome::Full,
        Err(PutFault::Spent) => ForwardOutcome::Spent,
        Ok(()) => {
            let _ = sides[from].take();
            ForwardOutcome::Moved
        }
    }
}

/// Delivers a fragment that was seen to stand first to an end's arrival queue, where it has circuit 0. Where the queue has
/// no room nothing is taken, and nothing is put.
#[inline]
pub fn deliver<T: TakeSide, P: PutSide>(from: &mut T, queue: &mut P, frag: &Frag) -> ForwardOutcome
    requires seen { T.front from.old ≡ saw (bare frag.now) }
    requires call { is_ack_only (with_circuit 0 frag.now) ≡ false }
    ensures put { P.puts queue.old (put_label result (as_carried frag.now)) queue.new }
    ensures left { Leaves T.takes result (bare frag.now) (record { before = from.old; after = from.new }) }
{
    move_on(from, queue, frag, Circuit(0))
}

impl Circuits {
    /// What stands first on a link: a fragment of a circuit stays, with where its entry leads. One that only
    /// acknowledges is taken.
    ///
    /// # Errors
    /// The fragment's circuit has no entry (E67); or the entry leads to an end, and with its circuit set aside the
    /// fragment would be one that only acknowledges, which no fragment of a call is (E63). The fragment stays then. The
    /// caller calls no more for a direction that has failed.
    #[inline]
    pub fn look<T: TakeSide>(&self, link: LinkId, from: &mut T) -> Result<HopFront, HopFault>
        ensures finds { Finds T.takes T.front
            (record { table = self.now; link = link.0 }) result
            (record { before = from.old; after = from.new }) }
    {
        let frag = match from.peek() {
            Sight::Empty => return Ok(HopFront::Nothing),
            Sight::Acknowledgement => {
                let _ = from.take();
                return Ok(HopFront::Acknowledged);
            }
            Sight::Data(frag) => frag,
        };
        let circuit = frag.circuit();
        if circuit.0 == 0 {
            return Ok(HopFront::Monitor(frag));
        }
        match self.route_of(link, circuit) {
            None => Err(HopFault::Misrouted),
            Some(HopTarget::Link(next, number)) => Ok(HopFront::Goes(
                frag,
                HopTarget::Link(next, number),
            )),
            Some(HopTarget::End(end)) => {
                if frag.with_circuit(Circuit(0)).is_ack_only() {
                    return Err(HopFault::Marked);
                }
                Ok(HopFront::Goes(frag, HopTarget::End(end)))
            }
        }
    }

    /// Looks at the first fragment of a link, and passes it on where its entry leads to another link. `sides` are this
    /// core's sides of its links, in order. Where that link has no room, nothing is taken and nothing put. A fragment for
    /// an end stays: [`deliver`] takes it to the end's arrival queue.
    ///
    /// # Errors
    /// There is no such link, or not one side for each link (E73), and then nothing was looked at; else as
    /// [`Circuits::look`].
    pub fn forward<S: TakeSide + PutSide>(
        &self,
        link: LinkId,
        sides: &mut [S],
    ) -> Result<Forwarded, HopFault>
        ensures forwards { Forwards S.takes S.puts S.front (record { table = self.now; link = link.0 }) result
            (record { before = sides.old; after = sides.new }) }
    {
        let place = usize::from(link.0);
        if sides.len() != self.links.len() || place >= sides.len() {
            return Err(HopFault::NoLink);
        }
        match self.look(link, &mut sides[place])? {
            HopFront::Nothing => Ok(Forwarded::Nothing),
            HopFront::Acknowledged => Ok(Forwarded::Acknowledged),
            HopFront::Monitor(frag) => Ok(Forwarded::Monitor(frag)),
            HopFront::Goes(frag, HopTarget::End(end)) => Ok(Forwarded::Arrives(frag, end)),
            HopFront::Goes(frag, HopTarget::Link(next, circuit)) => {
                let outcome = cross(sides, place, usize::from(next.0), &frag, circuit);
                Ok(Forwarded::Onward(outcome))
            }
        }
    }
}
