//! Turns of dispatchers.

ghost use Rattle.std.specs.Prelude.{◌≡◌, ◌<◌, length, Some, IfSome, OnErr};
ghost use Rattle.fl_core.specs.BoardView.{due, channel_of};
ghost use Rattle.fl_core.specs.BoardTurns.{Turns, over};

use crate::law::law_turn_accounts;
use crate::one_board::Board;
use crate::turn_answer::TurnAnswer;
use crate::waiting::look_at;
use fl_base::ChanId;
use fl_link::TakeSide;
use fl_waitset::Pick;
use std::alloc::AllocError;

// The channel that was picked.
#[inline]
fn channel_of(pick: Pick) -> ChanId
    ensures channel { result.0 ≡ channel_of pick }
{
    match pick {
        Pick::Pending(c) => c,
        Pick::Polled(c) => c,
    }
}

impl Board {
    /// The end at which a dispatcher's next turn looks, by its place: that of the first pending channel, else of the first
    /// polled one. The caller lends the turn this end's side. None where no channel is pending or polled.
    #[inline]
    pub fn due(&self, dispatcher: usize) -> Option<usize>
        requires { dispatcher < length self.now.dispatchers }
        ensures due { result ≡ due self.now dispatcher }
        ensures within { IfSome result (λ e. e < length self.now.seats) }
    {
        let dispatcher = &self.dispatchers[dispatcher];
        match dispatcher.waitset.next_event() {
            Ok(pick) => Some(dispatcher.ends[usize::from(channel_of(pick).0)]),
            Err(_) => None,
        }
    }

    /// One turn of a dispatcher, over the side of the end that is due.
    ///
    /// Where a channel is pending, the first is looked at, and one fragment is given to its end. Then a ring's channel goes to
    /// the back of polled, and one of a queue to the back of pending where a fragment still stands, else to the back of idle; so
    /// it does where nothing stood there. An end with a rule at which 16 replies wait is given none, and its channel goes to the
    /// back of pending. Where the fragment can't follow those before it, the end has failed, the fragment stays and the channel
    /// is deregistered.
    ///
    /// Else the first polled channel is looked at: it goes to the back of pending where a fragment of a call stands, else to the
    /// back of polled; a fragment that only acknowledges is taken.
    ///
    /// # Errors
    /// Out of memory (E99), only where the fragment would make a call whole. The board is as it was then, and the fragment,
    /// which was looked at, is left.
    #[inline(always)]
    pub fn turn<T: TakeSide>(
        &mut self,
        dispatcher: usize,
        e: usize,
        from: &mut T,
    ) -> Result<TurnAnswer, AllocError>
        requires there { dispatcher < length self.old.dispatchers }
        requires due { due self.old dispatcher ≡ Some e }
        ensures turns { Turns T.takes dispatcher e (over self.old from.old) result (over self.new from.new) }
        ensures kept { OnErr result (self.new ≡ self.old) }
    {
        let at = &mut self.dispatchers[dispatcher];
        let Ok(pick) = at.waitset.next_event() else {
            unreachable!();
        };
        let seat = &mut self.seats[e];
        law_turn_accounts::<T>();
        look_at(
            &mut at.waitset,
            pick,
            &mut seat.end,
            seat.kind,
            from,
            &mut self.calls,
            e,
        )
    }
}
