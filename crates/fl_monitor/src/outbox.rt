//! What a monitor is to send over one link.

ghost use Rattle.std.specs.Prelude.{◌≡◌, ◌≢◌, ◌<◌, ◌≤◌, ◌==◌, ◌++◌, ◌∷◌, [], drop, false, length, slice_get, IfOk, IfSome};
ghost use Rattle.std.specs.VecDeque.{deque_capacity};
ghost use Rattle.fl_base.specs.Control.{bare, is_ack_only};
ghost use Rattle.fl_monitor.specs.Outboxes.{IsOutbox, IsSomeFrag, Puts};

use crate::fault::MonitorFault;
use fl_base::Frag;
use std::alloc::{AllocError, Global};
use std::collections::VecDeque;
use std::marker::Model;

/// So many messages may wait for one link.
pub const MAX_WAITING: usize = 64;

/// The messages that a monitor is to send over one link, as fragments: what is sent then takes no memory.
///
/// Contracts see the list of the fragments, the first to be sent first. They say one list of messages
/// ([`law_outboxes_say_messages`](crate::law_outboxes_say_messages)).
#[derive(Drop)]
pub struct Outbox {
    frags: VecDeque<Frag>,
}

impl Model for Outbox {
    ghost use Rattle.std.specs.Prelude.{◌≤◌, List};
    ghost use Rattle.std.specs.VecDeque.{deque_capacity};
    ghost use Rattle.fl_base.specs.declared.fragment.Frag.{Frag};
    ghost use Rattle.fl_monitor.specs.Outboxes.{IsOutbox};

    ghost Value = { List Frag };

    ghost view = { λ o. o.frags.items };

    ghost invariant = { λ o. IsOutbox o.frags.items × (64 ≤ deque_capacity o.frags) };
}

// One fragment more, the last, where there is room.
fn push(frags: &mut VecDeque<Frag>, frag: Frag)
    requires few { length frags.old.items < 64 }
    requires room { 64 ≤ deque_capacity frags.old }
    ensures items { frags.new.items ≡ frags.old.items ++ frag ∷ [] }
    ensures room { 64 ≤ deque_capacity frags.new }
{
    frags.push_back(frag).unwrap();
}

impl Outbox {
    /// An outbox in which nothing waits, with room for all that may.
    ///
    /// # Errors
    /// Out of memory (E99). No other call takes memory.
    pub fn new(alloc: Global) -> Result<Outbox, AllocError>
        ensures empty { IfOk result (λ outbox. outbox ≡ []) }
    {
        let frags = VecDeque::with_capacity(alloc, MAX_WAITING)?;
        Ok(Outbox { frags })
    }

    /// What is known of an outbox at any time. It does nothing.
    pub fn law_sound(&self)
        ensures sound { IsOutbox self.now }
    {
        let _waiting = self.frags.len();
    }

    /// How many messages wait.
    pub fn waiting(&self) -> usize
        ensures waiting { result ≡ length self.now }
    {
        self.frags.len()
    }

    /// Whether as many messages wait as may.
    pub fn is_full(&self) -> bool
        ensures full { result ≡ (length self.now == 64) }
    {
        self.frags.len() == MAX_WAITING
    }

    /// Puts a message's fragment last ([`Messenger::frag`](crate::Messenger::frag)).
    ///
    /// # Errors
    /// 64 messages wait (E75). The outbox is as it was then.
    pub fn put(&mut self, frag: &Frag) -> Result<(), MonitorFault>
        requires message { IsSomeFrag frag.now }
        ensures puts { Puts self.old frag.now result self.new }
    {
        if self.is_full() {
            return Err(MonitorFault::OutboxFull);
        }
        push(&mut self.frags, *frag);
        Ok(())
    }

    // The first fragment.
    fn first(&self) -> Option<Frag>
        ensures first { result ≡ slice_get self.now 0 }
        ensures sound { IsOutbox self.now }
    {
        match self.frags.front() {
            Some(frag) => Some(*frag),
            None => None,
        }
    }

    /// The fragment that is sent next; none where nothing waits. A link carries it as it is.
    pub fn next_out(&self) -> Option<Frag>
        ensures next { result ≡ slice_get self.now 0 }
        ensures data { IfSome result (λ f. is_ack_only f ≡ false) }
        ensures bare { IfSome result (λ f. bare f ≡ f) }
    {
        self.first()
    }

    /// The fragment that was next is sent: it waits no more.
    pub fn sent_out(&mut self)
        requires next { self.old ≢ [] }
        ensures rest { self.new ≡ drop 1 self.old }
    {
        self.frags.pop_front();
    }
}
