//! Both ends of a binding within one core.

ghost use Rattle.std.specs.Prelude.{◌≡◌, ◌<◌, length, None, true};
ghost use Rattle.fl_core.specs.View.{client_of, server_of, place_of};
ghost use Rattle.fl_core.specs.Making.{has_places, has_both_places, client_wired_end, server_wired_end, Joins};

use crate::one_core::Core;
use crate::wiring::{EndWiring, WiredEnd};
use crate::{Board, BoardFault};
use fl_base::{EndId, MAX_CHANNELS, Side};
use fl_endpoint::End;

/// An end, and the dispatcher at which it is to be.
#[derive(Drop)]
pub struct EndAtDispatcher {
    /// The dispatcher's place on the core's board, from 0.
    pub dispatcher: usize,
    /// The end itself, which the core takes.
    pub end: End,
}

/// The two ends of a binding that are to be joined by queues within one core.
#[derive(Drop)]
pub struct LocalBinding {
    /// The binding's number.
    pub binding: usize,
    /// The client's end.
    pub client: EndAtDispatcher,
    /// The server's end.
    pub server: EndAtDispatcher,
    /// The queue to which the client's end puts, by its number.
    pub to_server: usize,
    /// The queue to which the server's end puts.
    pub to_client: usize,
}

/// The places of a binding's two ends on the board of their core, from 0.
#[derive(Clone, Copy)]
pub struct EndPlaces {
    /// That of the client's end.
    pub client: usize,
    /// That of the server's end.
    pub server: usize,
}

impl Board {
    /// Whether a dispatcher has places for so many more ends; where there is no such dispatcher, it hasn't.
    pub fn has_places(&self, dispatcher: usize, count: usize) -> bool
        requires few { count < 3 }
        ensures places { result ≡ has_places count self.now dispatcher }
    {
        if dispatcher >= self.dispatchers() {
            return false;
        }
        self.law_sound();
        self.ends_at(dispatcher) + count <= MAX_CHANNELS
    }
}

// Whether there are places for an end at each of two dispatchers.
fn has_both_places(board: &Board, one: usize, other: usize) -> bool
    requires one { one < length board.now.dispatchers }
    requires other { other < length board.now.dispatchers }
    ensures places { result ≡ has_both_places board.now one other }
{
    if one == other {
        board.has_places(one, 2)
    } else {
        board.has_places(one, 1) && board.has_places(other, 1)
    }
}

impl LocalBinding {
    // The wired end of the client's end.
    fn client_wired_end(&self) -> WiredEnd
        ensures wired_end { result ≡ client_wired_end self.now }
    {
        WiredEnd {
            name: EndId {
                binding: self.binding,
                side: Side::Client,
            },
            wiring: EndWiring::Queues {
                out: self.to_server,
                from: self.to_client,
            },
        }
    }

    // The wired end of the server's.
    fn server_wired_end(&self) -> WiredEnd
        ensures wired_end { result ≡ server_wired_end self.now }
    {
        WiredEnd {
            name: EndId {
                binding: self.binding,
                side: Side::Server,
            },
            wiring: EndWiring::Queues {
                out: self.to_client,
                from: self.to_server,
            },
        }
    }
}

impl Core {
    /// Both ends of a binding, joined by queues, at two dispatchers or at one; they aren't registered yet. The client's end is added first.
    ///
    /// # Errors
    /// There aren't places for both: a dispatcher has 1,024 ends, or 1,023 where it is to get both (E54); out of memory (E99). The core is as it was then.
    pub fn add_both(&mut self, both: LocalBinding) -> Result<EndPlaces, BoardFault>
        requires client { both.client.dispatcher < length self.old.board.dispatchers }
        requires server { both.server.dispatcher < length self.old.board.dispatchers }
        requires few { both.binding < 1024 }
        requires new_client { place_of self.old (client_of both.binding) ≡ None }
        requires new_server { place_of self.old (server_of both.binding) ≡ None }
        ensures joins { Joins both self.old result self.new }
    {
        if !has_both_places(&self.board, both.client.dispatcher, both.server.dispatcher) {
            return Err(BoardFault::TooManyEnds);
        }
        let (client_wired_end, server_wired_end) = (
            both.client_wired_end(),
            both.server_wired_end(),
        );
        self.law_sound();
        let Ok(client) = self.add_end(both.client.dispatcher, both.client.end, client_wired_end)
        else {
            return Err(BoardFault::Memory);
        };
        let Ok(server) = self.add_end(both.server.dispatcher, both.server.end, server_wired_end)
        else {
            self.take_back_end();
            return Err(BoardFault::Memory);
        };
        Ok(EndPlaces { client, server })
    }
}
