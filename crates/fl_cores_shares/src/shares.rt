//! Things handed out to cores: queues, and numbers of sides of rings.

ghost use Rattle.std.specs.Prelude.{◌≡◌, ◌<◌, [], length, map, IfOk, OnOk};
ghost use Rattle.fl_cores_shares.specs.Shares.{holding_at, Holds, Gives};
ghost use Rattle.fl_cores_shares.specs.Giving.{given_to};

use std::alloc::{AllocError, Global};

/// Things that are handed out to cores. A thing is known by its number, from 0 in the order in which they were handed out.
#[derive(Drop)]
pub struct CoreShares<T> {
    /// By thing, the core that has it.
    pub owners: Vec<usize>,
    /// By thing, its place in its core's hand.
    pub places: Vec<usize>,
    /// By core its things, in the order of their numbers.
    pub holdings: Vec<Vec<T>>,
}

// A thing goes to a core's hand, behind the others, at the place that is told.
fn give<T: Drop>(holdings: &mut Vec<Vec<T>>, core: usize, thing: T) -> Result<usize, AllocError>
    requires there { core < length holdings.old.items }
    ensures given { OnOk result (map (λ holding. holding.items) holdings.new.items ≡ given_to core thing (map (λ holding. holding.items) holdings.old.items)) }
    ensures place { IfOk result (λ place. place ≡ length (holding_at (map (λ holding. holding.items) holdings.old.items) core)) }
{
    let holding = &mut holdings[core];
    let place = holding.len();
    holding.push(thing)?;
    Ok(place)
}

impl<T: Drop> CoreShares<T> {
    /// Nothing is handed out yet, to so many cores.
    ///
    /// # Errors
    /// Out of memory (E99).
    pub fn new(alloc: Global, cores: usize) -> Result<CoreShares<T>, AllocError>
        ensures cores { IfOk result (λ d. length d.holdings.items ≡ cores) }
        ensures none { IfOk result (λ d. d.owners.items ≡ []) }
        ensures holds { IfOk result (λ d. Holds d []) }
    {
        let mut holdings = Vec::new(alloc);
        for _ in 0..cores {
            holdings.push(Vec::new(alloc))?;
        }
        Ok(CoreShares {
            owners: Vec::new(alloc),
            places: Vec::new(alloc),
            holdings,
        })
    }

    /// The next thing goes to a core.
    ///
    /// # Errors
    /// Out of memory (E99).
    pub fn give(self, owner: usize, thing: T) -> Result<CoreShares<T>, AllocError>
        requires there { owner < length self.holdings.items }
        ensures given { IfOk result (λ d. Gives owner thing self d) }
    {
        let mut handed_out = self;
        let place = give(&mut handed_out.holdings, owner, thing)?;
        handed_out.owners.push(owner)?;
        handed_out.places.push(place)?;
        Ok(handed_out)
    }
}
